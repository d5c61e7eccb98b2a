//! The nearest later items of an item.

ghost use Rattle.std.specs.Prelude.{◌≡◌, ◌<◌, length};
ghost use Rattle.column_weave.specs.Webs.{IsSingle};
ghost use Rattle.column_weave.specs.Nearest.{AreNearest, is_nearer, with_next};

use crate::links::rise_of;
use cover_core::Columns;

/// A later item, with the rise to it.
#[derive(Clone, Copy)]
pub(crate) struct Near {
    /// The rise, in thousandths of a cost unit.
    pub(crate) rise: i64,
    /// The item.
    pub(crate) item: u32,
}

/// The three later items of least rise, those that come first on ties, in their order.
#[derive(Clone, Copy)]
pub(crate) struct Nearest {
    /// The nearest.
    pub(crate) first: Option<Near>,
    /// The next one.
    pub(crate) second: Option<Near>,
    /// The one after it.
    pub(crate) third: Option<Near>,
}

/// Whether a rise is less than that to an item, where there is one.
fn is_nearer(rise: i64, other: Option<Near>) -> bool
    ensures { result ≡ is_nearer rise other }
{
    match other {
        None => true,
        Some(near) => rise < near.rise,
    }
}

/// The three nearest, where one more item comes behind all others.
fn with_next(nearest: Nearest, next: Near) -> Nearest
    ensures { result ≡ with_next nearest next }
{
    let Nearest {
        first,
        second,
        third,
    } = nearest;
    if is_nearer(next.rise, first) {
        Nearest {
            first: Some(next),
            second: first,
            third: second,
        }
    } else if is_nearer(next.rise, second) {
        Nearest {
            first,
            second: Some(next),
            third: second,
        }
    } else if is_nearer(next.rise, third) {
        Nearest {
            first,
            second,
            third: Some(next),
        }
    } else {
        nearest
    }
}

/// The three nearest later items of an item in a class.
pub(crate) fn three_nearest<C: Columns>(
    problem: &C,
    class: u32,
    single: Option<i64>,
    from: u32,
) -> Nearest
    requires class { class < length (C.problem problem.now).caps }
    requires item { from < (C.problem problem.now).items }
    requires single { IsSingle (C.problem problem.now) class from single }
    ensures { AreNearest from (C.problem problem.now).items result }
{
    let mut nearest = Nearest {
        first: None,
        second: None,
        third: None,
    };
    if single.is_none() {
        return nearest;
    }
    let items = problem.items();
    for item in from + 1..items {
        match rise_of(problem, class, single, from, item) {
            None => {}
            Some(rise) => nearest = with_next(nearest, Near { rise, item }),
        }
    }
    nearest
}
