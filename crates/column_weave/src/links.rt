//! The links of a class.

ghost use Rattle.std.specs.Prelude.{◌≡◌, ◌<◌, ◌≤ℤ◌, [], ◌∷◌, ◌++◌, pos, neg_ℤ, length, slice_index_or, slice_set, IfSome, OnOk, OnErr};
ghost use Rattle.column_weave.specs.Webs.{AreLinks, IsRise, IsSingle};

use crate::link::Link;
use cover_core::Columns;
use plan_core::{Memory, Seq};

/// The links of a class, by the item that they lead into, and the worth of each item alone.
#[derive(Drop)]
pub struct ClassLinks {
    /// A thousand times the worth of each item alone, where it has one.
    pub single: Seq<Option<i64>>,
    /// The links into each item, in order of arrival.
    pub into: Vec<Seq<Link>>,
}

/// A thousand times the worth of an item alone, where it has one.
pub(crate) fn single_of<C: Columns>(problem: &C, class: u32, item: u32) -> Option<i64>
    requires class { class < length (C.problem problem.now).caps }
    requires item { item < (C.problem problem.now).items }
    ensures { IsSingle (C.problem problem.now) class item result }
{
    match problem.worth(class, [item].as_slice()) {
        None => None,
        Some(worth) => Some(1000 * worth as i64),
    }
}

/// The rise from an item, a thousand times whose worth alone is given, to a later one.
pub(crate) fn rise_of<C: Columns>(
    problem: &C,
    class: u32,
    single: Option<i64>,
    from: u32,
    item: u32,
) -> Option<i64>
    requires class { class < length (C.problem problem.now).caps }
    requires order { from < item }
    requires item { item < (C.problem problem.now).items }
    requires single { IsSingle (C.problem problem.now) class from single }
    ensures rise { IfSome result (IsRise (C.problem problem.now) class from item) }
    ensures low { IfSome result (λ rise. neg_ℤ (pos 4000000000000) ≤ℤ rise) }
    ensures high { IfSome result (λ rise. rise ≤ℤ pos 4000000000000) }
{
    match single {
        None => None,
        Some(alone) => match problem.worth(class, [from, item].as_slice()) {
            None => None,
            Some(worth) => Some(1000 * worth as i64 - alone),
        },
    }
}

/// Puts a link behind those into an item. After `Memory` nothing has changed.
fn put(into: &mut [Seq<Link>], item: u32, link: Link) -> Result<(), Memory>
    requires { item < length into.old }
    ensures ok { OnOk result (into.new ≡ slice_set into.old item (slice_index_or into.old item [] ++ link ∷ [])) }
    ensures err { OnErr result (into.new ≡ into.old) }
{
    let list = &mut into[item as usize];
    list.push(link)
}

/// Joins an item to a later one by a link of a class, where both worths are there.
pub(crate) fn join_class<C: Columns>(
    problem: &C,
    class: u32,
    links: &mut ClassLinks,
    from: u32,
    item: u32,
) -> Result<(), Memory>
    requires class { class < length (C.problem problem.now).caps }
    requires order { from < item }
    requires item { item < (C.problem problem.now).items }
    requires links { AreLinks (C.problem problem.now) class links.old }
    ensures { AreLinks (C.problem problem.now) class links.new }
{
    let single = links.single.as_slice()[from as usize];
    match rise_of(problem, class, single, from, item) {
        None => Ok(()),
        Some(rise) => {
            put(links.into.as_mut_slice(), item, Link { from, rise })?;
            Ok(())
        }
    }
}
