//! Cuts of a column, of which the least is kept.

ghost use Rattle.std.specs.Prelude.{◌≡◌, ◌<◌, length, flat_map};
ghost use Rattle.std.specs.List.{range_with_len};
ghost use Rattle.cover_core.specs.Parts.{column_at};
ghost use Rattle.tail_exchange.specs.Exchange.{cut_at, cuts_of};
ghost use Rattle.tail_exchange.specs.Leasts.{least_from};
ghost use Rattle.tail_exchange.specs.Searches.{IsSearchable, ShowsRooms};

use crate::candidate::{Candidate, Kind};
use crate::joins::{column_of, len_of, split_of, worth_of};
use crate::least::consider;
use cover_core::{Column, Columns};

/// The cut of a column from a place on into a class.
fn cut_at<C: Columns>(
    columns: &C,
    plan: &[Column],
    rooms: &[bool],
    a: u32,
    i: u32,
    class: u32,
    best: Option<Candidate>,
) -> Option<Candidate>
    requires ready { IsSearchable (C.problem columns.now) plan.now }
    requires rooms { ShowsRooms (C.problem columns.now) plan.now rooms.now }
    requires below { a < length plan.now }
    requires front { i < length (column_at plan.now a).items }
    requires class { class < length (C.problem columns.now).caps }
    ensures { result ≡ least_from best (cut_at (C.problem columns.now) plan.now a i class) }
{
    let column = column_of(columns, plan, a);
    if !rooms[class as usize] || (i == 0 && class == column.class) {
        return best;
    }
    let (front, tail) = split_of(columns, plan, a, i);
    match worth_of(columns, column.class, front) {
        None => best,
        Some(left) => match worth_of(columns, class, tail) {
            None => best,
            Some(right) => {
                let cut = Candidate {
                    change: 0,
                    kind: Kind::Cut,
                    a,
                    b: 0,
                    i,
                    j: class,
                };
                consider(best, column.worth, cut, left, right)
            }
        },
    }
}

/// The cuts of a column from a place on.
fn cuts_at<C: Columns>(
    columns: &C,
    plan: &[Column],
    rooms: &[bool],
    a: u32,
    i: u32,
    best: Option<Candidate>,
) -> Option<Candidate>
    requires ready { IsSearchable (C.problem columns.now) plan.now }
    requires rooms { ShowsRooms (C.problem columns.now) plan.now rooms.now }
    requires below { a < length plan.now }
    requires front { i < length (column_at plan.now a).items }
    ensures { result ≡ least_from best (flat_map (λ k. cut_at (C.problem columns.now) plan.now a i k) (range_with_len 0 (length (C.problem columns.now).caps))) }
{
    let mut least = best;
    for class in 0..columns.classes() {
        least = cut_at(columns, plan, rooms, a, i, class, least);
    }
    least
}

/// The cuts of a column.
pub fn cuts_of<C: Columns>(
    columns: &C,
    plan: &[Column],
    rooms: &[bool],
    a: u32,
    best: Option<Candidate>,
) -> Option<Candidate>
    requires ready { IsSearchable (C.problem columns.now) plan.now }
    requires rooms { ShowsRooms (C.problem columns.now) plan.now rooms.now }
    requires below { a < length plan.now }
    ensures { result ≡ least_from best (cuts_of (C.problem columns.now) plan.now a) }
{
    let mut least = best;
    for i in 0..len_of(columns, plan, a) {
        least = cuts_at(columns, plan, rooms, a, i, least);
    }
    least
}
