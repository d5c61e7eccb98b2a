//! Swaps of tails, of which the least is kept.

ghost use Rattle.std.specs.Prelude.{◌≡◌, ◌<◌, ◌≤◌, ◌+◌, length, flat_map};
ghost use Rattle.std.specs.List.{range_with_len};
ghost use Rattle.cover_core.specs.Parts.{column_at};
ghost use Rattle.tail_exchange.specs.declared.candidate.Kind.TheVariants.{Swap};
ghost use Rattle.tail_exchange.specs.Exchange.{swap_at, swaps_of, all_swaps_of};
ghost use Rattle.tail_exchange.specs.Leasts.{least_from};
ghost use Rattle.tail_exchange.specs.Kept.{swaps_behind};
ghost use Rattle.tail_exchange.specs.Searches.{IsSearchable};

use crate::candidate::{Candidate, Kind};
use crate::joins::{column_of, columns_of, joined_worth, len_of, may_join, split_of};
use crate::least::consider;
use arrayvec::ArrayVec;
use cover_core::{Column, Columns};

/// The swap of two columns from places on.
fn swap_at<C: Columns>(
    columns: &C,
    plan: &[Column],
    swap: Candidate,
    list: &mut ArrayVec<u32, 3000>,
    best: Option<Candidate>,
) -> Option<Candidate>
    requires ready { IsSearchable (C.problem columns.now) plan.now }
    requires kind { swap.kind ≡ Swap }
    requires order { swap.a < swap.b }
    requires below { swap.b < length plan.now }
    requires front { swap.i ≤ length (column_at plan.now swap.a).items }
    requires tail { swap.j ≤ length (column_at plan.now swap.b).items }
    ensures { result ≡ least_from best (swap_at (C.problem columns.now) plan.now swap.a swap.b swap.i swap.j) }
{
    let first = column_of(columns, plan, swap.a);
    let second = column_of(columns, plan, swap.b);
    let (a_front, a_tail) = split_of(columns, plan, swap.a, swap.i);
    let (b_front, b_tail) = split_of(columns, plan, swap.b, swap.j);
    if !may_join(a_front, b_tail) || !may_join(b_front, a_tail) {
        return best;
    }
    match joined_worth(columns, first.class, a_front, b_tail, list) {
        None => best,
        Some(left) => match joined_worth(columns, second.class, b_front, a_tail, list) {
            None => best,
            Some(right) => consider(best, first.worth + second.worth, swap, left, right),
        },
    }
}

/// The swaps of two columns with so many items in front in the first.
fn swaps_at<C: Columns>(
    columns: &C,
    plan: &[Column],
    a: u32,
    b: u32,
    i: u32,
    list: &mut ArrayVec<u32, 3000>,
    best: Option<Candidate>,
) -> Option<Candidate>
    requires ready { IsSearchable (C.problem columns.now) plan.now }
    requires order { a < b }
    requires below { b < length plan.now }
    requires front { i ≤ length (column_at plan.now a).items }
    ensures { result ≡ least_from best (flat_map (λ j. swap_at (C.problem columns.now) plan.now a b i j) (range_with_len 0 (length (column_at plan.now b).items + 1))) }
{
    let mut least = best;
    for j in 0..len_of(columns, plan, b) + 1 {
        let swap = Candidate {
            change: 0,
            kind: Kind::Swap,
            a,
            b,
            i,
            j,
        };
        least = swap_at(columns, plan, swap, list, least);
    }
    least
}

/// The swaps of two columns.
fn swaps_of<C: Columns>(
    columns: &C,
    plan: &[Column],
    a: u32,
    b: u32,
    list: &mut ArrayVec<u32, 3000>,
    best: Option<Candidate>,
) -> Option<Candidate>
    requires ready { IsSearchable (C.problem columns.now) plan.now }
    requires order { a < b }
    requires below { b < length plan.now }
    ensures { result ≡ least_from best (swaps_of (C.problem columns.now) plan.now a b) }
{
    let mut least = best;
    for i in 0..len_of(columns, plan, a) + 1 {
        least = swaps_at(columns, plan, a, b, i, list, least);
    }
    least
}

/// The swaps of column a with column b, where that stands behind it.
pub fn swaps_behind<C: Columns>(
    columns: &C,
    plan: &[Column],
    a: u32,
    b: u32,
    list: &mut ArrayVec<u32, 3000>,
    best: Option<Candidate>,
) -> Option<Candidate>
    requires ready { IsSearchable (C.problem columns.now) plan.now }
    requires below { b < length plan.now }
    ensures { result ≡ least_from best (swaps_behind (C.problem columns.now) plan.now a b) }
{
    if a < b {
        swaps_of(columns, plan, a, b, list, best)
    } else {
        best
    }
}

/// The swaps of a column with those behind it.
pub fn all_swaps_of<C: Columns>(
    columns: &C,
    plan: &[Column],
    a: u32,
    list: &mut ArrayVec<u32, 3000>,
    best: Option<Candidate>,
) -> Option<Candidate>
    requires ready { IsSearchable (C.problem columns.now) plan.now }
    requires below { a < length plan.now }
    ensures { result ≡ least_from best (all_swaps_of (C.problem columns.now) plan.now a) }
{
    let mut least = best;
    let end = columns_of(columns, plan);
    for b in a + 1..end {
        least = swaps_of(columns, plan, a, b, list, least);
    }
    least
}
