//! The least swap of each column, which is kept between steps.

ghost use Rattle.std.specs.Prelude.{◌≡◌, ◌<◌, length, IfOk};
ghost use Rattle.rayon.specs.Lists.{IsLeast};
ghost use Rattle.tail_exchange.specs.Order.{candidate_cmp};
ghost use Rattle.tail_exchange.specs.Exchange.{all_swaps_of};
ghost use Rattle.tail_exchange.specs.Searches.{IsSearchable};
ghost use Rattle.tail_exchange.specs.Kept.{ShowsLeasts, kept_at, swaps_with, is_stale, IsKept, IsUseful};

use crate::candidate::Candidate;
use crate::joins::columns_of;
use crate::shifts::{Shift, moved_least, place_before};
use crate::swaps::{all_swaps_of, swaps_behind};
use arrayvec::ArrayVec;
use cover_core::{Column, Columns};
use plan_core::Memory;
use rayon::prelude::*;
use std::alloc::Global;
use std::thread::Threads;

/// The least swap of a column with those behind it.
fn least_swap<C: Columns>(columns: &C, plan: &[Column], place: usize) -> Option<Candidate>
    requires ready { IsSearchable (C.problem columns.now) plan.now }
    requires below { place < length plan.now }
    ensures { IsLeast candidate_cmp (all_swaps_of (C.problem columns.now) plan.now place) result }
{
    let _few = columns_of(columns, plan);
    let mut list = ArrayVec::new();
    all_swaps_of(columns, plan, place as u32, &mut list, None)
}

/// The least swap of each column with those behind it. Each column is looked at by itself, so that threads can share the work.
/// `Memory` is the only error.
pub fn all_leasts<R: Threads + Sync, C: Columns + Sync>(
    rt: &R,
    alloc: Global,
    columns: &C,
    plan: &[Column],
) -> Result<Vec<Option<Candidate>>, Memory>
    requires { IsSearchable (C.problem columns.now) plan.now }
    ensures { IfOk result (λ leasts. ShowsLeasts (C.problem columns.now) plan.now leasts.items) }
{
    let leasts = (0..plan.len())
        .into_par_iter()
        .with_min_len(1)
        .map(
            |place: usize| -> Option<Candidate>
                requires ready { IsSearchable (C.problem columns.now) plan.now }
                requires below { place < length plan.now }
                ensures { IsLeast candidate_cmp (all_swaps_of (C.problem columns.entry.now) plan.entry.now place) result }
            { least_swap(columns, plan, place) },
        )
        .collect::<Vec<_>>(rt, alloc)?;
    Ok(leasts)
}

/// Whether a kept swap is one with column x or y.
fn swaps_with(x: u32, y: u32, least: Option<Candidate>) -> bool
    ensures { result ≡ swaps_with x y least }
{
    match least {
        None => false,
        Some(swap) => swap.b == x || swap.b == y,
    }
}

/// Whether what is kept for column a says nothing any more once columns x and y have changed: a is one of them, or is kept with one.
fn is_stale(x: u32, y: u32, a: u32, least: Option<Candidate>) -> bool
    ensures { result ≡ is_stale x y a least }
{
    a == x || a == y || swaps_with(x, y, least)
}

/// The least swap of a column after columns x and y have changed, from what is kept for it: only its swaps with these two are looked at,
/// unless what is kept says nothing any more.
fn least_after_change<C: Columns>(
    columns: &C,
    plan: &[Column],
    x: u32,
    y: u32,
    place: usize,
    least: Option<Candidate>,
) -> Option<Candidate>
    requires ready { IsSearchable (C.problem columns.now) plan.now }
    requires below { place < length plan.now }
    requires first { x < length plan.now }
    requires second { y < length plan.now }
    requires kept { IsKept (C.problem columns.now) plan.now x y place least }
    ensures { IsLeast candidate_cmp (all_swaps_of (C.problem columns.now) plan.now place) result }
{
    let _few = columns_of(columns, plan);
    let a = place as u32;
    if is_stale(x, y, a, least) {
        return least_swap(columns, plan, place);
    }
    let mut list = ArrayVec::new();
    let with_first = swaps_behind(columns, plan, a, x, &mut list, least);
    swaps_behind(columns, plan, a, y, &mut list, with_first)
}

/// What was kept for a column before a step, by the places after it.
fn kept_at(gone: u32, x: u32, leasts: &[Option<Candidate>], place: u32) -> Option<Candidate>
    requires { place < 4000 }
    ensures { result ≡ kept_at gone x leasts.now place }
{
    match leasts.get(place_before(gone, place) as usize) {
        None => None,
        Some(least) => moved_least(gone, x, *least),
    }
}

/// The least swap of a column after a step, from what was kept before it.
fn least_after<C: Columns>(
    columns: &C,
    plan: &[Column],
    shift: Shift,
    leasts: &[Option<Candidate>],
    place: usize,
) -> Option<Candidate>
    requires ready { IsSearchable (C.problem columns.now) plan.now }
    requires useful { IsUseful (C.problem columns.now) plan.now shift.gone shift.x shift.y leasts.now }
    requires below { place < length plan.now }
    ensures { IsLeast candidate_cmp (all_swaps_of (C.problem columns.now) plan.now place) result }
{
    let _few = columns_of(columns, plan);
    let least = kept_at(shift.gone, shift.x, leasts, place as u32);
    least_after_change(columns, plan, shift.x, shift.y, place, least)
}

/// The least swaps after a step, from those before it: all are made anew that the step touches, and of the others only the swaps with a
/// changed column are looked at. Threads share the work. `Memory` is the only error.
pub fn leasts_after<R: Threads + Sync, C: Columns + Sync>(
    rt: &R,
    alloc: Global,
    columns: &C,
    plan: &[Column],
    shift: Shift,
    leasts: &[Option<Candidate>],
) -> Result<Vec<Option<Candidate>>, Memory>
    requires ready { IsSearchable (C.problem columns.now) plan.now }
    requires useful { IsUseful (C.problem columns.now) plan.now shift.gone shift.x shift.y leasts.now }
    ensures { IfOk result (λ new. ShowsLeasts (C.problem columns.now) plan.now new.items) }
{
    let new = (0..plan.len())
        .into_par_iter()
        .with_min_len(1)
        .map(
            |place: usize| -> Option<Candidate>
                requires ready { IsSearchable (C.problem columns.now) plan.now }
                requires useful { IsUseful (C.problem columns.now) plan.now shift.gone shift.x shift.y leasts.now }
                requires below { place < length plan.now }
                ensures { IsLeast candidate_cmp (all_swaps_of (C.problem columns.entry.now) plan.entry.now place) result }
            { least_after(columns, plan, shift, leasts, place) },
        )
        .collect::<Vec<_>>(rt, alloc)?;
    Ok(new)
}
