//! Which columns a step changes, and where the others stand after it.

ghost use Rattle.std.specs.Prelude.{◌≡◌, ◌<◌, ◌≤◌, ◌==◌, ◌&&◌, length};
ghost use Rattle.cover_core.specs.Parts.{column_at};
ghost use Rattle.tail_exchange.specs.Exchange.{swapped, parted, applied};
ghost use Rattle.tail_exchange.specs.Searches.{IsSearchable, IsThere};
ghost use Rattle.tail_exchange.specs.Kept.{place_before, place_after, IsMoved, moved_least};

use crate::candidate::{Candidate, Kind};
use crate::joins::{columns_of, len_of};
use cover_core::{Column, Columns};

/// Which columns a step changes.
#[derive(Clone, Copy)]
pub struct Shift {
    /// The place before the step of the column that vanishes, and past the end where none does. Those behind it move up by one.
    pub gone: u32,
    /// The place after the step of a column that is changed or new.
    pub x: u32,
    /// That of the other, and the same one where there is no other.
    pub y: u32,
    /// How many columns there are after the step.
    pub len: u32,
}

/// Where a column that stands at a place after a step stood before it.
pub fn place_before(gone: u32, place: u32) -> u32
    requires { place < 4000 }
    ensures { result ≡ place_before gone place }
{
    if place < gone { place } else { place + 1 }
}

/// Where a column that stood at a place before a step stands after it.
fn place_after(gone: u32, place: u32) -> u32
    ensures { result ≡ place_after gone place }
{
    if gone < place { place - 1 } else { place }
}

/// A swap that was kept before a step, by the places after it. One with the column that has vanished becomes one with a changed column, so
/// that it counts for no more.
pub fn moved_least(gone: u32, x: u32, least: Option<Candidate>) -> Option<Candidate>
    ensures { result ≡ moved_least gone x least }
{
    match least {
        None => None,
        Some(swap) => {
            let b = if swap.b == gone {
                x
            } else {
                place_after(gone, swap.b)
            };
            Some(Candidate {
                change: swap.change,
                kind: swap.kind,
                a: place_after(gone, swap.a),
                b,
                i: swap.i,
                j: swap.j,
            })
        }
    }
}

/// Whether nothing is in front of place i in a column, and nothing from place j on in column b.
fn joins_nothing<C: Columns>(columns: &C, plan: &[Column], i: u32, b: u32, j: u32) -> bool
    requires ready { IsSearchable (C.problem columns.now) plan.now }
    requires below { b < length plan.now }
    ensures { result ≡ ((i == 0) && (j == length (column_at plan.now b).items)) }
{
    i == 0 && j == len_of(columns, plan, b)
}

/// Which columns a swap changes: the second vanishes, or the first, or both stay.
fn swap_shift<C: Columns>(columns: &C, plan: &[Column], step: Candidate) -> Shift
    requires ready { IsSearchable (C.problem columns.now) plan.now }
    requires order { step.a < step.b }
    requires below { step.b < length plan.now }
    ensures { length (swapped (C.problem columns.now) plan.now step.a step.b step.i step.j) ≡ result.len →
        IsMoved plan.now (swapped (C.problem columns.now) plan.now step.a step.b step.i step.j) result.gone result.x result.y }
{
    let len = columns_of(columns, plan);
    if joins_nothing(columns, plan, step.j, step.a, step.i) {
        Shift {
            gone: step.b,
            x: step.a,
            y: step.a,
            len: len - 1,
        }
    } else if joins_nothing(columns, plan, step.i, step.b, step.j) {
        Shift {
            gone: step.a,
            x: step.b - 1,
            y: step.b - 1,
            len: len - 1,
        }
    } else {
        Shift {
            gone: len,
            x: step.a,
            y: step.b,
            len,
        }
    }
}

/// Which columns a cut changes: the new one is the last, and the old one vanishes where all of it is cut off.
fn cut_shift<C: Columns>(columns: &C, plan: &[Column], step: Candidate) -> Shift
    requires ready { IsSearchable (C.problem columns.now) plan.now }
    requires below { step.a < length plan.now }
    ensures { length (parted (C.problem columns.now) plan.now step.a step.i step.j) ≡ result.len →
        IsMoved plan.now (parted (C.problem columns.now) plan.now step.a step.i step.j) result.gone result.x result.y }
{
    let len = columns_of(columns, plan);
    if step.i == 0 {
        Shift {
            gone: step.a,
            x: len - 1,
            y: len - 1,
            len,
        }
    } else {
        Shift {
            gone: len,
            x: step.a,
            y: len,
            len: len + 1,
        }
    }
}

/// Which columns a step changes, where it leaves as many columns as are told.
pub fn shift_of<C: Columns>(columns: &C, plan: &[Column], step: Candidate) -> Shift
    requires ready { IsSearchable (C.problem columns.now) plan.now }
    requires there { IsThere (C.problem columns.now) plan.now step }
    ensures { length (applied (C.problem columns.now) plan.now step) ≡ result.len →
        IsMoved plan.now (applied (C.problem columns.now) plan.now step) result.gone result.x result.y }
{
    match step.kind {
        Kind::Swap => swap_shift(columns, plan, step),
        Kind::Cut => cut_shift(columns, plan, step),
    }
}
