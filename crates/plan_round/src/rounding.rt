//! Rounding a pool.

ghost use Rattle.std.specs.Prelude.{◌≡◌, ◌<◌, ℕ, true, false, length, slice_index, slice_index_or, IfOk, IfErr};
ghost use Rattle.plan_core.specs.Limits.{most_price};
ghost use Rattle.column_pool.specs.Pools.{IsByValue};
ghost use Rattle.cover_core.specs.Cover.{AllBelow};
ghost use Rattle.cover_core.specs.Plans.{AreColumns, IsPlan};
ghost use Rattle.cover_core.specs.FirstLeast.{AreCheap, AllWithin};
ghost use Rattle.plan_round.specs.Rounding.{rounded, picked, whole};
ghost use Rattle.plan_round.specs.Laws.{HasRoomForEach};
ghost use Rattle.plan_round.specs.Faults.{FaultIs, RoundsTo, HasCause, IsMemory};

use crate::draft::Draft;
use crate::fault::RoundFault;
use crate::fill::fill;
use crate::take::take_all;
use column_pool::Pool;
use cover_core::{Column, Columns, Plan, Prices};
use plan_core::{Memory, Seq, zeros};
use std::alloc::Global;

/// The places of the pool's columns by value, and of those of equal value by place.
fn by_value<C: Columns>(columns: &C, pool: &Pool, prices: &Prices) -> Result<Seq<u32>, Memory>
    requires pool { AreColumns (C.problem columns.now) pool.now }
    requires cheap { AreCheap pool.now }
    requires prices { length prices.now.items ≡ (C.problem columns.now).items }
    requires moderate { AllWithin most_price prices.now.items }
    ensures { IfOk result (λ places. IsByValue prices.now.items pool.now places) }
{
    // items and classes are few, which a problem says where it is asked
    let _items = columns.items();
    let _classes = columns.classes();
    pool.sorted_by_value(prices)
}

/// A list of items that are all free.
fn all_true(alloc: Global, len: usize) -> Result<Seq<bool>, Memory>
    ensures len { IfOk result (λ v. length v ≡ len) }
    ensures free { IfOk result (λ v. (i : ℕ) → i < length v → slice_index_or v i false ≡ true) }
{
    match vec![in alloc; true; len] {
        Ok(free) => Ok(Seq::from_vec(free)),
        Err(_) => Err(Memory),
    }
}

/// A plan from the columns at places of a pool, or the item that is left.
fn round_over<C: Columns>(
    alloc: Global,
    columns: &C,
    pool: &[Column],
    places: &[u32],
) -> Result<Plan, RoundFault>
    requires pool { AreColumns (C.problem columns.now) pool.now }
    requires worths { AreCheap pool.now }
    requires places { AllBelow (length pool.now) places.now }
    ensures rounded { IfOk result (λ plan. rounded (C.problem columns.now) (picked pool.now places.now) ≡ whole plan.columns) }
    ensures plan { IfOk result (λ plan. IsPlan (C.problem columns.now) plan.columns) }
    ensures cheap { IfOk result (λ plan. AreCheap plan.columns) }
    ensures fault { IfErr result (FaultIs (C.problem columns.now) (rounded (C.problem columns.now) (picked pool.now places.now))) }
{
    match all_true(alloc, columns.items() as usize) {
        Err(Memory) => Err(RoundFault::Memory),
        Ok(items) => match zeros(alloc, columns.classes() as usize) {
            Err(Memory) => Err(RoundFault::Memory),
            Ok(counts) => {
                let mut free = items;
                let mut draft = Draft {
                    columns: Seq::new(alloc),
                    counts,
                };
                match take_all(alloc, columns, &mut draft, &mut free, pool, places) {
                    Err(Memory) => Err(RoundFault::Memory),
                    Ok(()) => fill(alloc, columns, draft, free.as_slice()),
                }
            }
        },
    }
}

/// Rounds a pool to a plan. Its columns are gone through by value at the prices, and those of equal value by place; a column is taken
/// where all its items are free and its class has a place left. Then each free item, by its number, goes where the cost rises least:
/// into a column of the plan, at the place that its number gives, where the longer list has a worth; or into a new column of its own,
/// put last, where its class has a place left. Of equal rises the earlier column comes first, then new columns by class.
///
/// Each column of the pool has the worth that `columns` gives, at most 4,000,000,000. There is one price for each item, from
/// -10,000,000,000,000 to 10,000,000,000,000.
///
/// `NotPlaced` comes exactly where this leaves an item: the first one for which each class in which it alone has a worth is full, and
/// which fits into no column; the columns so far come with it. No item is left where each one alone has a worth in a class whose cap is
/// at least the number of items.
pub fn round<C: Columns>(
    alloc: Global,
    columns: &C,
    pool: &Pool,
    prices: &Prices,
) -> Result<Plan, RoundFault>
    requires pool { AreColumns (C.problem columns.now) pool.now }
    requires cheap { AreCheap pool.now }
    requires prices { length prices.now.items ≡ (C.problem columns.now).items }
    requires moderate { AllWithin most_price prices.now.items }
    ensures rounded { IfOk result (λ plan. RoundsTo (C.problem columns.now) prices.now.items pool.now (whole plan.columns)) }
    ensures plan { IfOk result (λ plan. IsPlan (C.problem columns.now) plan.columns) }
    ensures cheap { IfOk result (λ plan. AreCheap plan.columns) }
    ensures fault { IfErr result (HasCause (C.problem columns.now) prices.now.items pool.now) }
    ensures complete { HasRoomForEach (C.problem columns.now) → IfErr result IsMemory }
{
    match by_value(columns, pool, prices) {
        Err(Memory) => Err(RoundFault::Memory),
        Ok(places) => round_over(alloc, columns, pool.as_slice(), places.as_slice()),
    }
}
