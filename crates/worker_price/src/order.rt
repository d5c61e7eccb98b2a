//! What was found, put into order.

ghost use Rattle.std.specs.Prelude.{◌≡◌, ◌*◌, ◌/◌, ◌<◌, ◌≤◌, ℕ, ℤ, pos, length, map, replicate, None, All, IfOk, IfSome};
ghost use Rattle.std.specs.List.{filter_map, range_with_len};
ghost use Rattle.plan_core.specs.Limits.{most_items, most_price};
ghost use Rattle.cover_core.specs.FirstLeast.{AllWithin};
ghost use Rattle.worker_price.specs.Work.{lowerings, IsSound, IsSoundFound};
ghost use Rattle.worker_price.specs.Gathered.{least_lowered};
ghost use Rattle.worker_price.specs.Order.{least_after, kept, kept_at, IsFoundOfAll, IsKeptAsBest};
ghost use Rattle.cover_core.specs.Best.{best_of};

use crate::found::Found;
use crate::worker::limit;
use cover_core::{Column, Pricer, Prices, value};
use plan_core::{Memory, Seq};
use std::alloc::Global;

/// Lowers the least value of a class to that of a column, if there is one and its value is less.
fn lower_least(least: &mut Seq<i64>, prices: &Prices, class: u32, column: &Option<Column>)
    requires class { class < length least.old }
    requires few { length prices.now.items ≤ most_items }
    requires moderate { AllWithin most_price prices.now.items }
    requires sound { IfSome column.now (IsSound prices.now.items class) }
    ensures { least.new ≡ least_after prices.now.items least.old class column.now }
{
    if let Some(column) = column {
        let before = least.as_slice()[class as usize];
        least.set(class as usize, value(column, prices).min(before));
    }
}

/// The least of 0 and the values of the columns found, by class.
pub(crate) fn least_found(
    alloc: Global,
    classes: u32,
    groups: u32,
    found: &[Found],
    prices: &Prices,
) -> Result<Seq<i64>, Memory>
    requires few { length prices.now.items ≤ most_items }
    requires moderate { AllWithin most_price prices.now.items }
    requires sound { All (IsSoundFound prices.now.items classes groups) found.now }
    ensures { IfOk result (λ least. least ≡ map (least_lowered (lowerings prices.now.items groups found.now)) (range_with_len 0 classes)) }
{
    let mut least = Seq::from_vec(vec![in alloc; 0; classes as usize]?);
    for one in found {
        lower_least(&mut least, prices, one.task / groups, &one.column);
    }
    Ok(least)
}

/// The column of a class where it is kept: its value is below 0 and twice its value is at most the least of the class.
fn keep(least: &Seq<i64>, prices: &Prices, class: u32, column: Option<Column>) -> Option<Column>
    requires class { class < length least.now }
    requires few { length prices.now.items ≤ most_items }
    requires moderate { AllWithin most_price prices.now.items }
    requires sound { IfSome column (IsSound prices.now.items class) }
    ensures { result ≡ kept prices.now.items least.now class column }
{
    let limit = limit(least.as_slice()[class as usize]);
    match column {
        Some(column) if value(&column, prices) <= limit => Some(column),
        _ => None,
    }
}

/// So many empty slots.
fn empty_slots(alloc: Global, count: u32) -> Result<Seq<Option<Column>>, Memory>
    ensures { IfOk result (λ slots. slots ≡ replicate count None) }
{
    let mut slots = Seq::new(alloc);
    for _made in 0..count {
        slots.push(None)?;
    }
    Ok(slots)
}

/// The columns that are kept, each in the slot of its task.
///
/// What was found of a task is kept exactly where the task's best column is, and each task was found.
pub(crate) fn kept_slots<P: Pricer>(
    alloc: Global,
    classes: u32,
    groups: u32,
    found: Vec<Found>,
    least: &Seq<i64>,
    prices: &Prices,
    _pricer: &P,
) -> Result<Seq<Option<Column>>, Memory>
    requires classes { classes ≡ length least.now }
    requires few { length prices.now.items ≤ most_items }
    requires moderate { AllWithin most_price prices.now.items }
    requires tasks { classes * groups < 4294967296 }
    requires sound { All (IsSoundFound prices.now.items classes groups) found.items }
    requires all { IsFoundOfAll (classes * groups) found.items }
    requires kept { All (IsKeptAsBest (best_of (P.problem _pricer.now) prices.now.items) prices.now.items groups least.now) found.items }
    ensures { IfOk result (λ slots. slots ≡ map (kept_at (best_of (P.problem _pricer.now) prices.now.items) prices.now.items groups least.now) (range_with_len 0 (classes * groups))) }
{
    let mut found = found;
    let mut slots = empty_slots(alloc, classes * groups)?;
    while let Some(one) = found.pop() {
        let kept = keep(least, prices, one.task / groups, one.column);
        slots.set(one.task as usize, kept);
    }
    Ok(slots)
}

/// What stands in slots, in their order.
pub(crate) fn columns_in(alloc: Global, slots: Seq<Option<Column>>) -> Result<Seq<Column>, Memory>
    ensures { IfOk result (λ columns. columns ≡ filter_map (λ slot. slot) slots) }
{
    let mut columns = Seq::new(alloc);
    for slot in slots.into_vec() {
        if let Some(column) = slot {
            columns.push(column)?;
        }
    }
    Ok(columns)
}
