//! The order in which columns are fixed.

ghost use Rattle.std.specs.Prelude.{true, false, ◌≡◌, ◌<◌, ◌≤◌, ◌∷◌, [], length, IfOk, OnOk};
ghost use Rattle.std.specs.List.Sorted.{IsPermutation, IsSortedBy};
ghost use Rattle.cover_core.specs.FirstLeast.{value as value_of};
ghost use Rattle.lagrangian_climb.specs.Choices.{is_in_play};
ghost use Rattle.price_rounds.specs.Steps.{AreReady};
ghost use Rattle.worker_price.specs.Work.{ArePricesFor};
ghost use Rattle.plan_dive.specs.Grounds.{IsRest, IsStock, IsCourse};
ghost use Rattle.plan_dive.specs.Descents.{IsDescent};
ghost use Rattle.plan_dive.specs.Orders.{key_cmp, is_before};

use crate::course::Course;
use crate::descent::{Descent, fix, free_items};
use crate::key::Key;
use crate::stock::Stock;
use cover_core::{Column, Columns, Prices, value};
use lagrangian_climb::{Rest, is_in_play};
use plan_core::Memory;
use std::alloc::Global;
use std::cmp::Ordering;

/// How often the column at a place was chosen.
fn count_at(counts: &[u32], place: usize) -> u32
    ensures { length counts.now ≤ place → result ≡ 0 }
{
    match counts.get(place) {
        Some(count) => *count,
        None => 0,
    }
}

/// Whether a column is in play.
fn can_fix<C: Columns>(_problem: &C, rest: &Rest, column: &Column) -> bool
    requires rest { IsRest (C.problem _problem.now) rest.now }
    requires column { AreReady (C.problem _problem.now) (column.now ∷ []) }
    ensures { result ≡ is_in_play rest.now.fixed rest.now.caps column.now }
{
    let fixed = rest.fixed.as_slice();
    let caps = rest.caps.as_slice();
    is_in_play(fixed, caps, column)
}

/// The value of a column of a problem, in thousandths of a cost unit.
pub fn value_at<C: Columns>(problem: &C, prices: &Prices, column: &Column) -> i64
    requires prices { ArePricesFor (C.problem problem.now) prices.now.items }
    requires column { AreReady (C.problem problem.now) (column.now ∷ []) }
    ensures { result ≡ value_of prices.now.items column.now }
{
    // there are few items, as a problem says where it is asked
    let _items = problem.items();
    value(column, prices)
}

/// The columns that are in play.
fn keys_in_play<C: Columns>(
    alloc: Global,
    problem: &C,
    pool: &[Column],
    rest: &Rest,
    course: &Course,
) -> Result<Vec<Key>, Memory>
    requires pool { length pool.now ≤ 200000 }
    requires ready { AreReady (C.problem problem.now) pool.now }
    requires rest { IsRest (C.problem problem.now) rest.now }
    requires course { IsCourse (C.problem problem.now) course.now }
    ensures { IfOk result (λ keys. length keys.items ≤ length pool.now) }
{
    let mut keys = Vec::new(alloc);
    for (place, column) in pool.iter().enumerate() {
        if can_fix(problem, rest, column) {
            let key = Key {
                count: count_at(course.counts.as_slice(), place),
                value: value_at(problem, &course.prices, column),
                place: place as u32,
            };
            keys.push(key)?;
        }
    }
    Ok(keys)
}

/// Orders columns by count, the greatest first, then by value and place.
fn compare(x: &Key, y: &Key) -> Ordering
    ensures { result ≡ key_cmp x.now y.now }
{
    let within = x.value.cmp(&y.value).then(x.place.cmp(&y.place));
    y.count.cmp(&x.count).then(within)
}

/// Brings them into order.
fn sort(keys: &mut Vec<Key>) -> Result<(), Memory>
    ensures permutation { IsPermutation keys.old.items keys.new.items }
    ensures sorted { OnOk result (IsSortedBy is_before keys.new.items) }
{
    keys.sort_by(
        |x: &Key, y: &Key| -> Ordering
            ensures { result ≡ key_cmp x.now y.now }
        { compare(x, y) },
    )?;
    Ok(())
}

/// The count of the first column, the greatest one; 0 where there is none.
fn greatest_count(keys: &[Key]) -> u32
    ensures { length keys.now ≡ 0 → result ≡ 0 }
{
    match keys.get(0) {
        Some(key) => key.count,
        None => 0,
    }
}

/// Whether a count is below nine tenths of another.
fn is_low(count: u32, greatest: u32) -> bool
    ensures { greatest ≡ 0 → result ≡ false }
{
    10 * (count as u64) < 9 * (greatest as u64)
}

/// A column of a pool that is fixed where it is still in play; answers how many items that fixes.
fn fix_at<C: Columns>(
    alloc: Global,
    problem: &C,
    pool: &[Column],
    descent: &mut Descent,
    place: u32,
) -> Result<usize, Memory>
    requires ready { AreReady (C.problem problem.now) pool.now }
    requires descent { IsDescent (C.problem problem.now) descent.old }
    ensures { OnOk result (IsDescent (C.problem problem.now) descent.new) }
{
    let place = place as usize;
    if pool.len() <= place {
        return Ok(0);
    }
    let column = &pool[place];
    if can_fix(problem, &descent.rest, column) {
        fix(alloc, problem, descent, column)?;
        Ok(column.items.as_slice().len())
    } else {
        Ok(0)
    }
}

/// Fixes columns in order: at least so many items where there are enough columns, and beyond these only columns that were chosen nearly as
/// often as the first. Answers how many items were fixed.
fn fix_in_order<C: Columns>(
    alloc: Global,
    problem: &C,
    pool: &[Column],
    descent: &mut Descent,
    keys: &[Key],
    least: usize,
) -> Result<usize, Memory>
    requires ready { AreReady (C.problem problem.now) pool.now }
    requires descent { IsDescent (C.problem problem.now) descent.old }
    ensures { OnOk result (IsDescent (C.problem problem.now) descent.new) }
{
    let greatest = greatest_count(keys);
    let mut done: usize = 0;
    for key in keys {
        if least <= done && is_low(key.count, greatest) {
            return Ok(done);
        }
        done = done.saturating_add(fix_at(alloc, problem, pool, descent, key.place)?);
    }
    Ok(done)
}

/// Fixes the columns in play that were chosen most often: at least a sixteenth of the free items, and all that were chosen nearly as often
/// as the first. Answers whether any was fixed.
pub(crate) fn fix_some<C: Columns>(
    alloc: Global,
    problem: &C,
    stock: &Stock,
    course: &Course,
    descent: &mut Descent,
) -> Result<bool, Memory>
    requires stock { IsStock (C.problem problem.now) stock.now }
    requires course { IsCourse (C.problem problem.now) course.now }
    requires descent { IsDescent (C.problem problem.now) descent.old }
    ensures { OnOk result (IsDescent (C.problem problem.now) descent.new) }
{
    let pool = stock.pool.as_slice();
    let mut keys = keys_in_play(alloc, problem, pool, &descent.rest, course)?;
    sort(&mut keys)?;
    let least = (free_items(descent.rest.fixed.as_slice()) / 16).max(1);
    let done = fix_in_order(alloc, problem, pool, descent, keys.as_slice(), least)?;
    Ok(0 < done)
}
