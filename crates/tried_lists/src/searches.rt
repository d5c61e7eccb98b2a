//! What lists of a few items are worth, and a search through all of them beside the answers of a pricer.

ghost use Rattle.std.specs.Prelude.{◌≡◌, ◌<◌, ◌≤ℤ◌, ◌↔◌, neg_ℤ, pos, All, IfOk, IfSome, IsTrue, Some, length};
ghost use Rattle.plan_core.specs.Limits.{most_price};
ghost use Rattle.cover_core.specs.Cover.{AllBelow};
ghost use Rattle.cover_core.specs.FirstLeast.{AllWithin};

use cover_core::{Column, Columns, Pricer, Prices};
use plan_core::{Memory, Price, Seq};
use std::alloc::Global;

/// All lists of four items, in their order: by their last items backwards. The first seven are those of three items.
const LISTS: [&[u32]; 15] = [
    &[0],
    &[1],
    &[0, 1],
    &[2],
    &[0, 2],
    &[1, 2],
    &[0, 1, 2],
    &[3],
    &[0, 3],
    &[1, 3],
    &[0, 1, 3],
    &[2, 3],
    &[0, 2, 3],
    &[1, 2, 3],
    &[0, 1, 2, 3],
];

/// A list with its worth and its value.
#[derive(Clone, Copy)]
pub struct Found {
    /// What is left of its worth once the prices of its items are paid.
    pub value: i64,
    /// Its worth.
    pub worth: u64,
    /// The items.
    pub list: &'static [u32],
}

fn each_is_below(list: &[u32], count: u32) -> bool
    ensures { IsTrue result ↔ All (λ item. item < count) list.now }
{
    list.iter().all(|item| *item < count)
}

/// Whether the items of a list are there.
pub fn are_there<C: Columns>(columns: &C, list: &[u32]) -> bool
    ensures { IsTrue result → AllBelow (C.problem columns.now).items list.now }
{
    each_is_below(list, columns.items())
}

/// The worth of a list in a class, where the class and the items are there.
pub fn worth_of<C: Columns>(columns: &C, class: u32, list: &[u32]) -> Option<u64>
    ensures worth { IfSome result (λ worth. (C.problem columns.now).worth class list.now ≡ Some worth) }
    ensures class { IfSome result (λ _. class < length (C.problem columns.now).caps) }
{
    if class < columns.classes() && are_there(columns, list) {
        columns.worth(class, list)
    } else {
        None
    }
}

fn price_at(prices: &[i32], item: u32) -> i64 {
    match prices.get(item as usize) {
        Some(price) => i64::from(*price),
        None => 0,
    }
}

/// What a list of this worth has left once its items' prices are paid.
fn value_of(worth: u64, prices: &[i32], list: &[u32]) -> i64 {
    let mut value = i64::try_from(worth)
        .unwrap_or(i64::MAX)
        .saturating_mul(1000);
    for item in list {
        value = value.saturating_sub(price_at(prices, *item));
    }
    value
}

/// The first least list of a class, by trying each.
pub fn searched<C: Columns>(columns: &C, class: u32, prices: &[i32]) -> Option<Found> {
    let mut best: Option<Found> = None;
    for list in LISTS {
        if let Some(worth) = worth_of(columns, class, list) {
            let value = value_of(worth, prices, list);
            match best {
                Some(found) if found.value <= value => {}
                _ => best = Some(Found { value, worth, list }),
            }
        }
    }
    best
}

fn price(value: i32) -> Price
    ensures low { neg_ℤ (pos most_price) ≤ℤ result.0 }
    ensures high { result.0 ≤ℤ pos most_price }
{
    Price(i64::from(value))
}

/// Prices of items.
pub fn prices_of(alloc: Global, values: &[i32]) -> Result<Prices, Memory>
    ensures { IfOk result (λ prices. AllWithin most_price prices.items) }
{
    let mut items = Seq::new(alloc);
    for value in values {
        items.push(price(*value))?;
    }
    Ok(Prices { items })
}

/// The best list of a class in the first group at these prices, where the class is there and there is a price for each item.
pub fn best<P: Pricer>(
    alloc: Global,
    pricer: &P,
    class: u32,
    prices: &[i32],
    limit: i64,
) -> Result<Option<Column>, Memory> {
    let prices = prices_of(alloc, prices)?;
    let count = pricer.items();
    if count == 0 || prices.items.len() != count as usize || class >= pricer.classes() {
        return Ok(None);
    }
    pricer.best(alloc, class, &prices, 0, limit)
}

/// Whether a column is what was found in a class, or there is neither.
fn is_same(column: Option<Column>, class: u32, found: Option<Found>) -> bool {
    match (column, found) {
        (None, None) => true,
        (Some(column), Some(found)) => {
            column.class == class
                && column.worth == found.worth
                && column.items.as_slice() == found.list
        }
        _ => false,
    }
}

/// Whether the pricer finds what a search through all lists does, under a limit above its value and at it, and nothing under one below it.
pub fn agrees<P: Pricer>(
    alloc: Global,
    pricer: &P,
    class: u32,
    prices: &[i32],
) -> Result<bool, Memory> {
    if pricer.items() as usize != prices.len() || class >= pricer.classes() {
        return Ok(false);
    }
    let least = searched(pricer, class, prices);
    let value = match least {
        None => 0,
        Some(found) => found.value,
    };
    let above = best(alloc, pricer, class, prices, value.saturating_add(1))?;
    let at = best(alloc, pricer, class, prices, value)?;
    let below = best(alloc, pricer, class, prices, value.saturating_sub(1))?;
    Ok(is_same(above, class, least) && is_same(at, class, least) && is_same(below, class, None))
}
