//! Directions and prices of all items: the numbers of a price step as vectors.

ghost use Rattle.std.specs.Prelude.{◌≡◌, ℕ, ◌<◌, ◌≤◌, ◌≤ℤ◌, pos, neg_ℤ, length, slice_index, IfOk};
ghost use Rattle.plan_core.specs.Limits.{most_items, most_price};
ghost use Rattle.cover_core.specs.FirstLeast.{AllWithin};
ghost use Rattle.cover_core.specs.Plans.{price_at, number_at};
ghost use Rattle.lagrangian_climb.specs.Climbs.{AreNear, AreSpans};

use crate::numbers::{direction, lack, price_after_move, square};
use cover_core::{Prices, price_at};
use plan_core::{Memory, Price, Seq};
use std::alloc::Global;

/// Between which numbers a price is kept, in thousandths of a cost unit.
#[derive(Clone, Copy)]
pub struct Span {
    /// The least price, from -10,000,000,000,000 on.
    pub low: i64,
    /// The greatest price, not below the least and up to 10,000,000,000,000.
    pub high: i64,
}

/// Where prices go.
#[derive(Drop)]
pub struct Heading {
    /// The direction of each price, in eighths.
    pub directions: Seq<i64>,
    /// The sum of their squares.
    pub square: u64,
}

/// The direction of an item.
fn direction_at(directions: &[i64], item: usize) -> i64
    requires inside { item < length directions.now }
    requires near { AreNear 1600000 directions.now }
    ensures value { result ≡ number_at directions.now item }
    ensures low { neg_ℤ (pos 1600000) ≤ℤ result }
    ensures high { result ≤ℤ pos 1600000 }
{
    directions[item]
}

/// Between which numbers the price of an item is kept.
fn span_at(spans: &[Span], item: usize) -> Span
    requires inside { item < length spans.now }
    requires spans { AreSpans spans.now }
    ensures low { neg_ℤ (pos most_price) ≤ℤ result.low }
    ensures ordered { result.low ≤ℤ result.high }
    ensures high { result.high ≤ℤ pos most_price }
{
    spans[item]
}

/// The directions after a price step in which the items were covered so often.
pub fn turned_heading(
    alloc: Global,
    old: &[i64],
    fixed: &[bool],
    cover: &[u32],
) -> Result<Heading, Memory>
    requires few { length old.now ≤ most_items }
    requires near { AreNear 1600000 old.now }
    requires fixed { length fixed.now ≡ length old.now }
    requires cover { length cover.now ≡ length old.now }
    requires times { (i : ℕ) → slice_index cover.now i ≤ 200000 }
    ensures len { IfOk result (λ heading. length heading.directions ≡ length old.now) }
    ensures near { IfOk result (λ heading. AreNear 1600000 heading.directions) }
    ensures square { IfOk result (λ heading. heading.square ≤ 7680000000000000) }
{
    let mut directions = Seq::new(alloc);
    let mut sum = 0;
    for item in 0..old.len() {
        let lack = lack(fixed[item], cover[item]);
        let direction = direction(direction_at(old, item), lack);
        sum += square(direction);
        directions.push(direction)?;
    }
    Ok(Heading {
        directions,
        square: sum,
    })
}

/// The prices after a price step.
pub fn moved_prices(
    alloc: Global,
    prices: &Prices,
    directions: &[i64],
    spans: &[Span],
    unit: i64,
) -> Result<Prices, Memory>
    requires moderate { AllWithin most_price prices.now.items }
    requires near { AreNear 1600000 directions.now }
    requires directions { length directions.now ≡ length prices.now.items }
    requires spans { AreSpans spans.now }
    requires one_each { length spans.now ≡ length prices.now.items }
    requires low { pos 0 ≤ℤ unit }
    requires high { unit ≤ℤ pos 1000000000000 }
    ensures len { IfOk result (λ new. length new.items ≡ length prices.now.items) }
    ensures moderate { IfOk result (λ new. AllWithin most_price new.items) }
{
    let mut items = Seq::new(alloc);
    for item in 0..prices.items.len() {
        let span = span_at(spans, item);
        let direction = direction_at(directions, item);
        let price = price_after_move(span.low, span.high, unit, direction, price_at(prices, item));
        items.push(Price(price))?;
    }
    Ok(Prices { items })
}

/// The sum of the prices of the items that are not fixed.
pub fn free_sum(fixed: &[bool], prices: &Prices) -> i128
    requires few { length prices.now.items ≤ most_items }
    requires moderate { AllWithin most_price prices.now.items }
    requires fixed { length fixed.now ≡ length prices.now.items }
    ensures low { neg_ℤ (pos 30000000000000000) ≤ℤ result }
    ensures high { result ≤ℤ pos 30000000000000000 }
{
    let mut sum: i128 = 0;
    for item in 0..fixed.len() {
        if !fixed[item] {
            sum += price_at(prices, item) as i128;
        }
    }
    sum
}
