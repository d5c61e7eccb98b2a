//! Lowering: a column of a value below 0 takes its loss from the prices of its items.

ghost use Rattle.std.specs.Prelude.{◌≡◌, ◌≢◌, ℕ, ◌<◌, ◌≤◌, ◌≤ℤ◌, ◌<ℤ◌, ◌-ℤ◌, [], pos, neg_ℤ, length};
ghost use Rattle.plan_core.specs.Limits.{most_items, most_price, most_worth};
ghost use Rattle.cover_core.specs.Cover.{AllBelow, Rises};
ghost use Rattle.cover_core.specs.FirstLeast.{AllWithin};
ghost use Rattle.cover_core.specs.Plans.{price_at};
ghost use Rattle.cover_master.specs.Method.{clamped, share_of, lowered_by, lowered_prices};

use crate::clamps::clamp;
use cover_core::{Column, Prices, value};
use plan_core::{Price, Seq};

/// Lowers the prices of a column's items where its value is below 0: each by minus that value divided by the number of items, rounded up.
/// No other price changes. There are at most 3,000 prices from -10,000,000,000,000 to 10,000,000,000,000, and so they stay. The column's
/// list is not empty and rises, its items are there, and it is worth at most 4,000,000,000.
pub fn lower(prices: &mut Prices, column: &Column)
    requires few { length prices.old.items ≤ most_items }
    requires moderate { AllWithin most_price prices.old.items }
    requires some { column.now.items ≢ [] }
    requires rises { Rises column.now.items }
    requires items { AllBelow (length prices.old.items) column.now.items }
    requires cheap { column.now.worth ≤ most_worth }
    ensures lowered { prices.new.items ≡ lowered_prices prices.old.items column.now }
    ensures moderate { AllWithin most_price prices.new.items }
{
    let value = value(column, prices);
    if value < 0 {
        let items = column.items.as_slice();
        lower_items(&mut prices.items, items, share(value, items.len()));
    }
}

/// The share that each of so many items bears of a loss, rounded up: minus a value below 0, divided by the number of items. The value is at
/// least -100,000,000,000,000,000, in thousandths of a cost unit; there are 1 to 3,000 items.
pub fn share(value: i64, count: usize) -> i64
    requires low { neg_ℤ (pos 100000000000000000) ≤ℤ value }
    requires loss { value <ℤ pos 0 }
    requires some { 0 < count }
    requires few { count ≤ most_items }
    ensures value { result ≡ pos (share_of value count) }
    ensures low { pos 0 ≤ℤ result }
    ensures high { result ≤ℤ pos 200000000000000000 }
{
    let loss = value.unsigned_abs();
    let count = count as u64;
    ((loss + (count - 1)) / count) as i64
}

/// Lowers the price of each item of a list by a share, and no other price. Prices are from -10,000,000,000,000 to 10,000,000,000,000, and so
/// they stay; the list rises and its items are there; the share is from 0 to 200,000,000,000,000,000.
pub fn lower_items(prices: &mut Seq<Price>, items: &[u32], share: i64)
    requires moderate { AllWithin most_price prices.old }
    requires rises { Rises items.now }
    requires items { AllBelow (length prices.old) items.now }
    requires low { pos 0 ≤ℤ share }
    requires high { share ≤ℤ pos 200000000000000000 }
    ensures len { length prices.new ≡ length prices.old }
    ensures lowered { (item : ℕ) → price_at prices.new item ≡ lowered_by items.now share prices.old item }
{
    for item in items {
        let place = *item as usize;
        let price = price_in(prices, place);
        prices.set(place, Price(price_less_share(price, share)));
    }
}

/// The price of an item.
fn price_in(prices: &Seq<Price>, item: usize) -> i64
    requires { item < length prices.now }
    ensures { result ≡ price_at prices.now item }
{
    prices.as_slice()[item].0
}

/// A price that is lowered by a share.
fn price_less_share(price: i64, share: i64) -> i64
    requires price_low { neg_ℤ (pos most_price) ≤ℤ price }
    requires price_high { price ≤ℤ pos most_price }
    requires low { pos 0 ≤ℤ share }
    requires high { share ≤ℤ pos 200000000000000000 }
    ensures { result ≡ clamped (price -ℤ share) }
{
    clamp(price - share)
}
