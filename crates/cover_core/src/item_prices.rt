//! The prices of items, in thousandths of a cost unit.

ghost use Rattle.std.specs.Prelude.{◌≡◌, ◌<◌, ◌≤ℤ◌, neg_ℤ, pos, length};
ghost use Rattle.plan_core.specs.Limits.{most_price};
ghost use Rattle.cover_core.specs.FirstLeast.{AllWithin};
ghost use Rattle.cover_core.specs.Plans.{price_at};

use crate::Prices;
use plan_core::Price;

/// The price of an item, where no price is above 10,000,000,000,000 or below minus that.
pub fn price_at(prices: &Prices, item: usize) -> i64
    requires inside { item < length prices.now.items }
    requires moderate { AllWithin most_price prices.now.items }
    ensures value { result ≡ price_at prices.now.items item }
    ensures low { neg_ℤ (pos most_price) ≤ℤ result }
    ensures high { result ≤ℤ pos most_price }
{
    prices.items.as_slice()[item].0
}

/// The price of an item, 0 where there is none, where no price is above 10,000,000,000,000 or below minus that.
pub fn price(prices: &[Price], item: u32) -> i64
    requires { AllWithin most_price prices.now }
    ensures value { result ≡ price_at prices.now item }
    ensures low { neg_ℤ (pos most_price) ≤ℤ result }
    ensures high { result ≤ℤ pos most_price }
{
    if (item as usize) < prices.len() {
        prices[item as usize].0
    } else {
        0
    }
}

/// The price of an item, 0 where there is none, whatever the prices are.
pub fn price_or_zero(prices: &[Price], item: u32) -> i64
    ensures { result ≡ price_at prices.now item }
{
    if (item as usize) < prices.len() {
        prices[item as usize].0
    } else {
        0
    }
}
