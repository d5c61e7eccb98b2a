//! Dual bounds: the lower bound that prices give (weak duality), and the prices of the greatest bound so far.
//!
//! Prices say what a plan would pay for each item, class prices what it would pay for each place of a class. The *bound* is the sum of
//! the prices less the sum of each cap times its class price. Where prices are paid (no list is worth less than its prices less its
//! class price) no plan costs less: weak duality, which `cover_core` proves. All sums here are made in 128 bits.
#![tactic(auto)]

ghost use Rattle.std.specs.Prelude.{◌≡◌, ◌≤◌, ◌<◌, ◌≤ℤ◌, ◌<ℤ◌, ◌-ℤ◌, ◌*ℤ◌, pos, neg_ℤ, length};
ghost use Rattle.plan_core.specs.Limits.{most_items, most_kept_price};
ghost use Rattle.cover_core.specs.Plans.{thousandth, all_prices, rent, bound_of};
ghost use Rattle.cover_core.specs.FirstLeast.{AllWithin, class_price_of};
ghost use Rattle.dual_bound.specs.Ranges.{AreAtLeast};

mod kept;

use cover_core::Prices;
pub use kept::Kept;

/// What a class pays for each of its places, in thousandths of a cost unit: minus its least value, and at least 0. The least value is
/// at least -1,000,000,000,000,000,000.
pub fn class_price(least: i64) -> i64
    requires { neg_ℤ (pos 1000000000000000000) ≤ℤ least }
    ensures { result ≡ class_price_of least }
{
    if least < 0 { -least } else { 0 }
}

/// The bound of prices and class prices, in cost units: the sum of prices less the sum of cap times class price, divided by 1,000,
/// rounded up, and at least 0. There are at most 3,000 prices from -3,000,000,000,000,000 to 3,000,000,000,000,000 and at most 32
/// classes, each with a class price of at least 0 and a cap.
pub fn bound(prices: &Prices, class_prices: &[i64], caps: &[u32]) -> u64
    requires few { length prices.now.items ≤ most_items }
    requires moderate { AllWithin most_kept_price prices.now.items }
    requires classes { length caps.now ≤ 32 }
    requires one_each { length class_prices.now ≡ length caps.now }
    requires charged { AreAtLeast (pos 0) class_prices.now }
    ensures { result ≡ bound_of prices.now.items class_prices.now caps.now }
{
    thousandth_up(total(prices) - all_rent(class_prices, caps))
}

/// The sum of all prices.
fn total(prices: &Prices) -> i128
    requires few { length prices.now.items ≤ most_items }
    requires moderate { AllWithin most_kept_price prices.now.items }
    ensures sum { result ≡ all_prices prices.now.items }
    ensures low { neg_ℤ (pos 9000000000000000000) ≤ℤ result }
    ensures high { result ≤ℤ pos 9000000000000000000 }
{
    let mut sum: i128 = 0;
    for price in prices.items.as_slice() {
        sum += price.0 as i128;
    }
    sum
}

/// The rent of all classes.
fn all_rent(class_prices: &[i64], caps: &[u32]) -> i128
    requires classes { length caps.now ≤ 32 }
    requires one_each { length class_prices.now ≡ length caps.now }
    requires charged { AreAtLeast (pos 0) class_prices.now }
    ensures sum { result ≡ rent caps.now class_prices.now }
    ensures low { pos 0 ≤ℤ result }
    ensures high { result ≤ℤ pos 1267650600228229401496703205376 }
{
    let mut sum: i128 = 0;
    for (class, cap) in caps.iter().enumerate() {
        sum += class_rent(*cap, class_prices[class]);
    }
    sum
}

/// The rent of one class.
fn class_rent(cap: u32, class_price: i64) -> i128
    requires { pos 0 ≤ℤ class_price }
    ensures value { result ≡ pos cap *ℤ class_price }
    ensures low { pos 0 ≤ℤ result }
    ensures high { result ≤ℤ pos 39614081257132168796771975168 }
{
    cap as i128 * class_price as i128
}

/// A thousandth, rounded up, and at least 0.
fn thousandth_up(total: i128) -> u64
    requires low { neg_ℤ (pos 2000000000000000000000000000000) ≤ℤ total }
    requires high { total ≤ℤ pos 10000000000000000000 }
    ensures { result ≡ thousandth total }
{
    if total <= 0 {
        0
    } else {
        ((total + 999) / 1000) as u64
    }
}
