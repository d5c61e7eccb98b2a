//! What the items after each item can take off a value at most.
#![tactic(auto)]

ghost use Rattle.std.specs.Prelude.{◌≡◌, ◌<◌, ◌≤◌, length, IfOk, OnOk, ◌++◌, [], ◌∷◌};
ghost use Rattle.plan_core.specs.Limits.{most_items, most_price};
ghost use Rattle.cover_core.specs.FirstLeast.{AllWithin};
ghost use Rattle.cover_core.specs.Plans.{number_at, price_at};
ghost use Rattle.label_search.specs.Rests.{gain_of, rests_of};

use plan_core::{Memory, Price};
use std::alloc::Global;

/// What the items after each item can take off a value at most: minus the sum of their prices above 0. It is the simplest completion
/// bound: there are at most 3,000 prices from -10,000,000,000,000 to 10,000,000,000,000. `Memory` is the only error.
pub fn rests(alloc: Global, prices: &[Price]) -> Result<Vec<i64>, Memory>
    requires few { length prices.now ≤ most_items }
    requires moderate { AllWithin most_price prices.now }
    ensures { IfOk result (λ rests. rests.items ≡ rests_of prices.now) }
{
    let mut rests = Vec::new(alloc);
    let mut sum = 0;
    let mut place = prices.len();
    while place > 0 {
        place -= 1;
        push_number(&mut rests, sum)?;
        sum -= gain(price(prices, place));
    }
    rests.reverse();
    Ok(rests)
}

/// What the items after an item can take off a value at most, 0 where there is none: a completion bound is the value and this.
pub fn rest(rests: &[i64], item: u32) -> i64
    ensures { result ≡ number_at rests.now item }
{
    if (item as usize) < rests.len() {
        rests[item as usize]
    } else {
        0
    }
}

/// The price of an item.
fn price(prices: &[Price], place: usize) -> i64
    requires { place < length prices.now }
    ensures { result ≡ price_at prices.now place }
{
    prices[place].0
}

/// A price, where it is above 0.
fn gain(price: i64) -> i64
    ensures { result ≡ gain_of price }
{
    if price > 0 { price } else { 0 }
}

/// Puts a number last.
fn push_number(numbers: &mut Vec<i64>, number: i64) -> Result<(), Memory>
    ensures { OnOk result (numbers.new.items ≡ numbers.old.items ++ number ∷ []) }
{
    match numbers.push(number) {
        Ok(()) => Ok(()),
        Err(_) => Err(Memory),
    }
}
