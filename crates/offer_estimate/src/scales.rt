//! Scales, and prices at a scale.

ghost use Rattle.std.specs.Prelude.{◌≡◌, ◌<◌, ◌≤◌, ◌≤ℤ◌, ◌*ℤ◌, pos, neg_ℤ, length, IfOk};
ghost use Rattle.plan_core.specs.Limits.{most_price};
ghost use Rattle.cover_core.specs.FirstLeast.{AllWithin};
ghost use Rattle.cover_core.specs.Plans.{price_at};
ghost use Rattle.cover_master.specs.Method.{clamped};
ghost use Rattle.offer_estimate.specs.Scales.{IsScale};
ghost use Rattle.offer_estimate.specs.Estimates.{scaled_price, scaled_prices};

use cover_core::{Prices, price_at};
use plan_core::{Memory, Price, Seq};
use std::alloc::Global;

/// A part of a whole, by which prices are scaled.
#[derive(Clone, Copy)]
pub struct Scale {
    /// The part, from 1 to 4,000,000,000,000.
    pub part: i64,
    /// The whole, at least the part, and at most 40,000,000,000,000,000.
    pub whole: i64,
}

/// A price times a part.
fn partial(part: i64, price: i128) -> i128
    requires low { neg_ℤ (pos most_price) ≤ℤ price }
    requires high { price ≤ℤ pos most_price }
    requires part_low { pos 1 ≤ℤ part }
    requires part_high { part ≤ℤ pos 4000000000000 }
    ensures value { result ≡ price *ℤ part }
    ensures low { neg_ℤ (pos 40000000000000000000000000) ≤ℤ result }
    ensures high { result ≤ℤ pos 50000000000000000000000000 }
{
    price * part as i128
}

/// A price at a scale, rounded down.
fn price_scaled(price: i64, part: i64, whole: i64) -> i64
    requires low { neg_ℤ (pos most_price) ≤ℤ price }
    requires high { price ≤ℤ pos most_price }
    requires part_low { pos 1 ≤ℤ part }
    requires part_high { part ≤ℤ pos 4000000000000 }
    requires whole { pos 1 ≤ℤ whole }
    ensures value { result ≡ scaled_price part whole price }
    ensures low { neg_ℤ (pos most_price) ≤ℤ result }
    ensures high { result ≤ℤ pos most_price }
{
    clamp(partial(part, price as i128).div_euclid(whole as i128))
}

/// A price kept in its range.
fn clamp(price: i128) -> i64
    ensures value { result ≡ clamped price }
    ensures low { neg_ℤ (pos most_price) ≤ℤ result }
    ensures high { result ≤ℤ pos most_price }
{
    if 10000000000000 < price {
        10000000000000
    } else if price < -10000000000000 {
        -10000000000000
    } else {
        price as i64
    }
}

/// Prices at a scale: each times the part, divided by the whole and rounded down. Prices are from -10,000,000,000,000 to
/// 10,000,000,000,000, and so they stay.
///
/// # Errors
///
/// [`Memory`] where it is refused.
pub fn scaled(alloc: Global, prices: &Prices, scale: Scale) -> Result<Prices, Memory>
    requires moderate { AllWithin most_price prices.now.items }
    requires scale { IsScale scale }
    ensures scaled { IfOk result (λ new. new.items ≡ scaled_prices scale prices.now.items) }
    ensures moderate { IfOk result (λ new. AllWithin most_price new.items) }
    ensures len { IfOk result (λ new. length new.items ≡ length prices.now.items) }
{
    let mut items = Seq::new(alloc);
    for item in 0..prices.items.len() {
        let price = price_at(prices, item);
        items.push(Price(price_scaled(price, scale.part, scale.whole)))?;
    }
    Ok(Prices { items })
}
