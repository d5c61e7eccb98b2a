//! The prices of the greatest bound so far.

ghost use Rattle.std.specs.Prelude.{◌≡◌, ◌≤◌, ◌<◌, ◌↔◌, [], ◌≤ℤ◌, pos, neg_ℤ, length, IfOk, OnErr, IsTrue};
ghost use Rattle.plan_core.specs.Limits.{most_items, most_price};
ghost use Rattle.cover_core.specs.Plans.{bound_of};
ghost use Rattle.cover_core.specs.FirstLeast.{AllWithin, class_prices_of};
ghost use Rattle.dual_bound.specs.Ranges.{AreAtLeast};

use crate::{bound, class_price};
use cover_core::Prices;
use plan_core::{Memory, Seq};
use std::alloc::Global;

/// Prices that were offered, with their class prices and their bound.
#[derive(Drop)]
pub struct Kept {
    /// The prices of the items, in thousandths of a cost unit.
    pub prices: Prices,
    /// The class prices, each at least 0, in thousandths of a cost unit.
    pub class_prices: Seq<i64>,
    /// Their bound, in cost units.
    pub bound: u64,
}

/// The class prices of least values.
fn class_prices_in(empty: Seq<i64>, least: &[i64]) -> Result<Seq<i64>, Memory>
    requires empty { empty ≡ [] }
    requires low { AreAtLeast (neg_ℤ (pos 1000000000000000000)) least.now }
    ensures { IfOk result (λ new. new ≡ class_prices_of least.now) }
{
    let mut new = empty;
    for value in least {
        new.push(class_price(*value))?;
    }
    Ok(new)
}

/// The class prices and the bound of an offer.
fn class_prices_and_bound(
    empty: Seq<i64>,
    prices: &Prices,
    least: &[i64],
    caps: &[u32],
) -> Result<(Seq<i64>, u64), Memory>
    requires empty { empty ≡ [] }
    requires few { length prices.now.items ≤ most_items }
    requires moderate { AllWithin most_price prices.now.items }
    requires classes { length caps.now ≤ 32 }
    requires one_each { length least.now ≡ length caps.now }
    requires low { AreAtLeast (neg_ℤ (pos 1000000000000000000)) least.now }
    ensures class_prices { IfOk result (λ offer. offer.0 ≡ class_prices_of least.now) }
    ensures bound { IfOk result (λ offer. offer.1 ≡ bound_of prices.now.items (class_prices_of least.now) caps.now) }
{
    let class_prices = class_prices_in(empty, least)?;
    let bound = bound(prices, class_prices.as_slice(), caps);
    Ok((class_prices, bound))
}

impl Kept {
    ghost use Rattle.dual_bound.specs.Offers.{offer_of, kept_after};

    /// The first offer. There are at most 3,000 prices from -10,000,000,000,000 to 10,000,000,000,000 and at most 32 classes, each with
    /// a least value of at least -1,000,000,000,000,000,000 and a cap. `Memory` is the only error.
    pub fn first(
        alloc: Global,
        prices: &Prices,
        least: &[i64],
        caps: &[u32],
    ) -> Result<Kept, Memory>
        requires few { length prices.now.items ≤ most_items }
        requires moderate { AllWithin most_price prices.now.items }
        requires classes { length caps.now ≤ 32 }
        requires one_each { length least.now ≡ length caps.now }
        requires low { AreAtLeast (neg_ℤ (pos 1000000000000000000)) least.now }
        ensures { IfOk result (λ kept. kept ≡ offer_of prices.now.items least.now caps.now) }
    {
        let items = Seq::new(alloc).with_items(prices.items.as_slice())?;
        let (class_prices, bound) = class_prices_and_bound(Seq::new(alloc), prices, least, caps)?;
        Ok(Kept {
            prices: Prices { items },
            class_prices,
            bound,
        })
    }

    /// One more offer, in the ranges of `first`. It is kept exactly where its bound is greater than that of the kept one, and then the
    /// answer is true; else nothing changes. After `Memory` nothing has changed.
    pub fn offer(&mut self, prices: &Prices, least: &[i64], caps: &[u32]) -> Result<bool, Memory>
        requires few { length prices.now.items ≤ most_items }
        requires moderate { AllWithin most_price prices.now.items }
        requires classes { length caps.now ≤ 32 }
        requires one_each { length least.now ≡ length caps.now }
        requires low { AreAtLeast (neg_ℤ (pos 1000000000000000000)) least.now }
        ensures greater { IfOk result (λ taken. IsTrue taken ↔ (self.old.bound < (offer_of prices.now.items least.now caps.now).bound)) }
        ensures kept { IfOk result (λ _. self.new ≡ kept_after self.old (offer_of prices.now.items least.now caps.now)) }
        ensures memory { OnErr result (self.new ≡ self.old) }
    {
        let empty = self.class_prices.with_items([].as_slice())?;
        let (class_prices, bound) = class_prices_and_bound(empty, prices, least, caps)?;
        if bound <= self.bound {
            return Ok(false);
        }
        let items = self.prices.items.with_items(prices.items.as_slice())?;
        *self = Kept {
            prices: Prices { items },
            class_prices,
            bound,
        };
        Ok(true)
    }
}
