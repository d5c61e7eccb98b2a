//! The steps from an open block to a longer one.

ghost use Rattle.std.specs.Prelude.{◌≡◌, ◌<◌, ◌≤◌, ◌≤ℤ◌, ◌-ℤ◌, ◌+ℤ◌, neg_ℤ, pos, IfSome, Some, length, slice_get};
ghost use Rattle.plan_core.specs.Limits.{most_price};
ghost use Rattle.cover_core.specs.FirstLeast.{AllWithin};
ghost use Rattle.plan_params.specs.Limits.{IsPool};
ghost use Rattle.std.specs.Option.{option_map};
ghost use Rattle.depot_network.specs.Walk.{added, ended};
ghost use Rattle.depot_network.specs.Open.{OpenFits, closed_open, extended_open, first_open, first_scaled, scaled};

use crate::cost::{first_step, last_step, next_step};
use crate::network::PoolNet;
use crate::open::OpenBlock;
use crate::rates::{cost_of_following, cost_of_pull_in};
use cover_core::price;
use plan_core::Price;
use plan_params::Pool;

/// What a cost adds to a value: a thousand times it, or nothing where blocks are counted.
fn scale(counts: bool, cost: u64) -> i64
    requires { cost ≤ 3456000000 }
    ensures value { result ≡ scaled counts cost }
    ensures low { pos 0 ≤ℤ result }
    ensures high { result ≤ℤ pos 3456000000000 }
{
    if counts { 0 } else { 1000 * cost as i64 }
}

/// The same at a first trip: where blocks are counted each is worth 1.
fn scale_first(counts: bool, cost: u64) -> i64
    requires { cost ≤ 3456000000 }
    ensures value { result ≡ first_scaled counts cost }
    ensures low { pos 0 ≤ℤ result }
    ensures high { result ≤ℤ pos 3456000000000 }
{
    if counts { 1000 } else { 1000 * cost as i64 }
}

/// A value with something more.
fn more(value: i64, cost: i64) -> i64
    requires value_low { neg_ℤ (pos 100000000000000000) ≤ℤ value }
    requires value_high { value ≤ℤ pos 100000000000000000 }
    requires cost_low { neg_ℤ (pos most_price) ≤ℤ cost }
    requires cost_high { cost ≤ℤ pos most_price }
    ensures { result ≡ value +ℤ cost }
{
    value + cost
}

/// A value less a price.
fn less(value: i64, price: i64) -> i64
    requires value_low { neg_ℤ (pos 200000000000000000) ≤ℤ value }
    requires value_high { value ≤ℤ pos 200000000000000000 }
    requires price_low { neg_ℤ (pos most_price) ≤ℤ price }
    requires price_high { price ≤ℤ pos most_price }
    ensures { result ≡ value -ℤ price }
{
    value - price
}

impl PoolNet<'_> {
    /// The open block of a first trip, if it may begin a block of the pool.
    pub fn first_open(
        &self,
        class: u32,
        pool: &Pool,
        prices: &[Price],
        item: u32,
    ) -> Option<OpenBlock>
        requires pool { slice_get self.now.day.params.pools class ≡ Some pool.now }
        requires ranges { IsPool pool.now }
        requires moderate { AllWithin most_price prices.now }
        requires item { item < length self.now.day.trips }
        ensures { result ≡ first_open self.now.day self.now.counts prices.now pool.now item }
    {
        match first_step(self.day(), class, pool, item) {
            None => None,
            Some(step) => Some(OpenBlock {
                trip: item,
                driving: step.driving,
                value: less(scale_first(self.counts(), step.cost), price(prices, item)),
            }),
        }
    }

    /// An open block of the pool with a trip more, if that may follow.
    pub fn next_open(
        &self,
        class: u32,
        pool: &Pool,
        prices: &[Price],
        block: &OpenBlock,
        item: u32,
    ) -> Option<OpenBlock>
        requires pool { slice_get self.now.day.params.pools class ≡ Some pool.now }
        requires ranges { IsPool pool.now }
        requires moderate { AllWithin most_price prices.now }
        requires fits { OpenFits (length self.now.day.trips) block.now }
        requires item { item < length self.now.day.trips }
        ensures { result ≡ extended_open self.now.day self.now.counts prices.now pool.now block.now item }
    {
        // Trips are few: the day says so.
        let _ = self.day().trips();
        match next_step(self.day(), class, pool, block.driving, block.trip, item) {
            None => None,
            Some(step) => Some(OpenBlock {
                trip: item,
                driving: step.driving,
                value: less(
                    more(block.value, scale(self.counts(), step.cost)),
                    price(prices, item),
                ),
            }),
        }
    }

    /// The value of an open block of the pool that is driven in, if it may end.
    pub fn close_open(&self, class: u32, pool: &Pool, block: &OpenBlock) -> Option<i64>
        requires pool { slice_get self.now.day.params.pools class ≡ Some pool.now }
        requires ranges { IsPool pool.now }
        requires fits { OpenFits (length self.now.day.trips) block.now }
        ensures { result ≡ closed_open self.now.day self.now.counts pool.now block.now }
    {
        // Trips are few: the day says so.
        let _ = self.day().trips();
        match last_step(self.day(), class, pool, block.driving, block.trip) {
            None => None,
            Some(cost) => Some(more(block.value, scale(self.counts(), cost))),
        }
    }

    /// What a connection of the pool to a later trip adds to a value, if there is one and the trip is admitted.
    pub fn link_value(&self, class: u32, pool: &Pool, t: u32, u: u32) -> Option<i64>
        requires pool { slice_get self.now.day.params.pools class ≡ Some pool.now }
        requires ranges { IsPool pool.now }
        requires trip { t < length self.now.day.trips }
        requires next { u < length self.now.day.trips }
        ensures value { result ≡ option_map (scaled self.now.counts) (added self.now.day pool.now t u) }
        ensures low { IfSome result (λ value. pos 0 ≤ℤ value) }
        ensures high { IfSome result (λ value. value ≤ℤ pos 3456000000000) }
    {
        match cost_of_following(self.day(), class, pool, t, u) {
            None => None,
            Some(cost) => Some(scale(self.counts(), cost)),
        }
    }

    /// What the pull-in of the pool adds to a value, if there is one.
    pub fn pull_in_value(&self, class: u32, pool: &Pool, t: u32) -> Option<i64>
        requires pool { slice_get self.now.day.params.pools class ≡ Some pool.now }
        requires ranges { IsPool pool.now }
        requires trip { t < length self.now.day.trips }
        ensures value { result ≡ option_map (scaled self.now.counts) (ended self.now.day pool.now t) }
        ensures low { IfSome result (λ value. pos 0 ≤ℤ value) }
        ensures high { IfSome result (λ value. value ≤ℤ pos 3456000000000) }
    {
        match cost_of_pull_in(self.day(), class, pool, t) {
            None => None,
            Some(cost) => Some(scale(self.counts(), cost)),
        }
    }
}
