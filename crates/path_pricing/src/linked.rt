//! What the continuations of a block add at least, connection by connection: for days whose trips begin at too many points for rows of
//! points.

ghost use Rattle.std.specs.Prelude.{◌≡◌, ◌<◌, ◌≤◌, ◌+◌, ◌-◌, ◌*◌, ◌+ℤ◌, ◌-ℤ◌, ◌≤ℤ◌, neg_ℤ, pos, ℕ, ℤ, IfOk, Some, length, slice_get};
ghost use Rattle.plan_core.specs.Limits.{most_items, most_price};
ghost use Rattle.cover_core.specs.FirstLeast.{AllWithin};
ghost use Rattle.cover_core.specs.Plans.{number_at, price_at};
ghost use Rattle.plan_params.specs.Limits.{IsPool};
ghost use Rattle.depot_network.specs.Open.{scaled};
ghost use Rattle.depot_network.specs.Walk.{added};
ghost use Rattle.path_pricing.specs.Blocks.{AreBoundsFrom, ClosesAbove, IsDeep, StepsAbove};
ghost use Rattle.path_pricing.specs.Lows.{AreLows};

use crate::behind::{FAR, blank, with_pull_in};
use crate::rows::lower;
use cover_core::price;
use depot_network::PoolNet;
use label_search::rest;
use plan_core::{Memory, Price};
use plan_params::Pool;
use std::alloc::Global;

/// What a connection adds, with the rest behind it.
fn sum_over(cost: i64, price: i64, rest: i64) -> i64
    requires cost_low { pos 0 ≤ℤ cost }
    requires cost_high { cost ≤ℤ pos 3456000000000 }
    requires price_low { neg_ℤ (pos most_price) ≤ℤ price }
    requires price_high { price ≤ℤ pos most_price }
    requires rest_low { neg_ℤ (pos 30000000000000000) ≤ℤ rest }
    requires rest_high { rest ≤ℤ pos 100000000000000000 }
    ensures { result ≡ cost -ℤ price +ℤ rest }
{
    cost - price + rest
}

/// The lower of a number and of a rest less a price.
fn low_with(low: i64, rest: i64, price: i64) -> i64
    requires rest_low { neg_ℤ (pos 30000000000000000) ≤ℤ rest }
    requires rest_high { rest ≤ℤ pos 100000000000000000 }
    requires price_low { neg_ℤ (pos most_price) ≤ℤ price }
    requires price_high { price ≤ℤ pos most_price }
    ensures first { result ≤ℤ low }
    ensures second { result ≤ℤ (rest -ℤ price) }
{
    lower(low, rest - price)
}

/// What is known so far of the rest behind a trip, with a further trip looked at.
fn with_link(
    net: &PoolNet<'_>,
    class: u32,
    pool: &Pool,
    prices: &[Price],
    rests: &[i64],
    t: u32,
    u: u32,
    least: i64,
) -> i64
    requires there { slice_get net.now.day.params.pools class ≡ Some pool.now }
    requires ranges { IsPool pool.now }
    requires moderate { AllWithin most_price prices.now }
    requires trip { t < length net.now.day.trips }
    requires next { u < length net.now.day.trips }
    requires later { t < u }
    requires few { length net.now.day.trips ≤ most_items }
    requires deep { IsDeep (length net.now.day.trips) u (number_at rests.now u) }
    requires least_deep { IsDeep (length net.now.day.trips) t least }
    ensures least { result ≤ℤ least }
    ensures step { (cost : ℕ) → added net.now.day pool.now t u ≡ Some cost → result ≤ℤ (scaled net.now.counts cost -ℤ price_at prices.now u +ℤ number_at rests.now u) }
    ensures deep { IsDeep (length net.now.day.trips) t result }
{
    match net.link_value(class, pool, t, u) {
        None => least,
        Some(cost) => lower(least, sum_over(cost, price(prices, u), rest(rests, u))),
    }
}

/// The number of a trip.
fn number(numbers: &[i64], t: u32) -> i64
    requires { t < length numbers.now }
    ensures { result ≡ number_at numbers.now t }
{
    numbers[t as usize]
}

/// What the continuations behind a trip add at least, from what those behind later trips do. `lows` has for each later trip a number that
/// neither its rest less its price nor that of a trip behind it is below: no connection adds less than nothing, so once that number is no
/// lower than what is known, the trips from there on need no look.
fn rest_behind(
    net: &PoolNet<'_>,
    class: u32,
    pool: &Pool,
    prices: &[Price],
    rests: &[i64],
    lows: &[i64],
    t: u32,
) -> i64
    requires there { slice_get net.now.day.params.pools class ≡ Some pool.now }
    requires ranges { IsPool pool.now }
    requires moderate { AllWithin most_price prices.now }
    requires trip { t < length net.now.day.trips }
    requires few { length net.now.day.trips ≤ most_items }
    requires deep { (u : ℕ) → t < u → IsDeep (length net.now.day.trips) u (number_at rests.now u) }
    requires count { length lows.now ≡ length net.now.day.trips }
    requires lows { AreLows prices.now rests.now lows.now (t + 1) (length net.now.day.trips) }
    ensures closes { ClosesAbove net.now.day net.now.counts pool.now t result }
    ensures steps { StepsAbove net.now.day net.now.counts prices.now pool.now rests.now t (length net.now.day.trips) result }
    ensures deep { IsDeep (length net.now.day.trips) t result }
{
    let count = net.day().trips().len() as u32;
    let mut least = with_pull_in(net, class, pool, t);
    for u in t + 1..count {
        if least <= number(lows, u) {
            return least;
        }
        least = with_link(net, class, pool, prices, rests, t, u, least);
    }
    least
}

/// The same as point by point. Time is at most in the order of the square of the trips; for each trip the later ones are looked at as far as
/// one of them may still lower what was found. It takes memory with the trips. `Memory` is the only error.
pub(crate) fn rests_by_links(
    alloc: Global,
    net: &PoolNet<'_>,
    class: u32,
    pool: &Pool,
    prices: &[Price],
    from: u32,
) -> Result<Vec<i64>, Memory>
    requires there { slice_get net.now.day.params.pools class ≡ Some pool.now }
    requires ranges { IsPool pool.now }
    requires moderate { AllWithin most_price prices.now }
    requires from { from ≤ length net.now.day.trips }
    ensures { IfOk result (λ rests. AreBoundsFrom net.now.day net.now.counts prices.now pool.now rests.items from) }
{
    let count = net.day().trips().len();
    let mut rests = blank(alloc, count, 0)?;
    let mut lows = blank(alloc, count, 0)?;
    let mut low = FAR;
    let mut t = count as u32;
    while t > from {
        t -= 1;
        let rest = rest_behind(
            net,
            class,
            pool,
            prices,
            rests.as_slice(),
            lows.as_slice(),
            t,
        );
        low = low_with(low, rest, price(prices, t));
        rests[t as usize] = rest;
        lows[t as usize] = low;
    }
    Ok(rests)
}
