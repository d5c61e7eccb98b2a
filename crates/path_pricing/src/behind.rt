//! What the continuations of a block add at least, point by point.

ghost use Rattle.std.specs.Prelude.{◌≡◌, ◌<◌, ◌≤◌, ◌+◌, ◌-◌, ◌*◌, ◌+ℤ◌, ◌-ℤ◌, ◌≤ℤ◌, neg_ℤ, pos, ℕ, ℤ, IfOk, Some, length, slice_get};
ghost use Rattle.plan_core.specs.Limits.{most_items, most_price};
ghost use Rattle.cover_core.specs.FirstLeast.{AllWithin};
ghost use Rattle.cover_core.specs.Plans.{number_at};
ghost use Rattle.plan_params.specs.Limits.{IsPool};
ghost use Rattle.day_model.specs.Begins.{AreBeginNumbers, AreDepartures, AreHeads, AreMinutes};
ghost use Rattle.path_pricing.specs.Blocks.{AreBoundsFrom, ClosesAbove, IsDeep, StepsAbove};
ghost use Rattle.path_pricing.specs.Points.{passed_value, stood_value};
ghost use Rattle.path_pricing.specs.Rows.{AreBelow, AreModerate, AreRows, IsModerate};

use crate::costs::{begin_of, charge, end_of, stand_rate};
use crate::firsts::next_from;
use crate::points::with_point;
use crate::rows::add_row;
use cover_core::price;
use day_model::Departures;
use depot_network::PoolNet;
use plan_core::{Memory, Price};
use plan_params::Pool;
use std::alloc::Global;

/// More than any list closes with.
pub(crate) const FAR: i64 = 100_000_000_000_000_000;

/// What the pull-in behind a trip adds.
pub(crate) fn with_pull_in(net: &PoolNet<'_>, class: u32, pool: &Pool, t: u32) -> i64
    requires there { slice_get net.now.day.params.pools class ≡ Some pool.now }
    requires ranges { IsPool pool.now }
    requires trip { t < length net.now.day.trips }
    ensures closes { ClosesAbove net.now.day net.now.counts pool.now t result }
    ensures deep { IsDeep (length net.now.day.trips) t result }
    ensures high { result ≤ℤ pos 100000000000000000 }
{
    match net.pull_in_value(class, pool, t) {
        None => FAR,
        Some(cost) => cost,
    }
}

/// A number, raised to what the prices of so many trips can take off.
fn least_payable(least: i64, trips: u32) -> i64
    requires { trips ≤ most_items }
    ensures low { neg_ℤ (pos (most_price * trips)) ≤ℤ result }
    ensures least { (x : ℤ) → least ≤ℤ x → neg_ℤ (pos (most_price * trips)) ≤ℤ x → result ≤ℤ x }
{
    let low = -10_000_000_000_000 * trips as i64;
    if least < low { low } else { least }
}

/// What the continuations behind a trip add at least, from what those behind later trips do: the rows have it for each point, over the trips
/// from each place on that begin there.
fn rest_behind(
    net: &PoolNet<'_>,
    class: u32,
    pool: &Pool,
    prices: &[Price],
    rests: &[i64],
    numbers: &[u32],
    firsts: &[u32],
    heads: &[u32],
    width: usize,
    stood: &[i64],
    passed: &[i64],
    t: u32,
) -> i64
    requires there { slice_get net.now.day.params.pools class ≡ Some pool.now }
    requires ranges { IsPool pool.now }
    requires moderate { AllWithin most_price prices.now }
    requires trip { t < length net.now.day.trips }
    requires deep { (u : ℕ) → t < u → IsDeep (length net.now.day.trips) u (number_at rests.now u) }
    requires numbers { AreBeginNumbers net.now.day.trips numbers.now }
    requires below { AreBelow width numbers.now (length net.now.day.trips) }
    requires count { length heads.now ≡ width }
    requires heads { AreHeads numbers.now heads.now 0 }
    requires firsts { AreMinutes net.now.day.trips 2881 firsts.now }
    requires stood_room { (length net.now.day.trips - t) * width ≤ length stood.now }
    requires stood_moderate { AreModerate stood.now }
    requires stood { AreRows (length net.now.day.trips) width (t + 1) numbers.now (stood_value net.now.day net.now.counts prices.now pool.now rests.now) stood.now }
    requires passed_room { (length net.now.day.trips - t) * width ≤ length passed.now }
    requires passed_moderate { AreModerate passed.now }
    requires passed { AreRows (length net.now.day.trips) width (t + 1) numbers.now (passed_value prices.now rests.now) passed.now }
    ensures closes { ClosesAbove net.now.day net.now.counts pool.now t result }
    ensures steps { StepsAbove net.now.day net.now.counts prices.now pool.now rests.now t (length net.now.day.trips) result }
    ensures deep { IsDeep (length net.now.day.trips) t result }
{
    let day = net.day();
    let count = day.trips().len() as u32;
    let place = next_from(day, firsts, t, end_of(day.trip(t)));
    let mut least = with_pull_in(net, class, pool, t);
    for number in 0..width {
        let head = heads[number];
        least = with_point(
            net, class, pool, firsts, stood, passed, width, number, head, t, place, least,
        );
    }
    least_payable(least, count - t)
}

/// So many equal numbers.
pub(crate) fn blank(alloc: Global, count: usize, value: i64) -> Result<Vec<i64>, Memory>
    ensures count { IfOk result (λ numbers. length numbers.items ≡ count) }
    ensures moderate { IsModerate value → IfOk result (λ numbers. AreModerate numbers.items) }
{
    let numbers = vec![in alloc; value; count]?;
    Ok(numbers)
}

/// What a trip and all behind it add at least: what the rest behind it adds, less the trip's price, in thousandths of a cost unit.
fn less_price(rest: i64, price: i64) -> i64
    requires rest_low { neg_ℤ (pos 30000000000000000) ≤ℤ rest }
    requires rest_high { rest ≤ℤ pos 100000000000000000 }
    requires price_low { neg_ℤ (pos most_price) ≤ℤ price }
    requires price_high { price ≤ℤ pos most_price }
    ensures value { result ≡ rest -ℤ price }
    ensures low { neg_ℤ (pos 30010000000000000) ≤ℤ result }
    ensures high { result ≤ℤ pos 100010000000000000 }
{
    rest - price
}

/// A number with a cost added, both in thousandths of a cost unit.
fn with_cost(number: i64, cost: i64) -> i64
    requires number_low { neg_ℤ (pos 30010000000000000) ≤ℤ number }
    requires number_high { number ≤ℤ pos 100010000000000000 }
    requires cost_low { pos 0 ≤ℤ cost }
    requires cost_high { cost ≤ℤ pos 3456000000000 }
    ensures value { result ≡ number +ℤ cost }
    ensures moderate { IsModerate result }
{
    number + cost
}

/// For each trip from one on what the continuations behind it add at least, point by point, where trips begin at no more than 500 points. It
/// takes memory and time with the product of the trips and of these points. `Memory` is the only error.
pub(crate) fn rests_by_points(
    alloc: Global,
    net: &PoolNet<'_>,
    class: u32,
    pool: &Pool,
    prices: &[Price],
    departures: Departures<'_>,
    from: u32,
) -> Result<Vec<i64>, Memory>
    requires there { slice_get net.now.day.params.pools class ≡ Some pool.now }
    requires ranges { IsPool pool.now }
    requires moderate { AllWithin most_price prices.now }
    requires departures { AreDepartures net.now.day.trips departures.numbers.now departures.firsts.now departures.nexts.now }
    requires few { length departures.firsts.now ≤ 500 }
    requires from { from ≤ length net.now.day.trips }
    ensures { IfOk result (λ rests. AreBoundsFrom net.now.day net.now.counts prices.now pool.now rests.items from) }
{
    let day = net.day();
    let count = day.trips().len();
    let numbers = departures.numbers;
    let heads = departures.firsts;
    let width = heads.len();
    let firsts = day.by_minute();
    let size = (count - from as usize + 1) * width;
    let mut rests = blank(alloc, count, 0)?;
    let mut stood = blank(alloc, size, FAR)?;
    let mut passed = blank(alloc, size, FAR)?;
    let mut base = 0;
    let mut t = count as u32;
    while t > from {
        t -= 1;
        let rest = rest_behind(
            net,
            class,
            pool,
            prices,
            rests.as_slice(),
            numbers,
            firsts,
            heads,
            width,
            stood.as_slice(),
            passed.as_slice(),
            t,
        );
        let trip = day.trip(t);
        let number = numbers[t as usize] as usize;
        let value = less_price(rest, price(prices, t));
        let until = charge(net.counts(), stand_rate(pool, trip), begin_of(trip));
        add_row(&mut stood, base, width, number, with_cost(value, until));
        add_row(&mut passed, base, width, number, value);
        rests[t as usize] = rest;
        base += width;
    }
    Ok(rests)
}
