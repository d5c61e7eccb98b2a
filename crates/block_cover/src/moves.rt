//! What trips, connections and pull-ins add to a block's driving and value, in numbers that are wide enough for every mark.
#![tactic(auto)]

ghost use Rattle.std.specs.Prelude.{◌≡◌, ◌<◌, ◌≤◌, ◌+◌, ◌*◌, ◌≤ℤ◌, ◌-ℤ◌, ◌+ℤ◌, neg_ℤ, pos, true, IfSome, Some, length, slice_get};
ghost use Rattle.std.specs.Option.{option_map};
ghost use Rattle.cover_core.specs.Plans.{price_at};
ghost use Rattle.plan_params.specs.Limits.{IsPool};
ghost use Rattle.day_model.specs.Links.{admits_at, link_at, pull_in_at};
ghost use Rattle.day_model.specs.Ranges.{IsDaily, IsShort};
ghost use Rattle.depot_network.specs.BlockMarks as rules;
ghost use Rattle.depot_network.specs.Driving as driving;
ghost use Rattle.depot_network.specs.Open.{first_scaled, scaled};
ghost use Rattle.block_cover.specs.Seen.{seen_mark};

use crate::made::OpenMark;
use cover_core::{BlockMark, price_or_zero};
use day_model::{Day, Link};
use depot_network::{cost_at_rate, link_cost};
use plan_core::{Point, Price};
use plan_params::Pool;
use trip_times::Trip;

/// The greatest driving of a piece in seconds: four and a half hours, after which a driver has a break (Regulation (EC) 561/2006, article 7).
const LONGEST_DRIVING: u64 = 16_200;

/// What a pull-out to a first trip costs, with the fixed cost.
fn first_cost(pool: &Pool, out: u32) -> u64
    requires pool { IsPool pool.now }
    requires out { out ≤ 172800 }
    ensures value { result ≡ pool.now.fixed + pool.now.dead_rate * out }
    ensures bound { result ≤ 6912000000 }
{
    u64::from(pool.fixed) + cost_at_rate(pool.dead_rate, out)
}

/// What a pull-in costs.
fn last_cost(pool: &Pool, inward: u32) -> u64
    requires pool { IsPool pool.now }
    requires inward { inward ≤ 172800 }
    ensures value { result ≡ pool.now.dead_rate * inward }
    ensures bound { result ≤ 6912000000 }
{
    cost_at_rate(pool.dead_rate, inward)
}

/// What a cost adds to a value: a thousand times it, or nothing where blocks are counted.
fn scale(counts: bool, cost: u64) -> i128
    requires { cost ≤ 6912000000 }
    ensures value { result ≡ scaled counts cost }
    ensures low { pos 0 ≤ℤ result }
    ensures high { result ≤ℤ pos 6912000000000 }
{
    if counts { 0 } else { 1000 * cost as i128 }
}

/// The same at a first trip: where blocks are counted each is worth 1.
fn scale_first(counts: bool, cost: u64) -> i128
    requires { cost ≤ 6912000000 }
    ensures value { result ≡ first_scaled counts cost }
    ensures low { pos 0 ≤ℤ result }
    ensures high { result ≤ℤ pos 6912000000000 }
{
    if counts { 1000 } else { 1000 * cost as i128 }
}

/// A value less a price.
fn less(value: i128, price: i64) -> i128
    requires low { neg_ℤ (pos 1000000000000000000000) ≤ℤ value }
    requires high { value ≤ℤ pos 1000000000000000000000 }
    ensures { result ≡ value -ℤ price }
{
    value - price as i128
}

/// The value of a first trip.
fn first_value(counts: bool, cost: u64, prices: &[Price], item: u32) -> i128
    requires { cost ≤ 6912000000 }
    ensures { result ≡ first_scaled counts cost -ℤ price_at prices.now item }
{
    let begun = scale_first(counts, cost);
    less(begun, price_or_zero(prices, item))
}

/// A value with a cost more.
fn with_cost(value: i64, counts: bool, cost: u64) -> i128
    requires { cost ≤ 6912000000 }
    ensures value { result ≡ value +ℤ scaled counts cost }
    ensures low { value ≤ℤ result }
    ensures high { result ≤ℤ (value +ℤ pos 6912000000000) }
{
    let added = scale(counts, cost);
    value as i128 + added
}

/// A value with a trip more, whose connection has a cost.
fn next_value(value: i64, counts: bool, cost: u64, prices: &[Price], item: u32) -> i128
    requires { cost ≤ 6912000000 }
    ensures { result ≡ value +ℤ scaled counts cost -ℤ price_at prices.now item }
{
    let total = with_cost(value, counts, cost);
    less(total, price_or_zero(prices, item))
}

/// How long a trip is driven.
fn trip_seconds(trip: &Trip) -> u64
    requires { IsDaily trip.now }
    ensures value { result ≡ driving.trip_seconds trip.now }
    ensures bound { result ≤ 172800 }
{
    (trip.end.0 - trip.begin.0).unsigned_abs()
}

/// Whether a stand at a point is a cut.
fn is_cut(day: &Day, pool: &Pool, at: Point, stand: u32) -> bool
    ensures { result ≡ driving.is_cut_at day.now pool.now at stand }
{
    stand >= 1
        && (stand >= day.params().settings().handover
            && (day.params().relief(at) || at == pool.depot))
}

/// An open block whose driving keeps the limit.
fn mark_within_limit(made: OpenMark) -> Option<OpenMark>
    ensures { option_map seen_mark result ≡ rules.kept (seen_mark made) }
{
    if made.driving <= LONGEST_DRIVING {
        Some(made)
    } else {
        None
    }
}

/// An open block behind a stand, from the driving before the stand, that behind it with the trip, and the value: a cut ends the first part.
fn driven_on(
    cut: bool,
    first: u64,
    second: u64,
    class: u32,
    value: i128,
    trip: u32,
) -> Option<OpenMark>
    requires first { first ≤ 8589934592 }
    requires second { second ≤ 8589934592 }
    ensures { option_map seen_mark result ≡ rules.driven_on cut first second class value trip }
{
    if !cut {
        return mark_within_limit(OpenMark {
            class,
            trip,
            driving: first + second,
            value,
        });
    }
    if first <= LONGEST_DRIVING {
        mark_within_limit(OpenMark {
            class,
            trip,
            driving: second,
            value,
        })
    } else {
        None
    }
}

/// An open block with a trip more, over a connection.
fn extended_over(
    day: &Day,
    counts: bool,
    prices: &[Price],
    pool: &Pool,
    mark: &BlockMark,
    item: u32,
    next: &Trip,
    link: Link,
) -> Option<OpenMark>
    requires pool { IsPool pool.now }
    requires short { IsShort link }
    requires next { IsDaily next.now }
    ensures { option_map seen_mark result ≡ rules.extended_over day.now counts prices.now pool.now mark.now item next.now link }
{
    let cost = link_cost(pool, next, link);
    let value = next_value(mark.value, counts, cost, prices, item);
    let so_far = u64::from(mark.driving);
    let seconds = trip_seconds(next);
    match link {
        Link::Direct { dead, stand } => {
            let cut = is_cut(day, pool, next.from, stand);
            let first = so_far + u64::from(dead);
            driven_on(cut, first, 0 + seconds, mark.class, value, item)
        }
        Link::Depot {
            inward,
            outward,
            stand,
        } => {
            let cut = is_cut(day, pool, pool.depot, stand);
            let first = so_far + u64::from(inward);
            let second = u64::from(outward) + seconds;
            driven_on(cut, first, second, mark.class, value, item)
        }
    }
}

/// The open block of a first trip, if it may begin a block of the class.
pub(crate) fn first_made(
    day: &Day,
    counts: bool,
    prices: &[Price],
    class: u32,
    item: u32,
) -> Option<OpenMark>
    requires class { class < length day.now.params.pools }
    requires item { item < length day.now.trips }
    ensures { option_map seen_mark result ≡ rules.first_mark day.now counts prices.now class item }
{
    let pool = &day.params().pools()[class as usize];
    let trip = day.trip(item);
    if !day.admits(class, item) {
        return None;
    }
    let out = day.pull_out(class, item)?;
    let cost = first_cost(pool, out);
    mark_within_limit(OpenMark {
        class,
        trip: item,
        driving: u64::from(out) + trip_seconds(trip),
        value: first_value(counts, cost, prices, item),
    })
}

/// The open block of a mark with a later trip more, which is admitted, over the connection to it.
fn linked_made(
    day: &Day,
    counts: bool,
    prices: &[Price],
    pool: &Pool,
    mark: &BlockMark,
    item: u32,
    next: &Trip,
    link: Link,
) -> Option<OpenMark>
    requires there { slice_get day.now.params.pools mark.now.class ≡ Some pool.now }
    requires pool { IsPool pool.now }
    requires short { IsShort link }
    requires next { slice_get day.now.trips item ≡ Some next.now }
    requires daily { IsDaily next.now }
    requires later { mark.now.trip < item }
    requires admitted { admits_at day.now mark.now.class item ≡ true }
    requires linked { Some link ≡ link_at day.now mark.now.class mark.now.trip item }
    ensures { option_map seen_mark result ≡ rules.extended_mark day.now counts prices.now mark.now item }
{
    extended_over(day, counts, prices, pool, mark, item, next, link)
}

/// The open block of a mark with a later trip more, if that may follow.
pub(crate) fn next_made(
    day: &Day,
    counts: bool,
    prices: &[Price],
    mark: &BlockMark,
    item: u32,
) -> Option<OpenMark>
    requires class { mark.now.class < length day.now.params.pools }
    requires trip { mark.now.trip < length day.now.trips }
    requires item { item < length day.now.trips }
    ensures { option_map seen_mark result ≡ rules.extended_mark day.now counts prices.now mark.now item }
{
    let pool = &day.params().pools()[mark.class as usize];
    // Trips are daily: the day says so.
    let _ = day.trip(mark.trip);
    let next = day.trip(item);
    if item <= mark.trip || !day.admits(mark.class, item) {
        return None;
    }
    let link = day.connect(mark.class, mark.trip, item)?;
    linked_made(day, counts, prices, pool, mark, item, next, link)
}

/// The value of a mark's block with its pull-in, if it can be driven.
fn driven_in(day: &Day, counts: bool, pool: &Pool, mark: &BlockMark, inward: u32) -> Option<i128>
    requires there { slice_get day.now.params.pools mark.now.class ≡ Some pool.now }
    requires pool { IsPool pool.now }
    requires short { inward ≤ 172800 }
    requires pulled { Some inward ≡ pull_in_at day.now mark.now.class mark.now.trip }
    ensures value { result ≡ rules.closed_value day.now counts mark.now }
    ensures low { IfSome result (λ value. mark.now.value ≤ℤ value) }
    ensures high { IfSome result (λ value. value ≤ℤ (mark.now.value +ℤ pos 6912000000000)) }
{
    let so_far = u64::from(mark.driving);
    let more = u64::from(inward);
    if so_far + more <= LONGEST_DRIVING {
        let cost = last_cost(pool, inward);
        Some(with_cost(mark.value, counts, cost))
    } else {
        None
    }
}

/// The value of a mark's block that is driven in, if there is a pull-in and it can be driven.
pub(crate) fn closed_value(day: &Day, counts: bool, mark: &BlockMark) -> Option<i128>
    requires class { mark.now.class < length day.now.params.pools }
    requires trip { mark.now.trip < length day.now.trips }
    ensures value { result ≡ rules.closed_value day.now counts mark.now }
    ensures low { IfSome result (λ value. mark.now.value ≤ℤ value) }
    ensures high { IfSome result (λ value. value ≤ℤ (mark.now.value +ℤ pos 6912000000000)) }
{
    let pool = &day.params().pools()[mark.class as usize];
    // A trip is daily: the day says so.
    let _ = day.trip(mark.trip);
    let inward = day.pull_in(mark.class, mark.trip)?;
    driven_in(day, counts, pool, mark, inward)
}
