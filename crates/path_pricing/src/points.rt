//! What going on to one of the trips that begin at a point adds at least.

ghost use Rattle.std.specs.Prelude.{◌≡◌, ◌<◌, ◌≤◌, ◌+◌, ◌-◌, ◌*◌, ◌+ℤ◌, ◌-ℤ◌, ◌≤ℤ◌, ℕ, ℤ, List, IfSome, Some, length, neg_ℤ, pos, slice_get, slice_index};
ghost use Rattle.cover_core.specs.Plans.{number_at};
ghost use Rattle.trip_times.specs.declared.trip.Trip.{Trip as AnyTrip};
ghost use Rattle.plan_params.specs.Limits.{IsPool};
ghost use Rattle.day_model.specs.Begins.{AreBeginNumbers, AreMinutes};
ghost use Rattle.day_model.specs.Facts.{dead};
ghost use Rattle.day_model.specs.Links.{pull_in_at, with_pool, with_trip};
ghost use Rattle.path_pricing.specs.Points.{DepotAbove, DirectAbove, PointAbove, by_depot};
ghost use Rattle.path_pricing.specs.Rows.{AreModerate, AreRows, IsModerate};

use crate::costs::{charge, end_of, stand_rate};
use crate::firsts::next_from;
use crate::rows::{cell, lower};
use day_model::Day;
use depot_network::PoolNet;
use plan_params::Pool;

/// The number of a point in the row of a place.
fn cell_from(cells: &[i64], count: u32, width: usize, place: u32, number: usize) -> i64
    requires place { place ≤ count }
    requires number { number < width }
    requires room { (count - place) * width + width ≤ length cells.now }
    ensures { result ≡ number_at cells.now ((count - place) * width + number) }
{
    cell(cells, (count - place) as usize * width + number)
}

/// A number to which a cost is added, less another cost that it holds already, all in thousandths of a cost unit.
fn with_difference(cost: i64, less: i64, number: i64) -> i64
    requires cost_low { pos 0 ≤ℤ cost }
    requires cost_high { cost ≤ℤ pos 3456000000000 }
    requires less_low { pos 0 ≤ℤ less }
    requires less_high { less ≤ℤ pos 3456000000000 }
    requires number { IsModerate number }
    ensures { result ≡ cost -ℤ less +ℤ number }
{
    cost - less + number
}

/// What is known so far, with the direct ways to the trips of a point: the vehicle drives to the point at once and stands there.
fn with_direct(
    day: &Day,
    counts: bool,
    pool: &Pool,
    firsts: &[u32],
    stood: &[i64],
    width: usize,
    number: usize,
    head: u32,
    t: u32,
    least: i64,
) -> i64
    requires ranges { IsPool pool.now }
    requires firsts { AreMinutes day.now.trips 2881 firsts.now }
    requires room { (length day.now.trips - t) * width ≤ length stood.now }
    requires moderate { AreModerate stood.now }
    requires number { number < width }
    requires head { head < length day.now.trips }
    requires trip { t < length day.now.trips }
    ensures low { result ≤ℤ least }
    ensures direct { (numbers : List ℕ) (value : ℕ → ℤ) → AreBeginNumbers day.now.trips numbers → slice_index numbers head ≡ number → AreRows (length day.now.trips) width (t + 1) numbers value stood.now → DirectAbove day.now counts pool.now numbers value t number result }
{
    let count = day.trips().len() as u32;
    match day.between(t, head) {
        None => least,
        Some(dead) => {
            let trip = day.trip(t);
            let next = day.trip(head);
            let time = end_of(trip) + dead;
            let place = next_from(day, firsts, t, time + day.params().settings().turn);
            let moved = charge(counts, pool.dead_rate, dead);
            let before = charge(counts, stand_rate(pool, next), time);
            let behind = cell_from(stood, count, width, place, number);
            lower(least, with_difference(moved, before, behind))
        }
    }
}

/// How long a vehicle drives from a trip to its depot and from there to another trip.
fn by_depot(day: &Day, class: u32, t: u32, head: u32) -> Option<u32>
    requires class { class < length day.now.params.pools }
    requires trip { t < length day.now.trips }
    requires head { head < length day.now.trips }
    ensures value { result ≡ by_depot (pull_in_at day.now class t) (with_pool day.now class (λ pool. with_trip day.now head (λ next. dead day.now pool.depot next.from))) }
    ensures bound { IfSome result (λ seconds. seconds ≤ 345600) }
{
    let inward = day.pull_in(class, t)?;
    let outward = day.outward(class, head)?;
    Some(inward + outward)
}

/// What is known so far, with the ways via the depot to the trips of a point.
fn with_depot(
    day: &Day,
    counts: bool,
    class: u32,
    pool: &Pool,
    firsts: &[u32],
    passed: &[i64],
    width: usize,
    number: usize,
    head: u32,
    t: u32,
    least: i64,
) -> i64
    requires there { slice_get day.now.params.pools class ≡ Some pool.now }
    requires ranges { IsPool pool.now }
    requires firsts { AreMinutes day.now.trips 2881 firsts.now }
    requires room { (length day.now.trips - t) * width ≤ length passed.now }
    requires moderate { AreModerate passed.now }
    requires number { number < width }
    requires head { head < length day.now.trips }
    requires trip { t < length day.now.trips }
    ensures low { result ≤ℤ least }
    ensures depot { (numbers : List ℕ) (value : ℕ → ℤ) → AreBeginNumbers day.now.trips numbers → slice_index numbers head ≡ number → AreRows (length day.now.trips) width (t + 1) numbers value passed.now → DepotAbove day.now counts pool.now numbers value t number result }
{
    let count = day.trips().len() as u32;
    match by_depot(day, class, t, head) {
        None => least,
        Some(dead) => {
            let trip = day.trip(t);
            let place = next_from(day, firsts, t, end_of(trip) + dead);
            let moved = charge(counts, pool.dead_rate, dead);
            let behind = cell_from(passed, count, width, place, number);
            lower(least, with_difference(moved, 0, behind))
        }
    }
}

/// What is known so far, with the ways to the trips of a point, one of which is its head. No trip before `place` begins when the trip has
/// ended or later. No way costs less than nothing, so where the least that the trips of the point from there on and their rests add is no
/// lower than what is known, nothing more is asked.
pub(crate) fn with_point(
    net: &PoolNet<'_>,
    class: u32,
    pool: &Pool,
    firsts: &[u32],
    stood: &[i64],
    passed: &[i64],
    width: usize,
    number: usize,
    head: u32,
    t: u32,
    place: u32,
    least: i64,
) -> i64
    requires there { slice_get net.now.day.params.pools class ≡ Some pool.now }
    requires ranges { IsPool pool.now }
    requires firsts { AreMinutes net.now.day.trips 2881 firsts.now }
    requires stood_room { (length net.now.day.trips - t) * width ≤ length stood.now }
    requires stood { AreModerate stood.now }
    requires passed_room { (length net.now.day.trips - t) * width ≤ length passed.now }
    requires passed { AreModerate passed.now }
    requires number { number < width }
    requires trip { t < length net.now.day.trips }
    requires after { t < place }
    requires within { place ≤ length net.now.day.trips }
    requires first { (u : ℕ) (trip next : AnyTrip) → t < u → slice_get net.now.day.trips t ≡ Some trip → slice_get net.now.day.trips u ≡ Some next → trip.end.0 ≤ℤ next.begin.0 → place ≤ u }
    ensures low { result ≤ℤ least }
    ensures point { (numbers : List ℕ) (by_stand by_pass : ℕ → ℤ) → head < length net.now.day.trips → AreBeginNumbers net.now.day.trips numbers → slice_index numbers head ≡ number → AreRows (length net.now.day.trips) width (t + 1) numbers by_stand stood.now → AreRows (length net.now.day.trips) width (t + 1) numbers by_pass passed.now → PointAbove net.now.day net.now.counts pool.now numbers by_stand by_pass t number result }
{
    let day = net.day();
    let counts = net.counts();
    let count = day.trips().len() as u32;
    if head >= count {
        return least;
    }
    let near = cell_from(passed, count, width, place, number);
    if least <= near {
        return least;
    }
    let direct = with_direct(
        day, counts, pool, firsts, stood, width, number, head, t, least,
    );
    with_depot(
        day, counts, class, pool, firsts, passed, width, number, head, t, direct,
    )
}
