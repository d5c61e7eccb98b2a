//! The cost of a block, and whether it can be driven.

ghost use Rattle.std.specs.Prelude.{◌≡◌, ◌<◌, ◌≤◌, ◌+◌, ◌*◌, ◌≤ℤ◌, ◌-ℤ◌, ◌+ℤ◌, ◌*ℤ◌, pos, cond, ℕ, IfSome, Some, [], length, slice_get, option_and_then};
ghost use Rattle.plan_core.specs.Limits.{most_worth, most_rate};
ghost use Rattle.cover_core.specs.Cover.{AllBelow};
ghost use Rattle.plan_params.specs.Limits.{IsPool};
ghost use Rattle.day_model.specs.Blocks as blocks;
ghost use Rattle.day_model.specs.Links.{with_pool};
ghost use Rattle.day_model.specs.Pieces.{longest_driving};
ghost use Rattle.day_model.specs.Ranges.{IsDaily, IsShort};
ghost use Rattle.depot_network.specs.Driving as driving;
ghost use Rattle.depot_network.specs.Network.{is_count};
ghost use Rattle.depot_network.specs.Walk as walks;

use crate::rates::{cost_at_rate, link_cost};
use crate::step::Step;
use cover_core::Worth;
use day_model::{Day, Link};
use plan_params::Pool;
use trip_times::Trip;

/// The greatest driving of a piece in seconds: four and a half hours.
const LONGEST_DRIVING: u32 = 16_200;

/// Whether a stand before a trip, at its first point, is a cut.
fn is_cut_before(day: &Day, pool: &Pool, next: &Trip, u: u32, stand: u32) -> bool
    requires next { slice_get day.now.trips u ≡ Some next.now }
    requires there { u < length day.now.trips }
    ensures { result ≡ driving.is_cut_at day.now pool.now next.now.from stand }
{
    stand >= 1
        && (stand >= day.params().settings().handover
            && (day.begins_at_relief(u) || next.from == pool.depot))
}

/// Whether a stand at the depot is a cut.
fn is_cut_at_depot(day: &Day, pool: &Pool, stand: u32) -> bool
    ensures { result ≡ driving.is_cut_at day.now pool.now pool.now.depot stand }
{
    0 < stand && stand >= day.params().settings().handover
}

/// Driving that a piece may have.
fn piece_driving(seconds: u32) -> Option<u32>
    ensures value { result ≡ driving.kept seconds }
    ensures bound { IfSome result (λ seconds. seconds ≤ longest_driving) }
{
    if seconds <= LONGEST_DRIVING {
        Some(seconds)
    } else {
        None
    }
}

/// The driving behind a stand: afresh where the stand is a cut.
fn driven_past(cut: bool, so_far: u32, before: u32, second: u32) -> Option<u32>
    requires so_far { so_far ≤ longest_driving }
    requires before { before ≤ 172800 }
    requires second { second ≤ 345600 }
    ensures value { result ≡ driving.driven_past cut so_far before second }
    ensures bound { IfSome result (λ seconds. seconds ≤ longest_driving) }
{
    if !cut {
        return piece_driving(so_far + before + second);
    }
    if so_far + before <= LONGEST_DRIVING {
        piece_driving(second)
    } else {
        None
    }
}

/// How long a trip is driven.
fn trip_seconds(trip: &Trip) -> u32
    requires { IsDaily trip.now }
    ensures value { result ≡ driving.trip_seconds trip.now }
    ensures bound { result ≤ 172800 }
{
    (trip.end.0 - trip.begin.0).unsigned_abs() as u32
}

/// The driving at the end of a later trip.
fn driven_over(day: &Day, pool: &Pool, next: &Trip, u: u32, link: Link, so_far: u32) -> Option<u32>
    requires next { slice_get day.now.trips u ≡ Some next.now }
    requires there { u < length day.now.trips }
    requires daily { IsDaily next.now }
    requires short { IsShort link }
    requires so_far { so_far ≤ longest_driving }
    ensures value { result ≡ driving.driven_over day.now pool.now next.now link so_far }
    ensures bound { IfSome result (λ seconds. seconds ≤ longest_driving) }
{
    match link {
        Link::Direct { dead, stand } => {
            let cut = is_cut_before(day, pool, next, u, stand);
            driven_past(cut, so_far, dead, 0 + trip_seconds(next))
        }
        Link::Depot {
            inward,
            outward,
            stand,
        } => {
            let cut = is_cut_at_depot(day, pool, stand);
            driven_past(cut, so_far, inward, outward + trip_seconds(next))
        }
    }
}

/// A first trip of a block, if it may be one: the fixed cost and the pull-out.
pub(crate) fn first_step(day: &Day, class: u32, pool: &Pool, t: u32) -> Option<Step>
    requires pool { slice_get day.now.params.pools class ≡ Some pool.now }
    requires ranges { IsPool pool.now }
    requires trip { t < length day.now.trips }
    ensures value { result ≡ walks.first_step day.now pool.now t }
    ensures cheap { IfSome result (λ step. walks.IsCheapUntil day.now t step.cost) }
    ensures driving { IfSome result (λ step. step.driving ≤ longest_driving) }
{
    let trip = day.trip(t);
    if !day.admits(class, t) {
        return None;
    }
    let out = day.pull_out(class, t)?;
    let driving = piece_driving(out + trip_seconds(trip))?;
    Some(Step {
        cost: u64::from(pool.fixed) + cost_at_rate(pool.dead_rate, out),
        driving,
    })
}

/// A later trip of a block, if it may follow another one, from the driving at the end of that.
pub(crate) fn next_step(
    day: &Day,
    class: u32,
    pool: &Pool,
    so_far: u32,
    t: u32,
    u: u32,
) -> Option<Step>
    requires pool { slice_get day.now.params.pools class ≡ Some pool.now }
    requires ranges { IsPool pool.now }
    requires trip { t < length day.now.trips }
    requires next { u < length day.now.trips }
    requires so_far { so_far ≤ longest_driving }
    ensures value { result ≡ walks.next_step day.now pool.now so_far t u }
    ensures few { IfSome result (λ step. step.cost ≤ 3456000000) }
    ensures cheap { IfSome result (λ step. (cost : ℕ) → walks.IsCheapUntil day.now t cost → walks.IsCheapUntil day.now u (cost + step.cost)) }
    ensures driving { IfSome result (λ step. step.driving ≤ longest_driving) }
{
    // Trips are daily: the day says so.
    let _ = day.trip(t);
    let next = day.trip(u);
    if u <= t || !day.admits(class, u) {
        return None;
    }
    let link = day.connect(class, t, u)?;
    let driving = driven_over(day, pool, next, u, link, so_far)?;
    Some(Step {
        cost: link_cost(pool, next, link),
        driving,
    })
}

/// The cost of the pull-in, if there is one and it can be driven, from the driving at the end of the last trip.
pub(crate) fn last_step(day: &Day, class: u32, pool: &Pool, so_far: u32, t: u32) -> Option<u64>
    requires pool { slice_get day.now.params.pools class ≡ Some pool.now }
    requires ranges { IsPool pool.now }
    requires trip { t < length day.now.trips }
    requires so_far { so_far ≤ longest_driving }
    ensures value { result ≡ walks.last_step day.now pool.now so_far t }
    ensures few { IfSome result (λ cost. cost ≤ 1728000000) }
{
    // A trip is daily: the day says so.
    let _ = day.trip(t);
    let inward = day.pull_in(class, t)?;
    let _ = piece_driving(so_far + inward)?;
    Some(cost_at_rate(pool.dead_rate, inward))
}

/// The cost of a block with the pull-in.
fn cost_with_pull_in(
    day: &Day,
    class: u32,
    pool: &Pool,
    so_far: u32,
    cost: u64,
    t: u32,
) -> Option<u64>
    requires pool { slice_get day.now.params.pools class ≡ Some pool.now }
    requires ranges { IsPool pool.now }
    requires trip { t < length day.now.trips }
    requires so_far { so_far ≤ longest_driving }
    requires cheap { walks.IsCheapUntil day.now t cost }
    ensures value { result ≡ walks.stepped day.now pool.now cost so_far t [] }
    ensures bound { IfSome result (λ cost. cost ≤ most_worth) }
{
    let more = last_step(day, class, pool, so_far, t)?;
    Some(cost + more)
}

/// The cost of a block that begins so, with a first trip and the trips after it.
fn cost_with_trips(
    day: &Day,
    class: u32,
    pool: &Pool,
    begin: u64,
    driving: u32,
    first: u32,
    rest: &[u32],
) -> Option<u64>
    requires pool { slice_get day.now.params.pools class ≡ Some pool.now }
    requires ranges { IsPool pool.now }
    requires first { first < length day.now.trips }
    requires rest { AllBelow (length day.now.trips) rest.now }
    requires driving { driving ≤ longest_driving }
    requires cheap { walks.IsCheapUntil day.now first begin }
    ensures value { result ≡ walks.stepped day.now pool.now begin driving first rest.now }
    ensures bound { IfSome result (λ cost. cost ≤ most_worth) }
{
    let mut cost = begin;
    let mut so_far = driving;
    let mut last = first;
    for next in rest {
        let step = next_step(day, class, pool, so_far, last, *next)?;
        cost += step.cost;
        so_far = step.driving;
        last = *next;
    }
    cost_with_pull_in(day, class, pool, so_far, cost, last)
}

/// What a block of a cost is worth.
fn worth_of(worth: Worth, cost: Option<u64>) -> Option<u64>
    requires { IfSome cost (λ cost. cost ≤ most_worth) }
    ensures value { result ≡ option_and_then (λ c. Some (cond (is_count worth) 1 c)) cost }
    ensures bound { IfSome result (λ cost. cost ≤ most_worth) }
{
    match (worth, cost) {
        (_, None) => None,
        (Worth::Count, Some(_)) => Some(1),
        (Worth::Cost, Some(cost)) => Some(cost),
    }
}

/// The cost of a list of trips as a block of a pool, if it is one.
fn block_cost(day: &Day, class: u32, list: &[u32]) -> Option<u64>
    requires class { class < length day.now.params.pools }
    requires items { AllBelow (length day.now.trips) list.now }
    ensures value { result ≡ with_pool day.now class (λ pool. walks.steps day.now pool list.now) }
    ensures bound { IfSome result (λ cost. cost ≤ most_worth) }
{
    let pool = &day.params().pools()[class as usize];
    match list {
        [] => None,
        [first, rest @ ..] => {
            let begin = first_step(day, class, pool, *first)?;
            cost_with_trips(day, class, pool, begin.cost, begin.driving, *first, rest)
        }
    }
}

/// The worth of a list of trips as a block of a pool, if it is one: its cost, or 1 where blocks are counted.
pub(crate) fn block_worth(day: &Day, worth: Worth, class: u32, list: &[u32]) -> Option<u64>
    requires class { class < length day.now.params.pools }
    requires items { AllBelow (length day.now.trips) list.now }
    ensures value { result ≡ blocks.block_worth day.now (is_count worth) class list.now }
    ensures bound { IfSome result (λ cost. cost ≤ most_worth) }
{
    worth_of(worth, block_cost(day, class, list))
}
