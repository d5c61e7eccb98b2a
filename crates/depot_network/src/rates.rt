//! What connections and pull-ins cost.

ghost use Rattle.std.specs.Prelude.{◌≡◌, ◌<◌, ◌≤◌, ◌*◌, IfSome, Some, length, slice_get};
ghost use Rattle.plan_core.specs.Limits.{most_rate};
ghost use Rattle.plan_params.specs.Limits.{IsPool};
ghost use Rattle.day_model.specs.Blocks as blocks;
ghost use Rattle.day_model.specs.Ranges.{IsShort};
ghost use Rattle.depot_network.specs.Walk as walks;

use day_model::{Day, Link};
use plan_params::Pool;
use trip_times::Trip;

/// What at most 345,600 seconds cost at a rate of at most 10,000 a second.
pub fn cost_at_rate(rate: u32, seconds: u32) -> u64
    requires rate { rate ≤ most_rate }
    requires seconds { seconds ≤ 345600 }
    ensures value { result ≡ rate * seconds }
    ensures bound { result ≤ most_rate * seconds }
    ensures few { result ≤ 3456000000 }
    ensures dear { result ≤ 345600 * rate }
{
    u64::from(rate) * u64::from(seconds)
}

/// What a connection to a trip costs: its deadheads, and a stand that is not at the depot.
pub fn link_cost(pool: &Pool, next: &Trip, link: Link) -> u64
    requires pool { IsPool pool.now }
    requires short { IsShort link }
    ensures value { result ≡ blocks.link_cost pool.now next.now link }
    ensures bound { result ≤ most_rate * walks.seconds_of link }
    ensures few { result ≤ 3456000000 }
    ensures dear { result ≤ walks.dear_of pool.now }
{
    match link {
        Link::Direct { dead, stand } => {
            let stood = if next.from == pool.depot { 0 } else { stand };
            cost_at_rate(pool.dead_rate, dead) + cost_at_rate(pool.stand_rate, stood)
        }
        Link::Depot {
            inward,
            outward,
            ..
        } => cost_at_rate(pool.dead_rate, inward + outward),
    }
}

/// What a later trip adds to the cost of a block, if it may follow another one as far as connections go.
pub fn cost_of_following(day: &Day, class: u32, pool: &Pool, t: u32, u: u32) -> Option<u64>
    requires pool { slice_get day.now.params.pools class ≡ Some pool.now }
    requires ranges { IsPool pool.now }
    requires trip { t < length day.now.trips }
    requires next { u < length day.now.trips }
    ensures value { result ≡ walks.added day.now pool.now t u }
    ensures few { IfSome result (λ cost. cost ≤ 3456000000) }
    ensures dear { IfSome result (λ cost. cost ≤ walks.dear_of pool.now) }
{
    let next = day.trip(u);
    if !day.admits(class, u) || u <= t {
        return None;
    }
    let link = day.connect(class, t, u)?;
    Some(link_cost(pool, next, link))
}

/// What the pull-in adds, if there is one.
pub fn cost_of_pull_in(day: &Day, class: u32, pool: &Pool, t: u32) -> Option<u64>
    requires pool { slice_get day.now.params.pools class ≡ Some pool.now }
    requires ranges { IsPool pool.now }
    requires trip { t < length day.now.trips }
    ensures value { result ≡ walks.ended day.now pool.now t }
    ensures few { IfSome result (λ cost. cost ≤ 1728000000) }
    ensures dear { IfSome result (λ cost. cost ≤ walks.dear_of pool.now) }
{
    let seconds = day.pull_in(class, t)?;
    Some(cost_at_rate(pool.dead_rate, seconds))
}
