//! What connections and pulls add to the cost of a path.

ghost use Rattle.std.specs.Prelude.{◌≡◌, ◌<◌, ◌≤◌, IfSome, Some, length, slice_get};
ghost use Rattle.plan_params.specs.Limits.{IsPool};
ghost use Rattle.depot_network.specs.Walk as walks;
ghost use Rattle.depot_network.specs.Walk.{dear_of};
ghost use Rattle.one_pool_flow.specs.DayNets.{arc_of};

use day_model::Day;
use depot_network::{cost_at_rate, cost_of_following, cost_of_pull_in};
use plan_params::Pool;

/// The fixed cost and the pull-out of a path that begins with a trip, if it may.
fn cost_of_beginning(day: &Day, pool: &Pool, t: u32) -> Option<u64>
    requires pool { slice_get day.now.params.pools 0 ≡ Some pool.now }
    requires ranges { IsPool pool.now }
    requires trip { t < length day.now.trips }
    ensures value { result ≡ walks.begun day.now pool.now t }
    ensures few { IfSome result (λ cost. cost ≤ 3456000000) }
    ensures dear { IfSome result (λ cost. cost ≤ dear_of pool.now) }
{
    // The trip is there: the day says so.
    let _ = day.trip(t);
    if !day.admits(0, t) {
        return None;
    }
    let out = day.pull_out(0, t)?;
    Some(u64::from(pool.fixed) + cost_at_rate(pool.dead_rate, out))
}

/// What an arc of the day's network costs, if it is there.
fn wide_cost(day: &Day, pool: &Pool, n: u32, x: u32, v: u32) -> Option<u64>
    requires pool { slice_get day.now.params.pools 0 ≡ Some pool.now }
    requires ranges { IsPool pool.now }
    requires count { n ≡ length day.now.trips }
    requires row { x ≤ n }
    requires column { v ≤ n }
    ensures value { result ≡ arc_of day.now pool.now x v }
    ensures few { IfSome result (λ cost. cost ≤ 3456000000) }
    ensures dear { IfSome result (λ cost. cost ≤ dear_of pool.now) }
{
    if x < n {
        if v < n {
            return cost_of_following(day, 0, pool, x, v);
        }
        return cost_of_pull_in(day, 0, pool, x);
    }
    if v < n {
        return cost_of_beginning(day, pool, v);
    }
    Some(0)
}

/// The same in 32 bits.
pub(crate) fn arc_cost(day: &Day, pool: &Pool, n: u32, x: u32, v: u32) -> Option<u32>
    requires pool { slice_get day.now.params.pools 0 ≡ Some pool.now }
    requires ranges { IsPool pool.now }
    requires count { n ≡ length day.now.trips }
    requires row { x ≤ n }
    requires column { v ≤ n }
    ensures value { result ≡ arc_of day.now pool.now x v }
    ensures dear { IfSome result (λ cost. cost ≤ dear_of pool.now) }
{
    let cost = wide_cost(day, pool, n, x, v)?;
    Some(cost as u32)
}
