//! What seconds cost, in thousandths of a cost unit.

ghost use Rattle.std.specs.Prelude.{◌≡◌, ◌≤◌, ◌*◌, ◌≤ℤ◌, pos};
ghost use Rattle.std.specs.Int.RustNames.{unsigned_abs};
ghost use Rattle.plan_core.specs.Limits.{most_rate};
ghost use Rattle.plan_params.specs.Limits.{IsPool};
ghost use Rattle.day_model.specs.Ranges.{IsDaily};
ghost use Rattle.depot_network.specs.Open.{scaled};
ghost use Rattle.path_pricing.specs.Points.{stand_rate_at};

use depot_network::cost_at_rate;
use plan_params::Pool;
use trip_times::Trip;

/// A thousand times what seconds cost at a rate, or nothing where blocks are counted.
pub(crate) fn charge(counts: bool, rate: u32, seconds: u32) -> i64
    requires rate { rate ≤ most_rate }
    requires seconds { seconds ≤ 345600 }
    ensures value { result ≡ scaled counts (rate * seconds) }
    ensures low { pos 0 ≤ℤ result }
    ensures high { result ≤ℤ pos 3456000000000 }
{
    if counts {
        0
    } else {
        1000 * cost_at_rate(rate, seconds) as i64
    }
}

/// When a trip begins, in seconds.
pub(crate) fn begin_of(trip: &Trip) -> u32
    requires { IsDaily trip.now }
    ensures value { result ≡ unsigned_abs trip.now.begin.0 }
    ensures bound { result ≤ 172800 }
{
    trip.begin.0.unsigned_abs() as u32
}

/// When a trip ends, in seconds.
pub(crate) fn end_of(trip: &Trip) -> u32
    requires { IsDaily trip.now }
    ensures value { pos result ≡ trip.now.end.0 }
    ensures bound { result ≤ 172800 }
{
    trip.end.0 as u32
}

/// What standing a second costs where a trip begins: nothing at the depot.
pub(crate) fn stand_rate(pool: &Pool, trip: &Trip) -> u32
    requires { IsPool pool.now }
    ensures value { result ≡ stand_rate_at pool.now trip.now }
    ensures bound { result ≤ most_rate }
{
    if trip.from == pool.depot {
        0
    } else {
        pool.stand_rate
    }
}
