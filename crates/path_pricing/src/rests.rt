//! What the continuations of a block add at least.

ghost use Rattle.std.specs.Prelude.{◌≡◌, ◌≤◌, IfOk, Some, length, slice_get};
ghost use Rattle.plan_core.specs.Limits.{most_price};
ghost use Rattle.cover_core.specs.FirstLeast.{AllWithin};
ghost use Rattle.plan_params.specs.Limits.{IsPool};
ghost use Rattle.path_pricing.specs.Blocks.{AreBoundsFrom};

use crate::behind::rests_by_points;
use crate::linked::rests_by_links;
use depot_network::PoolNet;
use plan_core::{Memory, Price};
use plan_params::Pool;
use std::alloc::Global;

/// The most points at which trips begin for which rows of points are made: they take 16 bytes for each trip and point.
const MOST_POINTS: usize = 500;

/// For each trip from one on what the continuations behind it add at least, as far as connections go: nothing is known here of what may be
/// driven between two cuts, nor of the greatest wait. There are at most 3,000 trips; prices are from -10,000,000,000,000 to
/// 10,000,000,000,000. Time is in the order of the trips times the points at which they begin; where they begin at more than 500 points, of
/// the square of the trips. It takes at most some 25 MB. `Memory` is the only error.
pub fn rests_from(
    alloc: Global,
    net: &PoolNet<'_>,
    class: u32,
    pool: &Pool,
    prices: &[Price],
    from: u32,
) -> Result<Vec<i64>, Memory>
    requires there { slice_get net.now.day.params.pools class ≡ Some pool.now }
    requires ranges { IsPool pool.now }
    requires moderate { AllWithin most_price prices.now }
    requires from { from ≤ length net.now.day.trips }
    ensures { IfOk result (λ rests. AreBoundsFrom net.now.day net.now.counts prices.now pool.now rests.items from) }
{
    let departures = net.day().departures();
    if departures.firsts.len() <= MOST_POINTS {
        rests_by_points(alloc, net, class, pool, prices, departures, from)
    } else {
        rests_by_links(alloc, net, class, pool, prices, from)
    }
}
