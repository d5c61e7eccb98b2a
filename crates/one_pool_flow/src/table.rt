//! The arcs of a day's network, laid out once, so that nothing is looked up while the search runs.

ghost use Rattle.std.specs.Prelude.{◌≡◌, ◌≤◌, ◌+◌, IfOk, Some, length, slice_get};
ghost use Rattle.plan_core.specs.Limits.{most_items};
ghost use Rattle.plan_params.specs.Limits.{IsPool};
ghost use Rattle.one_pool_flow.specs.DayNets.{IsLaid, IsLaidRow};

use crate::costs::arc_cost;
use day_model::Day;
use plan_core::{Memory, Seq};
use plan_params::Pool;
use std::alloc::Global;

/// What the arcs from one row cost, by columns.
fn row(alloc: Global, day: &Day, pool: &Pool, n: u32, x: u32) -> Result<Seq<Option<u32>>, Memory>
    requires pool { slice_get day.now.params.pools 0 ≡ Some pool.now }
    requires ranges { IsPool pool.now }
    requires count { n ≡ length day.now.trips }
    requires few { n ≤ most_items }
    requires row { x ≤ n }
    ensures { IfOk result (IsLaidRow day.now pool.now n x (n + 1)) }
{
    let mut cells = Seq::new(alloc);
    for v in 0..n + 1 {
        cells.push(arc_cost(day, pool, n, x, v))?;
    }
    Ok(cells)
}

/// What all arcs cost, by rows.
pub(crate) fn rows(
    alloc: Global,
    day: &Day,
    pool: &Pool,
    n: u32,
) -> Result<Seq<Seq<Option<u32>>>, Memory>
    requires pool { slice_get day.now.params.pools 0 ≡ Some pool.now }
    requires ranges { IsPool pool.now }
    requires count { n ≡ length day.now.trips }
    requires few { n ≤ most_items }
    ensures { IfOk result (IsLaid day.now pool.now n (n + 1)) }
{
    let mut all = Seq::new(alloc);
    for x in 0..n + 1 {
        all.push(row(alloc, day, pool, n, x)?)?;
    }
    Ok(all)
}
