//! The flow plan of a day.

ghost use Rattle.std.specs.Prelude.{◌≡◌, ℕ, true, List, [], ◌∷◌, IfNone, IfOk, IfSome};
ghost use Rattle.plan_params.specs.Limits.{IsPool};
ghost use Rattle.one_pool_flow.specs.Flows.{AreFlowBound, AreFlowPrices, AreModerate};
ghost use Rattle.one_pool_flow.specs.Paths.{IsFlowPlan, IsPathPlan, is_flow_day};

use crate::net::DayArcs;
use crate::table::rows;
use cover_core::Prices;
use day_model::Day;
use path_cover::{LeastCover, least_cover, prices_of};
use plan_core::{Memory, Seq};
use plan_params::Pool;
use std::alloc::Global;

/// A plan of paths, and prices.
#[derive(Drop)]
pub struct FlowPlan {
    /// The paths, by their first trips.
    pub paths: Seq<Seq<u32>>,
    /// The price of each trip, in thousandths of a cost unit: at most 3 * 10^15 in size.
    pub prices: Prices,
    /// The class price, in thousandths of a cost unit: from 0 to 3 * 10^15.
    pub class_price: i64,
}

/// The flow plan of a day over its one pool.
fn flow_of(alloc: Global, day: &Day, pool: &Pool) -> Result<Option<FlowPlan>, Memory>
    requires pool { day.now.params.pools ≡ pool.now ∷ [] }
    requires ranges { IsPool pool.now }
    requires flow { is_flow_day day.now ≡ true }
    ensures none { IfOk result (λ found. IfNone found ((lists : List (List ℕ)) → IsPathPlan day.now lists → ⊥)) }
    ensures plan { IfOk result (λ found. IfSome found (λ plan. IsFlowPlan day.now plan.paths)) }
    ensures prices { IfOk result (λ found. IfSome found (λ plan. AreFlowPrices day.now plan.paths plan.prices.items plan.class_price)) }
    ensures bound { IfOk result (λ found. IfSome found (λ plan. AreFlowBound day.now plan.paths plan.prices.items plan.class_price)) }
    ensures moderate { IfOk result (λ found. IfSome found (λ plan. AreModerate day.now plan.prices.items plan.class_price)) }
{
    let n = day.trips().len() as u32;
    let table = rows(alloc, day, pool, n)?;
    let arcs = DayArcs {
        day,
        pool,
        rows: table.as_slice(),
        nodes: n,
    };
    match least_cover(alloc, &arcs)? {
        None => Ok(None),
        Some(cover) => {
            let LeastCover { paths, falls } = cover;
            let prices = prices_of(alloc, &arcs, &falls)?;
            Ok(Some(FlowPlan {
                paths,
                prices: prices.nodes,
                class_price: prices.class,
            }))
        }
    }
}

/// The plan of paths of a day with one pool that costs least, and of several the one whose list of successors comes first, with the prices
/// of the greatest potentials that go with it. `None` exactly where there is no plan of paths. `Memory` is the only error.
pub fn flow(alloc: Global, day: &Day) -> Result<Option<FlowPlan>, Memory>
    requires { is_flow_day day.now ≡ true }
    ensures none { IfOk result (λ found. IfNone found ((lists : List (List ℕ)) → IsPathPlan day.now lists → ⊥)) }
    ensures plan { IfOk result (λ found. IfSome found (λ plan. IsFlowPlan day.now plan.paths)) }
    ensures prices { IfOk result (λ found. IfSome found (λ plan. AreFlowPrices day.now plan.paths plan.prices.items plan.class_price)) }
    ensures bound { IfOk result (λ found. IfSome found (λ plan. AreFlowBound day.now plan.paths plan.prices.items plan.class_price)) }
    ensures moderate { IfOk result (λ found. IfSome found (λ plan. AreModerate day.now plan.prices.items plan.class_price)) }
{
    match day.params().pools() {
        [pool] => flow_of(alloc, day, pool),
        _ => Ok(None),
    }
}
