//! Days with one pool at least cost: the plan of paths of least cost, of several the one whose list of successors comes first, and prices
//! that prove it.
#![tactic(auto)]

ghost use Rattle.std.specs.Prelude.{◌≡◌};
ghost use Rattle.one_pool_flow.specs.Paths as paths;

mod costs;
mod laws;
mod net;
mod plan;
mod table;

use day_model::Day;
pub use laws::{flow_is_one, flow_plan_of_blocks, plans_are_covers};
pub use plan::{FlowPlan, flow};

/// Whether a day has one pool, and costs so small that all numbers of its flow fit. It takes no memory.
pub fn is_flow_day(day: &Day) -> bool
    ensures { result ≡ paths.is_flow_day day.now }
{
    match day.params().pools() {
        [pool] => {
            let trips = day.trips().len() as u64 + 2;
            let each = u64::from(pool.fixed)
                + 345_600 * (u64::from(pool.dead_rate) + u64::from(pool.stand_rate));
            4_000 * trips * each <= 3_000_000_000_000_000
        }
        _ => false,
    }
}
