//! What holds of every day. Each function does nothing: its contract is the theorem.

ghost use Rattle.day_model.specs.Facts.{DayFacts};
ghost use Rattle.plan_params.specs.declared.rows.pool.Pool.{Pool};
ghost use Rattle.one_pool_flow.specs.DayNets.{PlansAreCovers};
ghost use Rattle.one_pool_flow.specs.Flows.{FlowPlanIsOne, FlowPricesAreOne, PathsAreBlocks};

/// The plans of paths of a day with one pool are the covers of its network, at the same cost.
pub fn plans_are_covers()
    ensures { (day : DayFacts) (pool : Pool) → PlansAreCovers day pool }
{}

/// A day has at most one flow plan, and a plan has at most one list of flow prices and one class price.
pub fn flow_is_one()
    ensures plan { (day : DayFacts) → FlowPlanIsOne day }
    ensures prices { (day : DayFacts) → FlowPricesAreOne day }
{}

/// Where each path of a plan of paths is also a block, the paths are a plan of blocks at the same cost; prices that are paid over all paths
/// are paid over all blocks, and where their bound is the plan's cost, no plan of blocks costs less.
pub fn flow_plan_of_blocks()
    ensures { (day : DayFacts) → PathsAreBlocks day }
{}
