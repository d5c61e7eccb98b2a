//! The blocks of a day that are known before any pass with costs.

ghost use Rattle.std.specs.Prelude.{◌≡◌, ◌<◌, ◌≤◌, [], ◌∷◌, All, false, true, length, map, IfOk, IfSome};
ghost use Rattle.plan_core.specs.Limits.{most_worth};
ghost use Rattle.cover_core.specs.Cover.{AllBelow};
ghost use Rattle.cover_core.specs.FirstLeast.{AreCheap};
ghost use Rattle.cover_core.specs.Plans.{IsPlan};
ghost use Rattle.price_rounds.specs.Rounds.{IsBoundOf};
ghost use Rattle.depot_network.specs.Network.{blocks_of};
ghost use Rattle.one_pool_flow.specs.Flows.{all_blocks};
ghost use Rattle.plan_command.specs.Flow.{AreKnownBlocks, IsFoundFlow, IsKnownFlow, block_column};
ghost use Rattle.plan_command.specs.Planning.{IsDualFeasible};

use cover_core::{Column, Columns, Items, Plan, Prices, Worth, plan_cost, weak_duality};
use cover_plan::KnownPlan;
use day_model::Day;
use depot_network::PoolNet;
use dual_bound::Kept;
use one_pool_flow::{FlowPlan, flow, flow_plan_of_blocks, is_flow_day};
use plan_core::{Memory, Seq};
use std::alloc::Global;

/// Whether each path is a block of the first pool.
fn are_blocks(net: &PoolNet<'_>, paths: &[Seq<u32>]) -> bool
    requires costs { net.now.counts ≡ false }
    requires pool { 0 < length net.now.day.params.pools }
    requires below { All (AllBelow (length net.now.day.trips)) paths.now }
    ensures { result ≡ all_blocks net.now.day paths.now }
{
    for path in paths {
        if net.worth(0, path.as_slice()).is_none() {
            return false;
        }
    }
    true
}

/// A path as a column of the first pool.
fn path_block(alloc: Global, net: &PoolNet<'_>, path: &[u32]) -> Result<Column, Memory>
    requires costs { net.now.counts ≡ false }
    requires pool { 0 < length net.now.day.params.pools }
    requires below { AllBelow (length net.now.day.trips) path.now }
    ensures column { IfOk result (λ column. column ≡ block_column net.now.day path.now) }
    ensures cheap { IfOk result (λ column. column.worth ≤ most_worth) }
{
    Ok(Column {
        class: 0,
        worth: net.worth(0, path).unwrap_or(0),
        items: Items::from_slice(alloc, path)?,
    })
}

/// Paths as columns of the first pool.
fn path_blocks(alloc: Global, net: &PoolNet<'_>, paths: &[Seq<u32>]) -> Result<Seq<Column>, Memory>
    requires costs { net.now.counts ≡ false }
    requires pool { 0 < length net.now.day.params.pools }
    requires below { All (AllBelow (length net.now.day.trips)) paths.now }
    ensures columns { IfOk result (λ columns. columns ≡ map (block_column net.now.day) paths.now) }
    ensures cheap { IfOk result (λ columns. AreCheap columns) }
{
    let mut columns = Seq::new(alloc);
    for path in paths {
        columns.push(path_block(alloc, net, path.as_slice())?)?;
    }
    Ok(columns)
}

/// The offer of flow prices, with their bound.
fn flow_offer(alloc: Global, prices: Prices, class_price: i64, bound: u64) -> Result<Kept, Memory>
    ensures { IfOk result (λ kept. kept ≡ record { prices = prices; class_prices = class_price ∷ []; bound = bound }) }
{
    let mut class_prices = Seq::new(alloc);
    class_prices.push(class_price)?;
    Ok(Kept {
        prices,
        class_prices,
        bound,
    })
}

/// The plan of a flow plan whose paths are blocks, with the flow prices.
fn known_flow(
    alloc: Global,
    model: &Day,
    flow: FlowPlan,
    columns: Seq<Column>,
) -> Result<KnownPlan, Memory>
    requires found { IsFoundFlow model.now flow.paths flow.prices.items flow.class_price }
    requires blocks { all_blocks model.now flow.paths ≡ true }
    requires columns { columns ≡ map (block_column model.now) flow.paths }
    requires cheap { AreCheap columns }
    ensures known { IfOk result (IsKnownFlow model.now flow.paths) }
    ensures plan { IfOk result (λ known. IsPlan (blocks_of model.now false) known.plan.columns) }
    ensures cheap { IfOk result (λ known. AreCheap known.plan.columns) }
    ensures feasible { IfOk result (λ known. IsDualFeasible (blocks_of model.now false) known.cost) }
    ensures bound { IfOk result (λ known. IsBoundOf (blocks_of model.now false) known.cost.bound) }
{
    flow_plan_of_blocks();
    weak_duality::<PoolNet<'_>>();
    // The trips of a day are few: it says so.
    let _ = model.trips();
    let FlowPlan {
        paths: _,
        prices,
        class_price,
    } = flow;
    let plan = Plan { columns };
    let bound = plan_cost(&plan);
    match flow_offer(alloc, prices, class_price, bound) {
        Ok(cost) => Ok(KnownPlan { plan, cost }),
        Err(Memory) => Err(Memory),
    }
}

/// A flow plan as a plan of blocks, where each of its paths is a block.
fn flow_blocks(alloc: Global, model: &Day, flow: FlowPlan) -> Result<Option<KnownPlan>, Memory>
    requires { IsFoundFlow model.now flow.paths flow.prices.items flow.class_price }
    ensures known { IfOk result (AreKnownBlocks model.now true) }
    ensures plan { IfOk result (λ found. IfSome found (λ known. IsPlan (blocks_of model.now false) known.plan.columns)) }
    ensures cheap { IfOk result (λ found. IfSome found (λ known. AreCheap known.plan.columns)) }
    ensures feasible { IfOk result (λ found. IfSome found (λ known. IsDualFeasible (blocks_of model.now false) known.cost)) }
    ensures bound { IfOk result (λ found. IfSome found (λ known. IsBoundOf (blocks_of model.now false) known.cost.bound)) }
{
    let net = PoolNet::new(model, Worth::Cost);
    if !are_blocks(&net, flow.paths.as_slice()) {
        return Ok(None);
    }
    let columns = match path_blocks(alloc, &net, flow.paths.as_slice()) {
        Ok(columns) => columns,
        Err(Memory) => return Err(Memory),
    };
    match known_flow(alloc, model, flow, columns) {
        Ok(known) => Ok(Some(known)),
        Err(Memory) => Err(Memory),
    }
}

/// The plan of blocks that is known before any pass with costs: the flow plan, where the words ask for the flow, the day is a flow day, it
/// has a plan of paths, and each path of its flow plan is a block.
pub(crate) fn known_blocks(
    alloc: Global,
    model: &Day,
    asked: bool,
) -> Result<Option<KnownPlan>, Memory>
    ensures known { IfOk result (AreKnownBlocks model.now asked) }
    ensures plan { IfOk result (λ found. IfSome found (λ known. IsPlan (blocks_of model.now false) known.plan.columns)) }
    ensures cheap { IfOk result (λ found. IfSome found (λ known. AreCheap known.plan.columns)) }
    ensures feasible { IfOk result (λ found. IfSome found (λ known. IsDualFeasible (blocks_of model.now false) known.cost)) }
    ensures bound { IfOk result (λ found. IfSome found (λ known. IsBoundOf (blocks_of model.now false) known.cost.bound)) }
{
    if !asked || !is_flow_day(model) {
        return Ok(None);
    }
    match flow(alloc, model) {
        Err(Memory) => Err(Memory),
        Ok(None) => Ok(None),
        Ok(Some(plan)) => flow_blocks(alloc, model, plan),
    }
}
