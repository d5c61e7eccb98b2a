//! The blocks and duties of a day.

ghost use Rattle.std.specs.Prelude.{◌≡◌, ◌<◌, ◌≤◌, ℕ, true, false, List, Some, None, All, IfOk, IfErr, IfSome, length};
ghost use Rattle.plan_core.specs.Limits.{most_items};
ghost use Rattle.cover_core.specs.declared.Column.{Column as PlanColumn};
ghost use Rattle.cover_core.specs.FirstLeast.{AreCheap};
ghost use Rattle.cover_core.specs.Laws.{IsCountOf};
ghost use Rattle.cover_core.specs.Plans.{IsPlan};
ghost use Rattle.price_rounds.specs.Efforts.{IsEffort};
ghost use Rattle.cover_plan.specs.Endings.{numbers_of};
ghost use Rattle.cover_plan.specs.Ends.{IsCause, IsCountCause};
ghost use Rattle.price_rounds.specs.Rounds.{IsBoundOf};
ghost use Rattle.depot_network.specs.Network.{blocks_of};
ghost use Rattle.block_cut.specs.Cuts.{IsShift, pieces_of_plan};
ghost use Rattle.plan_params.specs.Limits.{HaveRanges};
ghost use Rattle.duty_network.specs.Duties.{duties as duties_of, is_count};
ghost use Rattle.plan_command.specs.Planning.{ArePlannedBlocks, IsDayPlan, IsDualFeasible, IsPlanCauseOver, IsPlannedSide, IsThis, asked_of, side_of};
ghost use Rattle.plan_command.specs.Steps.{IsBlocksFault, IsDutiesFault, IsItemBelow, IsSideCause};

use crate::day_plan::DayPlan;
use crate::fault::{ItemName, PlanFault};
use crate::flow::known_blocks;
use crate::method::Method;
use block_cut::cut;
use cover_core::{Plan, Pricer, Worth};
use cover_plan::{Counting, KnownPlan, PlanFault as CoverFault, Planned, count_of, plan_of};
use day_method::Side;
use day_model::Day;
use depot_network::{PoolNet, counted_blocks};
use duty_network::{DutyNet, counted_duties};
use duty_pricing::DutyPricer;
use one_pool_flow::flow_is_one;
use path_pricing::PathPricer;
use plan_core::{Gate, Memory, Piece, Seq};
use plan_params::Params;
use price_rounds::Effort;
use std::alloc::Global;
use std::thread::Threads;
use umlauf_write::in_printed_order;

/// One side of a day: its plan in printed order, with the offers that bound it.
fn planned_side<R: Threads + Sync, P: Pricer + Sync, G: Gate + Sync>(
    rt: &R,
    alloc: Global,
    counted: &P,
    costed: &P,
    effort: &Effort,
    counting: Counting,
    gate: &G,
) -> Result<Planned, CoverFault>
    requires effort { IsEffort effort.now }
    requires counts { IsCountOf (P.problem costed.now) (P.problem counted.now) }
    ensures side { IfOk result (λ planned. IsPlannedSide (P.problem counted.now) (P.problem costed.now) (numbers_of effort.now) (IsThis None) (side_of planned)) }
    ensures cheap { IfOk result (λ planned. AreCheap planned.plan.columns) }
    ensures cause { IfErr result (IsCause (P.problem counted.now) (P.problem costed.now) (numbers_of effort.now)) }
{
    match plan_of(rt, alloc, counted, costed, effort, counting, gate) {
        Err(fault) => Err(fault),
        Ok(Planned { plan, count, cost }) => match in_printed_order(plan) {
            Err(Memory) => Err(CoverFault::Memory),
            Ok(plan) => Ok(Planned { plan, count, cost }),
        },
    }
}

/// One side of a day whose plan is known: the pass with each worth 1, and the known plan in printed order.
fn known_side<R: Threads + Sync, P: Pricer + Sync, G: Gate + Sync>(
    rt: &R,
    alloc: Global,
    counted: &P,
    costed: &P,
    known: KnownPlan,
    effort: &Effort,
    gate: &G,
) -> Result<Planned, CoverFault>
    requires effort { IsEffort effort.now }
    requires counts { IsCountOf (P.problem costed.now) (P.problem counted.now) }
    requires plan { IsPlan (P.problem costed.now) known.plan.columns }
    requires cheap { AreCheap known.plan.columns }
    requires feasible { IsDualFeasible (P.problem costed.now) known.cost }
    requires bound { IsBoundOf (P.problem costed.now) known.cost.bound }
    ensures side { IfOk result (λ planned. IsPlannedSide (P.problem counted.now) (P.problem costed.now) (numbers_of effort.now) (IsThis (Some known)) (side_of planned)) }
    ensures cheap { IfOk result (λ planned. AreCheap planned.plan.columns) }
    ensures cause { IfErr result (IsCountCause (P.problem counted.now) (P.problem costed.now) (numbers_of effort.now)) }
{
    let KnownPlan { plan, cost } = known;
    match count_of(rt, alloc, counted, costed, effort, Counting::Whole, gate) {
        Err(fault) => Err(fault),
        Ok(count) => match in_printed_order(plan) {
            Err(Memory) => Err(CoverFault::Memory),
            Ok(plan) => Ok(Planned { plan, count, cost }),
        },
    }
}

/// One side of a day, of which a plan may be known.
fn side_by<R: Threads + Sync, P: Pricer + Sync, G: Gate + Sync>(
    rt: &R,
    alloc: Global,
    counted: &P,
    costed: &P,
    known: Option<KnownPlan>,
    effort: &Effort,
    gate: &G,
) -> Result<Planned, CoverFault>
    requires effort { IsEffort effort.now }
    requires counts { IsCountOf (P.problem costed.now) (P.problem counted.now) }
    requires plan { IfSome known (λ known. IsPlan (P.problem costed.now) known.plan.columns) }
    requires cheap { IfSome known (λ known. AreCheap known.plan.columns) }
    requires feasible { IfSome known (λ known. IsDualFeasible (P.problem costed.now) known.cost) }
    requires bound { IfSome known (λ known. IsBoundOf (P.problem costed.now) known.cost.bound) }
    ensures side { IfOk result (λ planned. IsPlannedSide (P.problem counted.now) (P.problem costed.now) (numbers_of effort.now) (IsThis known) (side_of planned)) }
    ensures cheap { IfOk result (λ planned. AreCheap planned.plan.columns) }
    ensures cause { IfErr result (IsSideCause (P.problem counted.now) (P.problem costed.now) (numbers_of effort.now) known) }
{
    match known {
        Some(known) => known_side(rt, alloc, counted, costed, known, effort, gate),
        None => planned_side(rt, alloc, counted, costed, effort, Counting::Whole, gate),
    }
}

/// Why a day has no blocks.
fn blocks_fault(model: &Day, fault: CoverFault) -> PlanFault
    requires item { IsItemBelow (length model.now.trips) fault }
    ensures { IsBlocksFault model.now.trips fault result }
{
    let side = Side::Vehicles;
    match fault {
        CoverFault::NoPlan { bound, places } => PlanFault::NoPlan {
            side,
            bound,
            places,
        },
        CoverFault::NotPlaced { item, partial } => PlanFault::NotPlaced {
            side,
            item,
            name: ItemName::Trip {
                fid: model.trip(item).fid,
            },
            partial,
        },
        CoverFault::Memory => PlanFault::Memory,
    }
}

/// The blocks of a day.
fn planned_blocks<R: Threads + Sync, G: Gate + Sync>(
    rt: &R,
    alloc: Global,
    model: &Day,
    method: &Method,
    gate: &G,
) -> Result<Planned, PlanFault>
    requires effort { IsEffort method.now.effort }
    ensures blocks { IfOk result (λ blocks. ArePlannedBlocks model.now (asked_of method.now) (side_of blocks)) }
    ensures cheap { IfOk result (λ blocks. AreCheap blocks.plan.columns) }
    ensures cause { IfErr result (IsPlanCauseOver model.now (asked_of method.now)) }
{
    counted_blocks();
    let known = match known_blocks(alloc, model, method.flow) {
        Ok(known) => known,
        Err(Memory) => return Err(PlanFault::Memory),
    };
    let count_net = PoolNet::new(model, Worth::Count);
    let cost_net = PoolNet::new(model, Worth::Cost);
    let counted = PathPricer::new(&count_net);
    let costed = PathPricer::new(&cost_net);
    match side_by(rt, alloc, &counted, &costed, known, &method.effort, gate) {
        Ok(blocks) => Ok(blocks),
        Err(fault) => Err(blocks_fault(model, fault)),
    }
}

/// The duties over pieces, in memory of their own, each worth its cost or 1. There are at most 3,000 pieces, as [`block_pieces`] gives them.
/// `Memory` is the only error.
pub fn duty_net<'p>(
    alloc: Global,
    pieces: &Seq<Piece>,
    params: &'p Params,
    worth: Worth,
) -> Result<DutyNet<'p>, Memory>
    requires few { length pieces.now ≤ most_items }
    requires shifts { All IsShift pieces.now }
    requires params { HaveRanges params.now }
    ensures { IfOk result (λ net. net ≡ record { pieces = pieces.now; params = params.now; counts = is_count worth }) }
{
    let pieces = pieces.with_items(pieces.as_slice())?;
    DutyNet::new(alloc, pieces, params, worth)
}

/// The duties over pieces.
fn planned_duties<R: Threads + Sync, G: Gate + Sync>(
    rt: &R,
    alloc: Global,
    pieces: &Seq<Piece>,
    params: &Params,
    effort: &Effort,
    gate: &G,
) -> Result<Planned, CoverFault>
    requires effort { IsEffort effort.now }
    requires few { length pieces.now ≤ most_items }
    requires shifts { All IsShift pieces.now }
    requires params { HaveRanges params.now }
    ensures duties { IfOk result (λ duties. IsPlannedSide (duties_of (record { pieces = pieces.now; params = params.now; counts = true })) (duties_of (record { pieces = pieces.now; params = params.now; counts = false })) (numbers_of effort.now) (IsThis None) (side_of duties)) }
    ensures cheap { IfOk result (λ duties. AreCheap duties.plan.columns) }
    ensures cause { IfErr result (IsCause (duties_of (record { pieces = pieces.now; params = params.now; counts = true })) (duties_of (record { pieces = pieces.now; params = params.now; counts = false })) (numbers_of effort.now)) }
{
    counted_duties();
    let count_net = match duty_net(alloc, pieces, params, Worth::Count) {
        Ok(net) => net,
        Err(Memory) => return Err(CoverFault::Memory),
    };
    let cost_net = match duty_net(alloc, pieces, params, Worth::Cost) {
        Ok(net) => net,
        Err(Memory) => return Err(CoverFault::Memory),
    };
    let counted = DutyPricer::new(&count_net);
    let costed = DutyPricer::new(&cost_net);
    planned_side(rt, alloc, &counted, &costed, effort, Counting::Half, gate)
}

/// Why there are no duties over pieces.
fn duties_fault(pieces: &[Piece], fault: CoverFault) -> PlanFault
    requires item { IsItemBelow (length pieces.now) fault }
    ensures { IsDutiesFault pieces.now fault result }
{
    let side = Side::Drivers;
    match fault {
        CoverFault::NoPlan { bound, places } => PlanFault::NoPlan {
            side,
            bound,
            places,
        },
        CoverFault::NotPlaced { item, partial } => {
            let piece = pieces[item as usize];
            PlanFault::NotPlaced {
                side,
                item,
                name: ItemName::Piece {
                    block: piece.block,
                    index: piece.index,
                },
                partial,
            }
        }
        CoverFault::Memory => PlanFault::Memory,
    }
}

/// The pieces that the blocks of a plan of a day are cut into, by start, block and index. `Memory` is the only error.
pub fn block_pieces(alloc: Global, model: &Day, blocks: &Plan) -> Result<Seq<Piece>, Memory>
    requires plan { IsPlan (blocks_of model.now false) blocks.now.columns }
    ensures pieces { IfOk result (λ pieces. pieces ≡ pieces_of_plan model.now blocks.now.columns) }
    ensures shifts { IfOk result (λ pieces. All IsShift pieces) }
    ensures few { IfOk result (λ pieces. length pieces ≤ most_items) }
{
    // The trips of a day are few: it says so.
    let _ = model.trips();
    cut(alloc, model, blocks)
}

/// The plan of a day from its blocks.
fn with_duties<R: Threads + Sync, G: Gate + Sync>(
    rt: &R,
    alloc: Global,
    model: &Day,
    blocks: Planned,
    method: &Method,
    gate: &G,
) -> Result<DayPlan, PlanFault>
    requires effort { IsEffort method.now.effort }
    requires blocks { ArePlannedBlocks model.now (asked_of method.now) (side_of blocks) }
    requires cheap { AreCheap blocks.plan.columns }
    ensures plan { IfOk result (λ plan. IsDayPlan model.now (asked_of method.now) (side_of plan.blocks) (side_of plan.duties)) }
    ensures pieces { IfOk result (λ plan. plan.pieces ≡ pieces_of_plan model.now plan.blocks.plan.columns) }
    ensures few { IfOk result (λ plan. length plan.pieces ≤ most_items) }
    ensures shifts { IfOk result (λ plan. All IsShift plan.pieces) }
    ensures cheap_blocks { IfOk result (λ plan. AreCheap plan.blocks.plan.columns) }
    ensures cheap_duties { IfOk result (λ plan. AreCheap plan.duties.plan.columns) }
    ensures cause { IfErr result (IsPlanCauseOver model.now (asked_of method.now)) }
{
    flow_is_one();
    let pieces = match block_pieces(alloc, model, &blocks.plan) {
        Ok(pieces) => pieces,
        Err(Memory) => return Err(PlanFault::Memory),
    };
    match planned_duties(rt, alloc, &pieces, model.params(), &method.effort, gate) {
        Ok(duties) => Ok(DayPlan {
            blocks,
            pieces,
            duties,
        }),
        Err(fault) => Err(duties_fault(pieces.as_slice(), fault)),
    }
}

/// Plans a day: vehicle blocks of its trips, and driver duties over the pieces that the blocks are cut into.
///
/// For each side there is a pass with each worth 1, which bounds the number of columns of every plan; a pass with costs, which bounds
/// their costs; rounding and exchange. What is given is defined without workers and gates, and the definition admits one plan or one
/// refusal alone, unless the effort is to climb: then both sides are planned by climbing, and the promises are the same but for that. Where
/// the flow is asked for, the day has one pool, and each path of its flow plan is a block, these paths are the blocks, and the bound of their
/// cost is their cost: no pass with costs is made for them. The effort is in its ranges.
///
/// # Errors
///
/// `NoPlan` exactly where the kept bound on the number of a side is above its vehicles or drivers; then there are no blocks of the day, or
/// no duties over the pieces of the blocks that were planned. `NotPlaced` exactly where rounding leaves a trip or a piece, which does not
/// happen where each of them alone has a worth in a pool or group that is large enough for all. Blocks come before duties. And `Memory`.
pub fn plan_day<R: Threads + Sync, G: Gate + Sync>(
    rt: &R,
    alloc: Global,
    model: &Day,
    method: &Method,
    gate: &G,
) -> Result<DayPlan, PlanFault>
    requires effort { IsEffort method.now.effort }
    ensures plan { IfOk result (λ plan. IsDayPlan model.now (asked_of method.now) (side_of plan.blocks) (side_of plan.duties)) }
    ensures pieces { IfOk result (λ plan. plan.pieces ≡ pieces_of_plan model.now plan.blocks.plan.columns) }
    ensures few { IfOk result (λ plan. length plan.pieces ≤ most_items) }
    ensures shifts { IfOk result (λ plan. All IsShift plan.pieces) }
    ensures cheap_blocks { IfOk result (λ plan. AreCheap plan.blocks.plan.columns) }
    ensures cheap_duties { IfOk result (λ plan. AreCheap plan.duties.plan.columns) }
    ensures cause { IfErr result (IsPlanCauseOver model.now (asked_of method.now)) }
{
    match planned_blocks(rt, alloc, model, method, gate) {
        Ok(blocks) => with_duties(rt, alloc, model, blocks, method, gate),
        Err(fault) => Err(fault),
    }
}
