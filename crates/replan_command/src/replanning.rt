//! The new plan of a day from a moment on.

ghost use Rattle.std.specs.Prelude.{◌≡◌, ◌≤◌, All, IfOk, IfErr, length};
ghost use Rattle.plan_core.specs.Limits.{most_items};
ghost use Rattle.cover_core.specs.FirstLeast.{AreCheap};
ghost use Rattle.price_rounds.specs.Efforts.{IsEffort};
ghost use Rattle.cover_plan.specs.Endings.{numbers_of};
ghost use Rattle.block_cut.specs.Cuts.{IsShift, pieces_of_plan};
ghost use Rattle.plan_command.specs.Planning.{side_of};
ghost use Rattle.replan_command.specs.Replanning.{IsReplanned, IsRestCause, replan_of};
ghost use Rattle.replan_command.specs.Steps.{AreNewBlocks, IsEarlierPlan};

use crate::blocks::new_blocks;
use crate::duties::new_duties;
use cover_plan::Planned;
use day_model::Day;
use plan_command::{DayPlan, PlanFault, block_pieces};
use plan_core::{Gate, Memory};
use price_rounds::Effort;
use std::alloc::Global;
use std::thread::Threads;
use umlauf_write::PlanText;

/// The new plan of a day from its new blocks.
fn with_duties<R: Threads + Sync, G: Gate + Sync>(
    rt: &R,
    alloc: Global,
    model: &Day,
    blocks: Planned,
    earlier: &PlanText,
    moment: u32,
    effort: &Effort,
    gate: &G,
) -> Result<DayPlan, PlanFault>
    requires effort { IsEffort effort.now }
    requires earlier { IsEarlierPlan model.now earlier.now }
    requires blocks { AreNewBlocks (replan_of model.now earlier.now moment) (numbers_of effort.now) (side_of blocks) }
    requires cheap { AreCheap blocks.plan.columns }
    ensures plan { IfOk result (λ plan. IsReplanned (replan_of model.now earlier.now moment) (numbers_of effort.now) (side_of plan.blocks) (side_of plan.duties)) }
    ensures pieces { IfOk result (λ plan. plan.pieces ≡ pieces_of_plan model.now plan.blocks.plan.columns) }
    ensures few { IfOk result (λ plan. length plan.pieces ≤ most_items) }
    ensures shifts { IfOk result (λ plan. All IsShift plan.pieces) }
    ensures cheap_blocks { IfOk result (λ plan. AreCheap plan.blocks.plan.columns) }
    ensures cheap_duties { IfOk result (λ plan. AreCheap plan.duties.plan.columns) }
    ensures cause { IfErr result (IsRestCause (replan_of model.now earlier.now moment) (numbers_of effort.now)) }
{
    let pieces = match block_pieces(alloc, model, &blocks.plan) {
        Ok(pieces) => pieces,
        Err(Memory) => return Err(PlanFault::Memory),
    };
    match new_duties(
        rt, alloc, model, &pieces, &blocks, earlier, moment, effort, gate,
    ) {
        Ok(duties) => Ok(DayPlan {
            blocks,
            pieces,
            duties,
        }),
        Err(fault) => Err(fault),
    }
}

/// Plans a day anew from a moment on: blocks, and duties over their pieces, that keep what has begun before it in an earlier plan.
pub(crate) fn replan_day<R: Threads + Sync, G: Gate + Sync>(
    rt: &R,
    alloc: Global,
    model: &Day,
    earlier: &PlanText,
    moment: u32,
    effort: &Effort,
    gate: &G,
) -> Result<DayPlan, PlanFault>
    requires effort { IsEffort effort.now }
    requires earlier { IsEarlierPlan model.now earlier.now }
    ensures plan { IfOk result (λ plan. IsReplanned (replan_of model.now earlier.now moment) (numbers_of effort.now) (side_of plan.blocks) (side_of plan.duties)) }
    ensures pieces { IfOk result (λ plan. plan.pieces ≡ pieces_of_plan model.now plan.blocks.plan.columns) }
    ensures few { IfOk result (λ plan. length plan.pieces ≤ most_items) }
    ensures shifts { IfOk result (λ plan. All IsShift plan.pieces) }
    ensures cheap_blocks { IfOk result (λ plan. AreCheap plan.blocks.plan.columns) }
    ensures cheap_duties { IfOk result (λ plan. AreCheap plan.duties.plan.columns) }
    ensures cause { IfErr result (IsRestCause (replan_of model.now earlier.now moment) (numbers_of effort.now)) }
{
    match new_blocks(rt, alloc, model, earlier, moment, effort, gate) {
        Ok(blocks) => with_duties(rt, alloc, model, blocks, earlier, moment, effort, gate),
        Err(fault) => Err(fault),
    }
}
