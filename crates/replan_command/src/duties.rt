//! The duties of a day that is planned anew.

ghost use Rattle.std.specs.Prelude.{◌≡◌, ◌<◌, ◌≤◌, Some, All, IfOk, IfErr, length, false};
ghost use Rattle.plan_core.specs.Limits.{most_items};
ghost use Rattle.cover_core.specs.FirstLeast.{AreCheap};
ghost use Rattle.price_rounds.specs.Efforts.{IsEffort};
ghost use Rattle.cover_plan.specs.Endings.{numbers_of};
ghost use Rattle.block_cut.specs.Cuts.{IsShift, pieces_of_plan};
ghost use Rattle.duty_network.specs.Duties.{duties as duties_of, is_count};
ghost use Rattle.cover_rest.specs.Keeping.{AreHeads};
ghost use Rattle.cover_rest.specs.Laws.{StandForAll};
ghost use Rattle.duty_rest.specs.Heads.{duty_heads_of};
ghost use Rattle.duty_rest.specs.Rest.{begun_of, rests};
ghost use Rattle.plan_command.specs.Planning.{side_of};
ghost use Rattle.replan_command.specs.Replanning.{IsRestCause, piece_name as piece_name_of, replan_of};
ghost use Rattle.replan_command.specs.Steps.{AreNewBlocks, AreNewDuties, IsEarlierPlan, items_of_duties};

use crate::rest::{Rest, new_side};
use cover_core::{Plan, Worth};
use cover_plan::{Counting, Planned};
use cover_rest::bodies_stand_for_all;
use day_method::Side;
use day_model::Day;
use duty_network::{DutyNet, counted_duties};
use duty_rest::{DutyRest, duty_heads};
use plan_command::{ItemName, PlanFault, duty_net};
use plan_core::{Gate, Memory, Piece, Seq};
use price_rounds::Effort;
use std::alloc::Global;
use std::thread::Threads;
use umlauf_write::PlanText;

/// What is left of the duties over the pieces of new blocks.
fn duties_left<'n>(
    alloc: Global,
    net: &'n DutyNet<'n>,
    blocks: &Plan,
    earlier: &PlanText,
    moment: u32,
) -> Result<DutyRest<'n>, Memory>
    requires { AreHeads (duties_of net.now) (begun_of (duty_heads_of net.now blocks.now.columns earlier.now moment)) }
    ensures { IfOk result (λ rest. rest ≡ record { net = net.now; heads = duty_heads_of net.now blocks.now.columns earlier.now moment; moment = moment }) }
{
    let heads = duty_heads(alloc, net, blocks, earlier, moment)?;
    DutyRest::new(alloc, net, heads, moment)
}

/// The name of an item of a rest: that of its first piece.
fn piece_name(rest: &DutyRest<'_>, item: u32) -> ItemName
    requires item { item < (rests rest.now).items }
    requires stand { StandForAll (length rest.now.net.pieces) (items_of_duties rest.now) }
    ensures { piece_name_of rest.now.net.pieces (items_of_duties rest.now) item ≡ Some result }
{
    let first = rest.pieces_of(item)[0];
    let piece = rest.net().piece(first);
    ItemName::Piece {
        block: piece.block,
        index: piece.index,
    }
}

impl Rest for DutyRest<'_> {
    ghost items_of = { items_of_duties };

    ghost stand_for_all = { λ rest. StandForAll (length rest.net.pieces) (items_of_duties rest) };

    ghost name_of = { λ rest. piece_name_of rest.net.pieces (items_of_duties rest) };

    fn name(&self, item: u32) -> ItemName {
        piece_name(self, item)
    }

    fn written_out(&self, alloc: Global, plan: &Plan) -> Result<Plan, Memory> {
        self.expand(alloc, plan)
    }
}

/// The new duties over the pieces of new blocks, in printed order: those that have begun before the moment in the earlier plan go on as they
/// began, and the others have no piece that begins before it.
pub(crate) fn new_duties<R: Threads + Sync, G: Gate + Sync>(
    rt: &R,
    alloc: Global,
    model: &Day,
    pieces: &Seq<Piece>,
    blocks: &Planned,
    earlier: &PlanText,
    moment: u32,
    effort: &Effort,
    gate: &G,
) -> Result<Planned, PlanFault>
    requires effort { IsEffort effort.now }
    requires earlier { IsEarlierPlan model.now earlier.now }
    requires blocks { AreNewBlocks (replan_of model.now earlier.now moment) (numbers_of effort.now) (side_of blocks.now) }
    requires pieces { pieces.now ≡ pieces_of_plan model.now blocks.now.plan.columns }
    requires few { length pieces.now ≤ most_items }
    requires shifts { All IsShift pieces.now }
    ensures duties { IfOk result (λ duties. AreNewDuties (replan_of model.now earlier.now moment) (numbers_of effort.now) blocks.now.plan.columns (side_of duties)) }
    ensures cheap { IfOk result (λ duties. AreCheap duties.plan.columns) }
    ensures cause { IfErr result (IsRestCause (replan_of model.now earlier.now moment) (numbers_of effort.now)) }
{
    counted_duties();
    bodies_stand_for_all();
    // Trips are daily: the day says so.
    let _ = model.trips();
    let params = model.params();
    let count_net = match duty_net(alloc, pieces, params, Worth::Count) {
        Ok(net) => net,
        Err(Memory) => return Err(PlanFault::Memory),
    };
    let cost_net = match duty_net(alloc, pieces, params, Worth::Cost) {
        Ok(net) => net,
        Err(Memory) => return Err(PlanFault::Memory),
    };
    let counted = match duties_left(alloc, &count_net, &blocks.plan, earlier, moment) {
        Ok(rest) => rest,
        Err(Memory) => return Err(PlanFault::Memory),
    };
    let costed = match duties_left(alloc, &cost_net, &blocks.plan, earlier, moment) {
        Ok(rest) => rest,
        Err(Memory) => return Err(PlanFault::Memory),
    };
    new_side(
        rt,
        alloc,
        Side::Drivers,
        &counted,
        &costed,
        effort,
        Counting::Half,
        gate,
    )
}
