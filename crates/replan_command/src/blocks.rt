//! The blocks of a day that is planned anew.

ghost use Rattle.std.specs.Prelude.{◌≡◌, ◌<◌, Some, IfOk, IfErr, length};
ghost use Rattle.cover_core.specs.FirstLeast.{AreCheap};
ghost use Rattle.price_rounds.specs.Efforts.{IsEffort};
ghost use Rattle.cover_plan.specs.Endings.{numbers_of};
ghost use Rattle.depot_network.specs.Network.{is_count};
ghost use Rattle.cover_rest.specs.Laws.{StandForAll};
ghost use Rattle.block_rest.specs.Heads.{AreOfDay, heads_of};
ghost use Rattle.block_rest.specs.Laws.{IsEachOnce};
ghost use Rattle.block_rest.specs.Rest.{rests};
ghost use Rattle.plan_command.specs.Planning.{side_of};
ghost use Rattle.replan_command.specs.Replanning.{IsRestCause, replan_of, trip_name as trip_name_of};
ghost use Rattle.replan_command.specs.Steps.{AreNewBlocks, IsEarlierPlan, items_of_blocks};

use crate::rest::{Rest, new_side};
use block_rest::{BlockRest, heads, heads_are_heads};
use cover_core::{Plan, Worth};
use cover_plan::{Counting, Planned};
use cover_rest::bodies_stand_for_all;
use day_method::Side;
use day_model::Day;
use depot_network::counted_blocks;
use plan_command::{ItemName, PlanFault};
use plan_core::{Gate, Memory};
use price_rounds::Effort;
use std::alloc::Global;
use std::thread::Threads;
use umlauf_write::PlanText;

/// What is left of the blocks of a day from a moment on, each worth its cost or 1.
fn blocks_left<'d>(
    alloc: Global,
    model: &'d Day,
    earlier: &Plan,
    moment: u32,
    worth: Worth,
) -> Result<BlockRest<'d>, Memory>
    requires lists { AreOfDay model.now earlier.now.columns }
    requires once { IsEachOnce model.now earlier.now.columns }
    ensures { IfOk result (λ rest. rest ≡ record { day = model.now; counts = is_count worth; heads = heads_of model.now moment earlier.now.columns; moment = moment }) }
{
    heads_are_heads();
    let heads = heads(alloc, model, earlier, moment)?;
    BlockRest::new(alloc, model, heads, moment, worth)
}

/// The name of an item of a rest: that of its first trip.
fn trip_name(rest: &BlockRest<'_>, item: u32) -> ItemName
    requires item { item < (rests rest.now).items }
    requires stand { StandForAll (length rest.now.day.trips) (items_of_blocks rest.now) }
    ensures { trip_name_of rest.now.day.trips (items_of_blocks rest.now) item ≡ Some result }
{
    let first = rest.trips_of(item)[0];
    ItemName::Trip {
        fid: rest.day().trip(first).fid,
    }
}

impl Rest for BlockRest<'_> {
    ghost items_of = { items_of_blocks };

    ghost stand_for_all = { λ rest. StandForAll (length rest.day.trips) (items_of_blocks rest) };

    ghost name_of = { λ rest. trip_name_of rest.day.trips (items_of_blocks rest) };

    fn name(&self, item: u32) -> ItemName {
        trip_name(self, item)
    }

    fn written_out(&self, alloc: Global, plan: &Plan) -> Result<Plan, Memory> {
        self.expand(alloc, plan)
    }
}

/// The new blocks of a day from a moment on, in printed order: those that have begun before it in the earlier plan go on as they began, and the
/// others leave their depots at the moment or later.
pub(crate) fn new_blocks<R: Threads + Sync, G: Gate + Sync>(
    rt: &R,
    alloc: Global,
    model: &Day,
    earlier: &PlanText,
    moment: u32,
    effort: &Effort,
    gate: &G,
) -> Result<Planned, PlanFault>
    requires effort { IsEffort effort.now }
    requires earlier { IsEarlierPlan model.now earlier.now }
    ensures blocks { IfOk result (λ blocks. AreNewBlocks (replan_of model.now earlier.now moment) (numbers_of effort.now) (side_of blocks)) }
    ensures cheap { IfOk result (λ blocks. AreCheap blocks.plan.columns) }
    ensures cause { IfErr result (IsRestCause (replan_of model.now earlier.now moment) (numbers_of effort.now)) }
{
    counted_blocks();
    heads_are_heads();
    bodies_stand_for_all();
    let counted = match blocks_left(alloc, model, &earlier.blocks, moment, Worth::Count) {
        Ok(rest) => rest,
        Err(Memory) => return Err(PlanFault::Memory),
    };
    let costed = match blocks_left(alloc, model, &earlier.blocks, moment, Worth::Cost) {
        Ok(rest) => rest,
        Err(Memory) => return Err(PlanFault::Memory),
    };
    new_side(
        rt,
        alloc,
        Side::Vehicles,
        &counted,
        &costed,
        effort,
        Counting::Whole,
        gate,
    )
}
