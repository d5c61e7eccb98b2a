//! Whether the tables of an earlier plan are a plan of the day, whatever places there are.
#![tactic(auto)]

ghost use Rattle.std.specs.Prelude.{◌≡◌, ◌<◌, ◌≤◌, ◌^◌, All, IfOk, length};
ghost use Rattle.plan_core.specs.Limits.{most_items};
ghost use Rattle.cover_core.specs.Plans.{all_items};
ghost use Rattle.block_cut.specs.Legs.{HasWorth};
ghost use Rattle.cert_check.specs.Old.{AreOfDay, HasLawfulBlocks, HasPiecesOnce, HasTripsOnce, IfGood, IsOldAnswer, IsOldPlan, IsStepOf, IsTextAnswer, old_duties, old_pieces};
ghost use Rattle.plan_check.specs.Firsts.{IsTimesFound};

use crate::duties::duty_lists;
use crate::reason::Reason;
use block_cut::cut;
use cover_core::Worth;
use day_model::Day;
use depot_network::PoolNet;
use plan_check::{ItemTimes, first_times, first_unlawful};
use plan_core::{Memory, Piece, Seq};
use plan_read::read_plan;
use std::alloc::Global;
use umlauf_write::{PlanFault, PlanText};
use vdv451_text::Table;

/// What is answered of the tables of an earlier plan.
#[derive(Drop)]
pub enum OldPlan {
    /// They are a plan of the day: what they say.
    Good(PlanText),
    /// The first reason against them.
    Bad(Reason),
}

/// The first trip that does not stand in exactly one block, once.
fn trip_reason(alloc: Global, day: &Day, text: &PlanText) -> Result<Option<Reason>, Memory>
    requires { length (all_items text.now.blocks.columns) < 2 ^ 32 }
    ensures { IfOk result (IsStepOf day.now text.now (HasTripsOnce day.now text.now)) }
{
    let trips = day.trips().len() as u32;
    match first_times(alloc, trips, text.blocks.columns.as_slice())? {
        Some(off) => Ok(Some(Reason::TripTimes {
            fid: day.trip(off.item).fid,
            times: off.count,
        })),
        None => Ok(None),
    }
}

/// The first block that is no block of its pool.
fn block_reason(day: &Day, text: &PlanText) -> Option<Reason>
    requires few { length text.now.blocks.columns < 2 ^ 32 }
    requires trips { HasTripsOnce day.now text.now }
    ensures { IsStepOf day.now text.now (HasLawfulBlocks day.now text.now) result }
{
    let net = PoolNet::new(day, Worth::Cost);
    match first_unlawful(&net, text.blocks.columns.as_slice()) {
        Some(place) => Some(Reason::BlockUnlawful { block: place + 1 }),
        None => None,
    }
}

/// The pieces that the day's cutting rule gives for the blocks.
fn text_pieces(alloc: Global, day: &Day, text: &PlanText) -> Result<Seq<Piece>, Memory>
    requires trips { HasTripsOnce day.now text.now }
    requires blocks { HasLawfulBlocks day.now text.now }
    ensures pieces { IfOk result (λ pieces. pieces ≡ old_pieces day.now text.now) }
    ensures few { IfOk result (λ pieces. length pieces ≤ most_items) }
{
    // The trips of a day are few: it says so.
    let _ = day.trips();
    cut(alloc, day, &text.blocks)
}

/// The first of the pieces of the blocks that does not stand in exactly one duty, once.
fn piece_times(
    alloc: Global,
    day: &Day,
    text: &PlanText,
    pieces: &[Piece],
) -> Result<Option<ItemTimes>, Memory>
    requires pieces { pieces.now ≡ old_pieces day.now text.now }
    requires few { length pieces.now ≤ most_items }
    requires parts { length (all_items (old_duties day.now text.now)) < 2 ^ 32 }
    ensures { IfOk result (IsTimesFound (length pieces.now) (old_duties day.now text.now)) }
{
    let groups = day.params().groups();
    let lists = duty_lists(alloc, groups, pieces, text.duties.as_slice())?;
    first_times(alloc, pieces.len() as u32, lists.as_slice())
}

/// The first piece that does not stand in exactly one duty, once.
fn piece_reason(alloc: Global, day: &Day, text: &PlanText) -> Result<Option<Reason>, Memory>
    requires trips { HasTripsOnce day.now text.now }
    requires blocks { HasLawfulBlocks day.now text.now }
    requires parts { length (all_items (old_duties day.now text.now)) < 2 ^ 32 }
    ensures { IfOk result (IsStepOf day.now text.now (HasPiecesOnce day.now text.now)) }
{
    let pieces = text_pieces(alloc, day, text)?;
    match piece_times(alloc, day, text, pieces.as_slice())? {
        Some(off) => {
            let piece = pieces.as_slice()[off.item as usize];
            Ok(Some(Reason::PieceTimes {
                block: piece.block,
                index: piece.index,
                times: off.count,
            }))
        }
        None => Ok(None),
    }
}

/// The first reason against what tables say.
fn reason_against(alloc: Global, day: &Day, text: &PlanText) -> Result<Option<Reason>, Memory>
    requires blocks { length text.now.blocks.columns < 2 ^ 32 }
    requires items { length (all_items text.now.blocks.columns) < 2 ^ 32 }
    requires parts { length (all_items (old_duties day.now text.now)) < 2 ^ 32 }
    ensures { IfOk result (IsStepOf day.now text.now (IsOldPlan day.now text.now)) }
{
    if let Some(reason) = trip_reason(alloc, day, text)? {
        return Ok(Some(reason));
    }
    if let Some(reason) = block_reason(day, text) {
        return Ok(Some(reason));
    }
    piece_reason(alloc, day, text)
}

/// What is answered of tables that say this.
fn text_answer(alloc: Global, day: &Day, text: PlanText) -> Result<OldPlan, Memory>
    requires blocks { length text.blocks.columns < 2 ^ 32 }
    requires items { length (all_items text.blocks.columns) < 2 ^ 32 }
    requires parts { length (all_items (old_duties day.now text)) < 2 ^ 32 }
    ensures answer { IfOk result (IsTextAnswer day.now text) }
    ensures lists { IfOk result (IfGood (λ text. AreOfDay day.now text.blocks.columns)) }
    ensures worths { IfOk result (IfGood (λ text. All (HasWorth day.now) text.blocks.columns)) }
    ensures few { IfOk result (IfGood (λ text. length text.blocks.columns ≤ most_items)) }
{
    // The trips of a day are few: it says so.
    let _ = day.trips();
    match reason_against(alloc, day, &text)? {
        Some(reason) => Ok(OldPlan::Bad(reason)),
        None => Ok(OldPlan::Good(text)),
    }
}

/// Whether the tables of an earlier plan are a plan of the day, or the first reason against them. Replanning begins with such a plan: it
/// need not keep today's numbers of vehicles and drivers, nor the rules of drivers, and its bounds and other tables are not looked at.
///
/// The reasons are four of those of [`check`](crate::check), each with the same meaning and in the same order: the tables are no plan
/// (`PlanForm`), a trip of the day is not in exactly one block (`TripTimes`), a block is none of its pool (`BlockUnlawful`), or a piece that
/// the day's cutting rule gives for the blocks is not in exactly one duty (`PieceTimes`). Of one kind the first by number is named. A part of
/// a duty that is no piece of the blocks is passed over.
///
/// The blocks of a good plan are lists of trips and pools of the day, at most 3,000, in which each trip stands once and of which each has a
/// worth: they can be cut, and their heads be found. Each table has fewer than 2^32 rows, as one that was read from a file has. It
/// takes the time of reading the tables and cutting the blocks, and a search among all pieces for each part of a duty.
///
/// # Errors
///
/// `Memory` where memory runs out, and for nothing else.
pub fn check_old(alloc: Global, day: &Day, plan: &[Table]) -> Result<OldPlan, Memory>
    requires { All (λ table. length table.rows < 2 ^ 32) plan.now }
    ensures answer { IfOk result (IsOldAnswer day.now plan.now) }
    ensures lists { IfOk result (IfGood (λ text. AreOfDay day.now text.blocks.columns)) }
    ensures worths { IfOk result (IfGood (λ text. All (HasWorth day.now) text.blocks.columns)) }
    ensures few { IfOk result (IfGood (λ text. length text.blocks.columns ≤ most_items)) }
{
    match read_plan(alloc, day, plan) {
        Ok(text) => text_answer(alloc, day, text),
        Err(PlanFault::Form { table, row }) => Ok(OldPlan::Bad(Reason::PlanForm { table, row })),
        Err(PlanFault::Memory) => Err(Memory),
    }
}
