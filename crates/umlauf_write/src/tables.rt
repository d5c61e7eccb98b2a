//! The tables of a plan.

ghost use Rattle.std.specs.Prelude.{◌≡◌, ◌<◌, ◌≤◌, ◌^◌, All, IsTrue, IfOk, length};
ghost use Rattle.plan_core.specs.Limits.{most_items};
ghost use Rattle.cover_core.specs.Cover.{AllBelow};
ghost use Rattle.cover_core.specs.FirstLeast.{AreCheap};
ghost use Rattle.vdv451_text.specs.Plain.{are_plain, is_plain_table};
ghost use Rattle.umlauf_write.specs.Answers.{IsPiece, answer_tables};
ghost use Rattle.umlauf_write.specs.Trips.{HasOneRow};

use crate::answer::Answer;
use crate::blocks::{block_table, cost_table};
use crate::bounds::bound_table;
use crate::duties::{duty_table, part_table};
use crate::legs::leg_table;
use crate::trips::found_table;
use day_model::Day;
use plan_core::{Memory, Seq};
use std::alloc::Global;
use vdv451_text::Table;

/// The seven tables of an answer, in this order. Blocks, duties, the legs of a block and the pieces of a duty are numbered from 1.
///
/// - REC_UMLAUF has the blocks: the version and day type of the day, the block's number (UM_UID), where it begins and ends, and the type of
///   its vehicle.
/// - REC_FRT has the trips of the day by number, as `rec_frt` has them but for UM_UID, which has the numbers of their blocks.
/// - X_UMLAUF has each block's pool (HOF_NR) and cost (KOSTEN).
/// - X_UMLAUF_TEIL has the legs: their kind (ART: 1 pull-out, 2 trip, 3 deadhead, 4 stand, 5 pull-in), the trip (FRT_FID) of a leg that is
///   one, and where and when they begin and end.
/// - X_DIENST has each duty's group (GRUPPE_NR), sign-on and sign-off (BEGINN, ENDE), the seconds driven (LENKZEIT) and its cost.
/// - X_DIENST_STUECK has the pieces of the duties: their block and their index in it (STUECK_NR), where and when they begin and end, and
///   the seconds driven.
/// - X_SCHRANKE has the number or the cost of the plan (WERT) and its bound for each pass: the number of blocks, their cost, the number of
///   duties, and theirs.
///
/// Moments are seconds of the operating day; a sign-on may lie below 0. The blocks stand in printed order, their legs and pieces are those
/// that they have by the rules of legs and cuts, and the duties stand in printed order. Where the way between a group's home and the
/// first or last piece of a duty is missing, sign-on or sign-off is empty. `rec_frt` has exactly one row of the day's version for each
/// trip of the day. `Memory` is the only error.
pub fn plan_tables(
    alloc: Global,
    day: &Day,
    rec_frt: &Table,
    answer: &Answer,
) -> Result<Seq<Table>, Memory>
    requires plain { IsTrue (is_plain_table rec_frt.now) }
    requires one { All (λ trip. HasOneRow rec_frt.now day.now.kind.version trip.fid) day.now.trips }
    requires fids { All (λ trip. trip.fid ≤ 10 ^ 18) day.now.trips }
    requires few_blocks { length answer.now.blocks.columns ≤ most_items }
    requires pools { All (λ block. block.class < length day.now.params.pools) answer.now.blocks.columns }
    requires trips { All (λ block. AllBelow (length day.now.trips) block.items) answer.now.blocks.columns }
    requires cheap_blocks { AreCheap answer.now.blocks.columns }
    requires pieces { All IsPiece answer.now.pieces }
    requires few_duties { length answer.now.duties.columns ≤ most_items }
    requires groups { All (λ duty. duty.class < length day.now.params.groups) answer.now.duties.columns }
    requires parts { All (λ duty. length duty.items ≤ most_items) answer.now.duties.columns }
    requires cheap_duties { AreCheap answer.now.duties.columns }
    requires passes { length answer.now.bounds ≤ 4 }
    requires bounds { All (λ bound. bound < 2 ^ 63) answer.now.bounds }
    ensures tables { IfOk result (λ tables. tables ≡ answer_tables day.now rec_frt.now answer.now) }
    ensures plain { IfOk result (λ tables. IsTrue (are_plain tables)) }
{
    let blocks = answer.blocks.columns.as_slice();
    let duties = answer.duties.columns.as_slice();
    let pieces = answer.pieces.as_slice();
    let bounds = answer.bounds.as_slice();
    let mut tables = Seq::new(alloc);
    tables.push(block_table(alloc, day, blocks)?)?;
    tables.push(found_table(alloc, day, rec_frt, blocks)?)?;
    tables.push(cost_table(alloc, day, blocks)?)?;
    tables.push(leg_table(alloc, day, answer.legs.as_slice())?)?;
    tables.push(duty_table(alloc, day, pieces, duties)?)?;
    tables.push(part_table(alloc, pieces, duties)?)?;
    tables.push(bound_table(alloc, &answer.blocks, &answer.duties, bounds)?)?;
    Ok(tables)
}
