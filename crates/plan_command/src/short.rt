//! The short text of the plan of a day: how many trips, blocks, pieces and duties it has, and the bounds.

ghost use Rattle.std.specs.Prelude.{◌≡◌, ◌<◌, ◌≤◌, All, IsTrue, IfOk, IfErr, length, slice_index_or, true};
ghost use Rattle.plan_core.specs.Limits.{most_items};
ghost use Rattle.vdv451_text.specs.Plain.{are_plain, is_plain_table, text};
ghost use Rattle.price_rounds.specs.Efforts.{IsEffort};
ghost use Rattle.block_cut.specs.Cuts.{IsShift, pieces_of_plan};
ghost use Rattle.umlauf_write.specs.Answers.{bound_table as bound_table_of};
ghost use Rattle.plan_command.specs.Planning.{IsPlanCauseOver, asked_of, side_of};
ghost use Rattle.plan_command.specs.PlanText.{HasTripRows, IsPrintable, four_bounds};
ghost use Rattle.plan_command.specs.ShortText.{IsShortTextOver, count_table as count_table_of, short_tables};

use crate::day_plan::DayPlan;
use crate::fault::PlanFault;
use crate::method::Method;
use crate::planning::plan_day;
use crate::writing::tables_of;
use day_model::Day;
use number_tables::{number_row, number_table};
use plan_core::{Bytes, Gate, Memory, Seq};
use std::alloc::Global;
use std::thread::Threads;
use vdv451_text::{Table, write_tables};

/// The table X_KURZ: how many trips, blocks, pieces and duties there are.
fn count_table(
    alloc: Global,
    trips: usize,
    blocks: usize,
    pieces: usize,
    duties: usize,
) -> Result<Table, Memory>
    requires trips { trips ≤ most_items }
    requires blocks { blocks ≤ most_items }
    requires pieces { pieces ≤ most_items }
    requires duties { duties ≤ most_items }
    ensures table { IfOk result (λ table. table ≡ count_table_of trips blocks pieces duties) }
    ensures plain { IfOk result (λ table. is_plain_table table ≡ true) }
{
    let mut rows = Seq::new(alloc);
    rows.push(number_row(
        alloc,
        &[
            Some(trips as u64),
            Some(blocks as u64),
            Some(pieces as u64),
            Some(duties as u64),
        ],
    )?)?;
    number_table(
        alloc,
        "X_KURZ",
        &["FAHRTEN", "UMLAEUFE", "STUECKE", "DIENSTE"],
        rows,
    )
}

/// The table X_SCHRANKE, which is the last one of a plan's tables.
fn bound_table(alloc: Global, model: &Day, rec_frt: &Table, plan: DayPlan) -> Result<Table, Memory>
    requires plain { IsTrue (is_plain_table rec_frt.now) }
    requires trips { HasTripRows model.now rec_frt.now }
    requires printable { IsPrintable model.now (side_of plan.blocks) (side_of plan.duties) }
    requires pieces { plan.pieces ≡ pieces_of_plan model.now plan.blocks.plan.columns }
    requires shifts { All IsShift plan.pieces }
    ensures table { IfOk result (λ table. table ≡ bound_table_of plan.blocks.plan.columns plan.duties.plan.columns (four_bounds (side_of plan.blocks) (side_of plan.duties))) }
    ensures plain { IfOk result (λ table. is_plain_table table ≡ true) }
{
    let mut tables = tables_of(alloc, model, rec_frt, plan)?.into_vec();
    Ok(tables.swap_remove(6))
}

/// The short text of a plan that can be printed.
fn short_text_of(
    alloc: Global,
    model: &Day,
    rec_frt: &Table,
    plan: DayPlan,
) -> Result<Bytes, Memory>
    requires plain { IsTrue (is_plain_table rec_frt.now) }
    requires trips { HasTripRows model.now rec_frt.now }
    requires few_trips { length model.now.trips ≤ most_items }
    requires printable { IsPrintable model.now (side_of plan.blocks) (side_of plan.duties) }
    requires pieces { plan.pieces ≡ pieces_of_plan model.now plan.blocks.plan.columns }
    requires shifts { All IsShift plan.pieces }
    ensures { IfOk result (λ bytes. bytes ≡ text (short_tables model.now (side_of plan.blocks) (side_of plan.duties))) }
{
    let counts = count_table(
        alloc,
        model.trips().len(),
        plan.blocks.plan.columns.len(),
        plan.pieces.len(),
        plan.duties.plan.columns.len(),
    )?;
    let bounds = bound_table(alloc, model, rec_frt, plan)?;
    write_tables(alloc, &[counts, bounds])
}

/// The short text of the plan of a day: X_KURZ with the numbers of its trips, blocks, pieces and duties, and X_SCHRANKE with the numbers
/// and costs of its blocks and duties and the bounds on them, in the text form of VDV 451. It is the plan that
/// [`plan_text`](crate::plan_text) writes of the same day with the same effort, and it is found by the same work.
///
/// `rec_frt` is the table that the day's trips were read from. It has exactly one row of the day's version for each trip of the day. The
/// effort is in its ranges; its number of workers and the gate change nothing in the text of a plan that is made by fixed rounds.
///
/// # Errors
///
/// Those of [`plan_day`].
pub fn short_text<R: Threads + Sync, G: Gate + Sync>(
    rt: &R,
    alloc: Global,
    model: &Day,
    rec_frt: &Table,
    method: &Method,
    gate: &G,
) -> Result<Bytes, PlanFault>
    requires plain { IsTrue (is_plain_table rec_frt.now) }
    requires trips { HasTripRows model.now rec_frt.now }
    requires effort { IsEffort method.now.effort }
    ensures written { IfOk result (IsShortTextOver model.now (asked_of method.now)) }
    ensures cause { IfErr result (IsPlanCauseOver model.now (asked_of method.now)) }
{
    let plan = match plan_day(rt, alloc, model, method, gate) {
        Ok(plan) => plan,
        Err(fault) => return Err(fault),
    };
    // The trips of a day are few: it says so.
    let _ = model.trips();
    match short_text_of(alloc, model, rec_frt, plan) {
        Ok(bytes) => Ok(bytes),
        Err(Memory) => Err(PlanFault::Memory),
    }
}
