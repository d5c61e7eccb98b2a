//! The command `make`: a day that is made from a seed, as the tables of its planning files, or planned.

ghost use Rattle.std.specs.Prelude.{◌≤◌, List, IfOk, IfErr, false};
ghost use Rattle.plan_core.specs.Limits.{most_items};
ghost use Rattle.vdv451_text.specs.declared.table.Table.{Table as TextTable};
ghost use Rattle.day_maker.specs.Made.{made_tables};
ghost use Rattle.price_rounds.specs.Efforts.{IsEffort};
ghost use Rattle.planner_run.specs.MadeText.{IsMadeText, IsShortText};
ghost use Rattle.planner_run.specs.PlanText.{IsPlanRefused};
ghost use Rattle.planner_run.specs.Run.{IsRefused, IsText};
ghost use Rattle.planner_run.specs.Tasks.{asked_by, make_task};

use crate::plan::short_text;
use crate::status::Status;
use command_words::Making;
use day_maker::make_tables;
use plan_command::Method;
use plan_core::{Bytes, Gate, Memory};
use price_rounds::Effort;
use std::alloc::Global;
use std::thread::Threads;
use vdv451_text::write_tables;

/// The text of the tables of a day that is made.
fn tables_text(alloc: Global, making: Making) -> Result<Bytes, Memory>
    requires { making.trips ≤ most_items }
    ensures { IfOk result (IsMadeText making.seed making.trips) }
{
    let tables = make_tables(alloc, making.seed, making.trips)?;
    write_tables(alloc, tables.as_slice())
}

/// The short text of the plan of a day that is made.
fn planned_text<R: Threads + Sync, G: Gate + Sync>(
    rt: &R,
    alloc: Global,
    making: Making,
    day: u32,
    effort: &Effort,
    gate: &G,
) -> Result<Bytes, Status>
    requires trips { making.trips ≤ most_items }
    requires effort { IsEffort effort.now }
    ensures written { IfOk result (IsShortText (asked_by effort.now false) (made_tables making.seed making.trips) day) }
    ensures cause { IfErr result (IsPlanRefused (asked_by effort.now false) (made_tables making.seed making.trips) day) }
{
    let method = Method {
        effort: *effort,
        flow: false,
    };
    match make_tables(alloc, making.seed, making.trips) {
        Ok(tables) => short_text(rt, alloc, tables, day, &method, gate),
        Err(Memory) => Err(Status::Memory),
    }
}

/// The text of a day that is made: its tables, as planning files have them; or, where it is to be planned, X_KURZ and X_SCHRANKE of its
/// plan, as if its tables had come from files.
///
/// # Errors
///
/// `Memory`. A day that is planned may have the errors of a plan of its tables; that no made day has one of these is a clause of `run`.
pub fn made_text<R: Threads + Sync, G: Gate + Sync>(
    rt: &R,
    alloc: Global,
    making: Making,
    day: u32,
    effort: &Effort,
    gate: &G,
) -> Result<Bytes, Status>
    requires trips { making.trips ≤ most_items }
    requires effort { IsEffort effort.now }
    ensures written { (tables : List TextTable) → IfOk result (IsText (make_task making.run making.seed making.trips (asked_by effort.now false)) tables day) }
    ensures cause { (tables : List TextTable) → IfErr result (IsRefused (make_task making.run making.seed making.trips (asked_by effort.now false)) tables day) }
{
    if making.run {
        return planned_text(rt, alloc, making, day, effort, gate);
    }
    match tables_text(alloc, making) {
        Ok(text) => Ok(text),
        Err(Memory) => Err(Status::Memory),
    }
}
