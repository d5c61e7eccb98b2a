//! The command `replan`: a day is planned anew from a moment on, and what of an earlier plan has begun before it stays.

ghost use Rattle.std.specs.Prelude.{◌≡◌, ◌<◌, ◌^◌, All, IsTrue, IfOk, IfErr, length};
ghost use Rattle.vdv451_text.specs.Plain.{are_plain, is_plain_table};
ghost use Rattle.cover_plan.specs.Endings.{numbers_of};
ghost use Rattle.price_rounds.specs.Efforts.{IsEffort};
ghost use Rattle.plan_command.specs.PlanText.{HasTripRows};
ghost use Rattle.replan_command.specs.ReplanText.{IsReplanTextOver};
ghost use Rattle.planner_run.specs.ReplanText.{IsReplanRefused, IsReplanStatus, IsReplanText, replan_status_of};

use crate::ready::{Ready, ready_day};
use crate::status::Status;
use plan_core::{Bytes, Gate, Seq};
use price_rounds::Effort;
use replan_command::{ReplanFault, replan_text as replan_day_text};
use std::alloc::Global;
use std::thread::Threads;
use vdv451_text::Table;

/// The status for a day without a new plan.
fn replan_status(fault: ReplanFault) -> Status
    ensures { result ≡ replan_status_of fault }
{
    match fault {
        ReplanFault::OldPlan(reason) => Status::OldPlan(reason),
        ReplanFault::Plan(fault) => Status::from(fault),
    }
}

/// The text of the new plan of a day from a moment on, by the tables of an earlier plan.
fn text_over<R: Threads + Sync, G: Gate + Sync>(
    rt: &R,
    alloc: Global,
    ready: &Ready,
    old: &[Table],
    moment: u32,
    effort: &Effort,
    gate: &G,
) -> Result<Bytes, Status>
    requires plain { IsTrue (is_plain_table ready.now.rec_frt) }
    requires trips { HasTripRows ready.now.model ready.now.rec_frt }
    requires sized { All (λ table. length table.rows < 2 ^ 32) old.now }
    requires effort { IsEffort effort.now }
    ensures written { IfOk result (IsReplanTextOver ready.now.model old.now moment (numbers_of effort.now) ready.now.rec_frt) }
    ensures cause { IfErr result (IsReplanStatus ready.now.model old.now moment (numbers_of effort.now)) }
{
    match replan_day_text(
        rt,
        alloc,
        &ready.model,
        &ready.rec_frt,
        old,
        moment,
        effort,
        gate,
    ) {
        Ok(bytes) => Ok(bytes),
        Err(fault) => Err(replan_status(fault)),
    }
}

/// The text of the new plan of the day that the planning tables tell, from a moment on, in seconds of the operating day: the tables that
/// [`plan_text`](crate::plan::plan_text) writes, of blocks and duties that keep what of the earlier plan has begun before the moment.
///
/// # Errors
///
/// Those of [`ready_day`](crate::ready::ready_day); then `OldPlan` with the first reason against the tables of the earlier plan; then, for
/// vehicles and after them for drivers, `NoPlan` where the bound on their number is above how many there are, and `NotPlaced` where rounding
/// leaves a trip or a piece; and `Memory`.
pub fn replan_text<R: Threads + Sync, G: Gate + Sync>(
    rt: &R,
    alloc: Global,
    tables: Seq<Table>,
    old: &[Table],
    day: u32,
    moment: u32,
    effort: &Effort,
    gate: &G,
) -> Result<Bytes, Status>
    requires plain { IsTrue (are_plain tables) }
    requires sized { All (λ table. length table.rows < 2 ^ 32) tables }
    requires old { All (λ table. length table.rows < 2 ^ 32) old.now }
    requires effort { IsEffort effort.now }
    ensures written { IfOk result (IsReplanText (numbers_of effort.now) moment tables old.now day) }
    ensures cause { IfErr result (IsReplanRefused (numbers_of effort.now) moment tables old.now day) }
{
    match ready_day(alloc, tables, day) {
        Ok(ready) => text_over(rt, alloc, &ready, old, moment, effort, gate),
        Err(status) => Err(status),
    }
}
