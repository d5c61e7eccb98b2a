//! The text of the new plan of a day from a moment on.

ghost use Rattle.std.specs.Prelude.{◌<◌, ◌^◌, All, IsTrue, IfOk, IfErr, length};
ghost use Rattle.vdv451_text.specs.Plain.{is_plain_table};
ghost use Rattle.price_rounds.specs.Efforts.{IsEffort};
ghost use Rattle.cover_plan.specs.Endings.{numbers_of};
ghost use Rattle.plan_command.specs.PlanText.{HasTripRows};
ghost use Rattle.replan_command.specs.Replanning.{IsRestCause, replan_of};
ghost use Rattle.replan_command.specs.ReplanText.{IsReplanCauseOver, IsReplanTextOver, IsTextOf};
ghost use Rattle.replan_command.specs.Steps.{IsEarlierPlan};

use crate::fault::ReplanFault;
use crate::replanning::replan_day;
use cert_check::{OldPlan, check_old};
use day_model::Day;
use plan_command::{PlanFault, text_of};
use plan_core::{Bytes, Gate, Memory};
use price_rounds::Effort;
use std::alloc::Global;
use std::thread::Threads;
use umlauf_write::PlanText;
use vdv451_text::Table;

/// The text of the new plan of a day, by an earlier plan of it.
fn rest_text<R: Threads + Sync, G: Gate + Sync>(
    rt: &R,
    alloc: Global,
    model: &Day,
    rec_frt: &Table,
    earlier: &PlanText,
    moment: u32,
    effort: &Effort,
    gate: &G,
) -> Result<Bytes, PlanFault>
    requires plain { IsTrue (is_plain_table rec_frt.now) }
    requires trips { HasTripRows model.now rec_frt.now }
    requires effort { IsEffort effort.now }
    requires earlier { IsEarlierPlan model.now earlier.now }
    ensures written { IfOk result (IsTextOf (replan_of model.now earlier.now moment) (numbers_of effort.now) rec_frt.now) }
    ensures cause { IfErr result (IsRestCause (replan_of model.now earlier.now moment) (numbers_of effort.now)) }
{
    let plan = match replan_day(rt, alloc, model, earlier, moment, effort, gate) {
        Ok(plan) => plan,
        Err(fault) => return Err(fault),
    };
    // The trips of a day are few: it says so.
    let _ = model.trips();
    match text_of(alloc, model, rec_frt, plan) {
        Ok(bytes) => Ok(bytes),
        Err(Memory) => Err(PlanFault::Memory),
    }
}

/// The text of the new plan of a day from a moment on, in seconds: REC_UMLAUF, REC_FRT, X_UMLAUF, X_UMLAUF_TEIL, X_DIENST, X_DIENST_STUECK and
/// X_SCHRANKE in the text form of VDV 451.
///
/// `old` are the tables of an earlier plan of the day. What has begun before the moment stays. In a block of that plan the first trip is kept
/// where its pull-out leaves before the moment, and a later one where the trip before it is kept and ends before the moment; the kept trips are
/// the first ones of a new block of the same pool, which ends with them where the last of them ends before the moment. Every other new block
/// leaves its depot at the moment or later. The pieces of the new blocks that begin before the moment stay with their drivers: those of an
/// earlier duty are the first pieces of a new duty of the same group, which ends with them where the earlier duty is over before the moment.
/// Every other new duty has no such piece. The rest is planned by the method of `day_method`, with the vehicles, drivers, costs, ways and relief
/// points that the day has now. The four bounds hold of all plans that keep what has begun.
///
/// `rec_frt` is the table that the day's trips were read from; it has exactly one row of the day's version for each trip of the day. The effort
/// is in its ranges; its number of workers and the gate change nothing in the text of a plan that is made by fixed rounds.
///
/// # Errors
///
/// `OldPlan` with the first reason against the tables of the earlier plan, as [`check_old`] has it. Else `Plan` with `NoPlan` exactly where the
/// kept bound on the number of a side is above its vehicles or drivers; then no plan of that side keeps what has begun. `Plan` with `NotPlaced`
/// exactly where rounding leaves an item of what is left: a trip or a piece that has not begun, or what has begun of a block or a duty, named by
/// its first trip or piece. And `Plan` with `Memory`.
pub fn replan_text<R: Threads + Sync, G: Gate + Sync>(
    rt: &R,
    alloc: Global,
    model: &Day,
    rec_frt: &Table,
    old: &[Table],
    moment: u32,
    effort: &Effort,
    gate: &G,
) -> Result<Bytes, ReplanFault>
    requires plain { IsTrue (is_plain_table rec_frt.now) }
    requires trips { HasTripRows model.now rec_frt.now }
    requires sized { All (λ table. length table.rows < 2 ^ 32) old.now }
    requires effort { IsEffort effort.now }
    ensures written { IfOk result (IsReplanTextOver model.now old.now moment (numbers_of effort.now) rec_frt.now) }
    ensures cause { IfErr result (IsReplanCauseOver model.now old.now moment (numbers_of effort.now)) }
{
    let earlier = match check_old(alloc, model, old) {
        Ok(OldPlan::Good(earlier)) => earlier,
        Ok(OldPlan::Bad(reason)) => return Err(ReplanFault::OldPlan(reason)),
        Err(Memory) => return Err(ReplanFault::Plan(PlanFault::Memory)),
    };
    match rest_text(rt, alloc, model, rec_frt, &earlier, moment, effort, gate) {
        Ok(bytes) => Ok(bytes),
        Err(fault) => Err(ReplanFault::Plan(fault)),
    }
}
