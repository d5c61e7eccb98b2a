//! The command `plan`: the vehicle blocks and driver duties of a day, and bounds on their numbers and costs.

ghost use Rattle.std.specs.Prelude.{◌≡◌, ◌<◌, ◌^◌, All, IsTrue, IfOk, IfErr, length};
ghost use Rattle.vdv451_text.specs.Plain.{are_plain};
ghost use Rattle.price_rounds.specs.Efforts.{IsEffort};
ghost use Rattle.plan_command.specs.Planning.{asked_of};
ghost use Rattle.planner_run.specs.MadeText.{IsShortText};
ghost use Rattle.planner_run.specs.PlanText.{IsPlanRefused, IsPlanText, plan_status_of};

use crate::ready::ready_day;
use crate::status::Status;
use plan_command::{Method, PlanFault, plan_text as plan_day_text, short_text as short_day_text};
use plan_core::{Bytes, Gate, Seq};
use std::alloc::Global;
use std::thread::Threads;
use vdv451_text::Table;

impl From<PlanFault> for Status {
    ghost from_gives = { λ fault status. status ≡ plan_status_of fault };

    /// The status for a day without a plan.
    fn from(fault: PlanFault) -> Status {
        match fault {
            PlanFault::NoPlan {
                side,
                bound,
                places,
            } => Status::NoPlan {
                side,
                bound,
                places,
            },
            PlanFault::NotPlaced {
                side,
                item,
                name,
                partial,
            } => Status::NotPlaced {
                side,
                item,
                name,
                partial,
            },
            PlanFault::Memory => Status::Memory,
        }
    }
}

/// The text of the plan of the day that the tables of all files tell: REC_UMLAUF, REC_FRT, X_UMLAUF, X_UMLAUF_TEIL, X_DIENST,
/// X_DIENST_STUECK and X_SCHRANKE.
///
/// # Errors
///
/// `Input` with the first fault of the tables; then `Day` where the day has no day type; then `Input` with the number of trips where there
/// are more than 3,000, the first fault of the settings, or the first trip without times; then, for vehicles and after them for drivers,
/// `NoPlan` where the bound on their number is above how many there are, and `NotPlaced` where rounding leaves a trip or a piece; and
/// `Memory`.
pub fn plan_text<R: Threads + Sync, G: Gate + Sync>(
    rt: &R,
    alloc: Global,
    tables: Seq<Table>,
    day: u32,
    method: &Method,
    gate: &G,
) -> Result<Bytes, Status>
    requires plain { IsTrue (are_plain tables) }
    requires sized { All (λ table. length table.rows < 2 ^ 32) tables }
    requires effort { IsEffort method.now.effort }
    ensures written { IfOk result (IsPlanText (asked_of method.now) tables day) }
    ensures cause { IfErr result (IsPlanRefused (asked_of method.now) tables day) }
{
    let ready = ready_day(alloc, tables, day)?;
    Ok(plan_day_text(rt, alloc, &ready.model, &ready.rec_frt, method, gate)?)
}

/// The short text of the plan of the day that tables tell: X_KURZ and X_SCHRANKE.
///
/// # Errors
///
/// Those of [`plan_text`].
pub fn short_text<R: Threads + Sync, G: Gate + Sync>(
    rt: &R,
    alloc: Global,
    tables: Seq<Table>,
    day: u32,
    method: &Method,
    gate: &G,
) -> Result<Bytes, Status>
    requires plain { IsTrue (are_plain tables) }
    requires sized { All (λ table. length table.rows < 2 ^ 32) tables }
    requires effort { IsEffort method.now.effort }
    ensures written { IfOk result (IsShortText (asked_of method.now) tables day) }
    ensures cause { IfErr result (IsPlanRefused (asked_of method.now) tables day) }
{
    let ready = ready_day(alloc, tables, day)?;
    Ok(short_day_text(rt, alloc, &ready.model, &ready.rec_frt, method, gate)?)
}
