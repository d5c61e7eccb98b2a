//! The command `certify`: the certificate of the plan of a day, by which its bounds can be checked without a planner.

ghost use Rattle.std.specs.Prelude.{◌<◌, ◌^◌, All, IsTrue, IfOk, IfErr, length};
ghost use Rattle.vdv451_text.specs.Plain.{are_plain};
ghost use Rattle.price_rounds.specs.Efforts.{IsEffort};
ghost use Rattle.plan_command.specs.Planning.{asked_of};
ghost use Rattle.planner_run.specs.CertText.{IsCertText};
ghost use Rattle.planner_run.specs.PlanText.{IsPlanRefused};

use crate::ready::ready_day;
use crate::status::Status;
use plan_certify::certificate_text as certificate_day_text;
use plan_command::Method;
use plan_core::{Bytes, Gate, Seq};
use std::alloc::Global;
use std::thread::Threads;
use vdv451_text::Table;

/// The text of the certificate of the plan of the day that the tables of all files tell, the plan that `plan` writes with the same words:
/// X_PREIS, X_KLASSENPREIS, X_MARKE and X_UMARKE.
///
/// # Errors
///
/// Those of [`plan_text`](crate::plan::plan_text).
pub fn certificate_text<R: Threads + Sync, G: Gate + Sync>(
    rt: &R,
    alloc: Global,
    tables: Seq<Table>,
    day: u32,
    method: &Method,
    gate: &G,
) -> Result<Bytes, Status>
    requires plain { IsTrue (are_plain tables) }
    requires sized { All (λ table. length table.rows < 2 ^ 32) tables }
    requires effort { IsEffort method.now.effort }
    ensures written { IfOk result (IsCertText (asked_of method.now) tables day) }
    ensures cause { IfErr result (IsPlanRefused (asked_of method.now) tables day) }
{
    let ready = ready_day(alloc, tables, day)?;
    Ok(certificate_day_text(rt, alloc, &ready.model, method, gate)?)
}
