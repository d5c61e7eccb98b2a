//! The command `check`: whether a plan and its certificate hold for the day that the planning tables tell.

ghost use Rattle.std.specs.Prelude.{◌≡◌, ◌++◌, ◌<◌, ◌^◌, All, IsTrue, IfOk, IfErr, OnOk, length, decimal};
ghost use Rattle.vdv451_text.specs.Plain.{are_plain, is_plain_table};
ghost use Rattle.plan_command.specs.PlanText.{HasTripRows};
ghost use Rattle.planner_run.specs.CheckText.{IsCheckText, IsCheckTextOver, check_line as check_line_of, ending_of as ending_by, no_line as no_line_of};
ghost use Rattle.planner_run.specs.Model.{IsModelRefused};

use crate::outcome::Outcome;
use crate::ready::{Ready, ready_day};
use crate::status::Status;
use cert_check::{Answered, Case, Reason, check};
use itoa::Buffer;
use plan_core::{Bytes, Memory, Seq};
use std::alloc::Global;
use vdv451_text::Table;

/// The line of a no: number and name of the reason.
fn no_line(alloc: Global, reason: &Reason) -> Result<Bytes, Memory>
    ensures { IfOk result (λ line. line ≡ no_line_of reason.now) }
{
    let mut digits = Buffer::new();
    let mut line = Vec::from_slice(alloc, b"no ")?;
    line.extend_from_slice(digits.format(reason.number()).as_bytes())?;
    line.extend_from_slice(b" ")?;
    line.extend_from_slice(reason.name())?;
    line.extend_from_slice(b"\n")?;
    Ok(Bytes::from_vec(line))
}

/// The line of an answer of the checker.
fn check_line(alloc: Global, answer: &Answered) -> Result<Bytes, Memory>
    ensures { IfOk result (λ line. line ≡ check_line_of answer.now) }
{
    match answer {
        Answered::Yes { .. } => Ok(Bytes::from_vec(Vec::from_slice(alloc, b"yes\n")?)),
        Answered::No(reason) => no_line(alloc, reason),
    }
}

/// The status with which an answer of the checker ends.
fn status_of_answer(answer: Answered) -> Status
    ensures { result ≡ ending_by answer }
{
    match answer {
        Answered::Yes { .. } => Status::Ok,
        Answered::No(reason) => Status::CheckNo(reason),
    }
}

/// What the checker says of a plan and a certificate.
fn check_outcome(
    alloc: Global,
    ready: &Ready,
    plan: &[Table],
    cert: &[Table],
) -> Result<Outcome, Memory>
    requires plain { IsTrue (is_plain_table ready.now.rec_frt) }
    requires rows { HasTripRows ready.now.model ready.now.rec_frt }
    requires plan { All (λ table. length table.rows < 2 ^ 32) plan.now }
    requires cert { All (λ table. length table.rows < 2 ^ 32) cert.now }
    ensures { IfOk result (λ outcome. IsCheckTextOver ready.now.model ready.now.rec_frt plan.now cert.now outcome.ending outcome.text) }
{
    let case = Case {
        day: &ready.model,
        rec_frt: &ready.rec_frt,
        plan,
        cert,
    };
    let answer = check(alloc, &case)?;
    let text = check_line(alloc, &answer)?;
    Ok(Outcome {
        text,
        ending: status_of_answer(answer),
    })
}

/// The line `yes`, where a plan and its certificate hold for the day that the planning tables tell, or else `no` with the number and the name
/// of the first reason against them; then it ends with CheckNo.
///
/// # Errors
///
/// Those of [`ready_day`](crate::ready::ready_day).
pub fn check_text(
    alloc: Global,
    tables: Seq<Table>,
    plan: &[Table],
    cert: &[Table],
    day: u32,
) -> Result<Outcome, Status>
    requires plain { IsTrue (are_plain tables) }
    requires sized { All (λ table. length table.rows < 2 ^ 32) tables }
    requires plan { All (λ table. length table.rows < 2 ^ 32) plan.now }
    requires cert { All (λ table. length table.rows < 2 ^ 32) cert.now }
    ensures written { IfOk result (λ outcome. IsCheckText tables plan.now cert.now day outcome.ending outcome.text) }
    ensures cause { IfErr result (IsModelRefused tables day) }
{
    match ready_day(alloc, tables, day) {
        Ok(ready) => match check_outcome(alloc, &ready, plan, cert) {
            Ok(outcome) => Ok(outcome),
            Err(Memory) => Err(Status::Memory),
        },
        Err(status) => Err(status),
    }
}
