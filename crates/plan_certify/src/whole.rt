//! The certificate of a plan, and its text.

ghost use Rattle.std.specs.Prelude.{◌≡◌, ◌≤◌, ◌∷◌, [], All, IfOk, IfErr, length};
ghost use Rattle.plan_core.specs.Limits.{most_items};
ghost use Rattle.price_rounds.specs.Efforts.{IsEffort};
ghost use Rattle.block_cut.specs.Cuts.{IsShift, pieces_of_plan};
ghost use Rattle.plan_cert.specs.Shapes.{class_numbers_of};
ghost use Rattle.plan_cert.specs.Writing.{HaveClasses};
ghost use Rattle.plan_command.specs.Planning.{IsPlanCauseOver, asked_of, side_of};
ghost use Rattle.plan_certify.specs.Certificate.{ArePaid, IsCertOf, IsCertTextOf, IsCertTextOver};

use crate::parts::{block_part, duty_part};
use cover_core::Worth;
use day_model::Day;
use plan_cert::{Cert, CertPart, write_cert};
use plan_command::{DayPlan, Method, PlanFault, plan_day};
use plan_core::{Bytes, Gate, Memory, Seq};
use std::alloc::Global;
use std::thread::Threads;
use vdv451_text::write_tables;

/// The certificate of four parts.
fn cert_of(
    alloc: Global,
    one: CertPart,
    two: CertPart,
    three: CertPart,
    four: CertPart,
) -> Result<Cert, Memory>
    ensures { IfOk result (λ cert. cert.parts ≡ one ∷ two ∷ three ∷ four ∷ []) }
{
    let mut parts = Seq::new(alloc);
    parts.push(one)?;
    parts.push(two)?;
    parts.push(three)?;
    parts.push(four)?;
    Ok(Cert { parts })
}

/// The certificate of a plan of a day: for each pass the prices and class prices that it kept, and the least cover of the open blocks or
/// duties under them, which are the marks to which no other one is at least as good, each once and in the order of their fields.
///
/// The offers of the plan are paid: no block has a value below minus the price of its pool, and no lawful duty over the pieces one below
/// minus the price of its group. So the covers are there. Making them takes about the time of pricing all blocks and duties once with no
/// completion bound. The numbers of the classes of the day can be written, as `plan_cert::write_cert` wants.
///
/// # Errors
///
/// `Memory` where memory runs out, and for nothing else.
pub fn certificate_of(alloc: Global, model: &Day, plan: DayPlan) -> Result<Cert, Memory>
    requires paid { ArePaid model.now (side_of plan.blocks) (side_of plan.duties) }
    requires pieces { plan.pieces ≡ pieces_of_plan model.now plan.blocks.plan.columns }
    requires few { length plan.pieces ≤ most_items }
    requires shifts { All IsShift plan.pieces }
    ensures cert { IfOk result (IsCertOf model.now (side_of plan.blocks) (side_of plan.duties)) }
    ensures classes { IfOk result (λ cert. HaveClasses (class_numbers_of model.now) cert.parts) }
{
    let DayPlan {
        blocks,
        pieces,
        duties,
    } = plan;
    let one = block_part(alloc, model, Worth::Count, blocks.count)?;
    let two = block_part(alloc, model, Worth::Cost, blocks.cost)?;
    let three = duty_part(alloc, model, &pieces, Worth::Count, duties.count)?;
    let four = duty_part(alloc, model, &pieces, Worth::Cost, duties.cost)?;
    cert_of(alloc, one, two, three, four)
}

/// The text of the certificate of a plan.
fn text_of(alloc: Global, model: &Day, plan: DayPlan) -> Result<Bytes, Memory>
    requires paid { ArePaid model.now (side_of plan.blocks) (side_of plan.duties) }
    requires pieces { plan.pieces ≡ pieces_of_plan model.now plan.blocks.plan.columns }
    requires few { length plan.pieces ≤ most_items }
    requires shifts { All IsShift plan.pieces }
    ensures { IfOk result (IsCertTextOf model.now (side_of plan.blocks) (side_of plan.duties)) }
{
    let cert = certificate_of(alloc, model, plan)?;
    let tables = write_cert(alloc, &cert, model)?;
    write_tables(alloc, tables.as_slice())
}

/// The text of the certificate of a day's plan: X_PREIS, X_KLASSENPREIS, X_MARKE and X_UMARKE in the text form of VDV 451, as
/// `plan_cert::write_cert` writes them. The day is planned as [`plan_command::plan_text`] plans it.
///
/// The effort is in its ranges; its number of workers and the gate change nothing in the text where the plan is made by fixed rounds.
///
/// # Errors
///
/// Those of [`plan_command::plan_day`].
pub fn certificate_text<R: Threads + Sync, G: Gate + Sync>(
    rt: &R,
    alloc: Global,
    model: &Day,
    method: &Method,
    gate: &G,
) -> Result<Bytes, PlanFault>
    requires { IsEffort method.now.effort }
    ensures written { IfOk result (IsCertTextOver model.now (asked_of method.now)) }
    ensures cause { IfErr result (IsPlanCauseOver model.now (asked_of method.now)) }
{
    let plan = match plan_day(rt, alloc, model, method, gate) {
        Ok(plan) => plan,
        Err(fault) => return Err(fault),
    };
    match text_of(alloc, model, plan) {
        Ok(bytes) => Ok(bytes),
        Err(Memory) => Err(PlanFault::Memory),
    }
}
