//! The text of the plan of a day.

ghost use Rattle.std.specs.Prelude.{◌≡◌, false, map, All, IsTrue, IfOk, IfErr};
ghost use Rattle.cover_core.specs.FirstLeast.{AreCheap};
ghost use Rattle.vdv451_text.specs.Plain.{are_plain, is_plain_table, text};
ghost use Rattle.price_rounds.specs.Efforts.{IsEffort};
ghost use Rattle.block_cut.specs.Cuts.{IsShift, pieces_of_plan};
ghost use Rattle.block_cut.specs.Legs.{HasWorth, block_legs as legs_of_block};
ghost use Rattle.umlauf_write.specs.Answers.{answer_tables};
ghost use Rattle.plan_command.specs.Planning.{IsDayPlan, IsPlanCauseOver, asked_of, side_of};
ghost use Rattle.plan_command.specs.PlanText.{HasTripRows, IsPlanTextOver, IsPrintable, answer_of as answer_of_plan, four_bounds};

use crate::day_plan::DayPlan;
use crate::fault::PlanFault;
use crate::method::Method;
use crate::planning::plan_day;
use block_cut::legs;
use cover_core::Column;
use cover_plan::Planned;
use day_model::Day;
use plan_core::{Bytes, Gate, Leg, Memory, Seq};
use std::alloc::Global;
use std::thread::Threads;
use umlauf_write::{Answer, plan_tables};
use vdv451_text::{Table, write_tables};

/// The legs of each of some blocks.
fn block_legs(alloc: Global, model: &Day, blocks: &[Column]) -> Result<Seq<Seq<Leg>>, Memory>
    requires { All (HasWorth model.now) blocks.now }
    ensures { IfOk result (λ all. all ≡ map (legs_of_block model.now) blocks.now) }
{
    let mut all = Seq::new(alloc);
    for block in blocks {
        all.push(legs(alloc, model, block)?)?;
    }
    Ok(all)
}

/// The bounds of the four passes.
fn bounds_of(alloc: Global, blocks: &Planned, duties: &Planned) -> Result<Seq<u64>, Memory>
    ensures { IfOk result (λ bounds. bounds ≡ four_bounds (side_of blocks.now) (side_of duties.now)) }
{
    let bounds = [
        blocks.count.bound,
        blocks.cost.bound,
        duties.count.bound,
        duties.cost.bound,
    ];
    Seq::new(alloc).with_items(&bounds)
}

/// What is printed of a plan.
fn answer_of(alloc: Global, model: &Day, plan: DayPlan) -> Result<Answer, Memory>
    requires pieces { plan.pieces ≡ pieces_of_plan model.now plan.blocks.plan.columns }
    requires worths { All (HasWorth model.now) plan.blocks.plan.columns }
    ensures { IfOk result (λ answer. answer ≡ answer_of_plan model.now (side_of plan.blocks) (side_of plan.duties)) }
{
    let bounds = bounds_of(alloc, &plan.blocks, &plan.duties)?;
    let legs = block_legs(alloc, model, plan.blocks.plan.columns.as_slice())?;
    let DayPlan {
        blocks,
        pieces,
        duties,
    } = plan;
    Ok(Answer {
        blocks: blocks.plan,
        legs,
        pieces,
        duties: duties.plan,
        bounds,
    })
}

/// The tables of a plan that can be printed.
pub(crate) fn tables_of(
    alloc: Global,
    model: &Day,
    rec_frt: &Table,
    plan: DayPlan,
) -> Result<Seq<Table>, Memory>
    requires plain { IsTrue (is_plain_table rec_frt.now) }
    requires trips { HasTripRows model.now rec_frt.now }
    requires printable { IsPrintable model.now (side_of plan.blocks) (side_of plan.duties) }
    requires pieces { plan.pieces ≡ pieces_of_plan model.now plan.blocks.plan.columns }
    requires shifts { All IsShift plan.pieces }
    ensures tables { IfOk result (λ tables. tables ≡ answer_tables model.now rec_frt.now (answer_of_plan model.now (side_of plan.blocks) (side_of plan.duties))) }
    ensures plain { IfOk result (λ tables. IsTrue (are_plain tables)) }
{
    let answer = answer_of(alloc, model, plan)?;
    plan_tables(alloc, model, rec_frt, &answer)
}

/// The text of a plan of a day that can be printed: REC_UMLAUF, REC_FRT, X_UMLAUF, X_UMLAUF_TEIL, X_DIENST, X_DIENST_STUECK and X_SCHRANKE in
/// the text form of VDV 451. `rec_frt` is the table that the day's trips were read from; it has exactly one row of the day's version for each
/// trip of the day. `Memory` is the only error.
pub fn text_of(alloc: Global, model: &Day, rec_frt: &Table, plan: DayPlan) -> Result<Bytes, Memory>
    requires plain { IsTrue (is_plain_table rec_frt.now) }
    requires trips { HasTripRows model.now rec_frt.now }
    requires printable { IsPrintable model.now (side_of plan.blocks) (side_of plan.duties) }
    requires pieces { plan.pieces ≡ pieces_of_plan model.now plan.blocks.plan.columns }
    requires shifts { All IsShift plan.pieces }
    ensures { IfOk result (λ bytes. bytes ≡ text (answer_tables model.now rec_frt.now (answer_of_plan model.now (side_of plan.blocks) (side_of plan.duties)))) }
{
    let tables = tables_of(alloc, model, rec_frt, plan)?;
    write_tables(alloc, tables.as_slice())
}

/// The text of the plan of a day: REC_UMLAUF, REC_FRT, X_UMLAUF, X_UMLAUF_TEIL, X_DIENST, X_DIENST_STUECK and X_SCHRANKE in the text form
/// of VDV 451.
///
/// `rec_frt` is the table that the day's trips were read from. It has exactly one row of the day's version for each trip of the day. The
/// effort is in its ranges; its number of workers and the gate change nothing in the text of a plan that is made by fixed rounds.
///
/// # Errors
///
/// Those of [`plan_day`].
pub fn plan_text<R: Threads + Sync, G: Gate + Sync>(
    rt: &R,
    alloc: Global,
    model: &Day,
    rec_frt: &Table,
    method: &Method,
    gate: &G,
) -> Result<Bytes, PlanFault>
    requires plain { IsTrue (is_plain_table rec_frt.now) }
    requires trips { HasTripRows model.now rec_frt.now }
    requires effort { IsEffort method.now.effort }
    ensures written { IfOk result (IsPlanTextOver model.now (asked_of method.now) rec_frt.now) }
    ensures cause { IfErr result (IsPlanCauseOver model.now (asked_of method.now)) }
{
    let plan = match plan_day(rt, alloc, model, method, gate) {
        Ok(plan) => plan,
        Err(fault) => return Err(fault),
    };
    // The trips of a day are few: it says so.
    let _ = model.trips();
    match text_of(alloc, model, rec_frt, plan) {
        Ok(bytes) => Ok(bytes),
        Err(Memory) => Err(PlanFault::Memory),
    }
}
