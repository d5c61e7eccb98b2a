//! Whole passes.

ghost use Rattle.std.specs.Prelude.{◌≡◌, ◌<◌, ◌≤◌, ◌≤ℤ◌, pos, neg_ℤ, length, IfOk, IfErr, IfSome, OnOk};
ghost use Rattle.cover_core.specs.FirstLeast.{AreCheap};
ghost use Rattle.cover_core.specs.Plans.{IsPlan};
ghost use Rattle.price_rounds.specs.Efforts.{IsEffort};
ghost use Rattle.price_rounds.specs.Steps.{IsOffer};
ghost use Rattle.worker_price.specs.Work.{ArePricesFor};
ghost use Rattle.climb_rounds.specs.Climbs.{IsClimbCause};
ghost use Rattle.climb_rounds.specs.Passes.{IsOutcome};
ghost use Rattle.climb_rounds.specs.Searches.{IsSearch};
ghost use Rattle.climb_rounds.specs.Settings.{IsSetting};
ghost use Rattle.climb_rounds.specs.Walks.{IsWalk};

use crate::begin::first_search;
use crate::best::{Best, Search};
use crate::climbed::{ClimbFault, Climbed};
use crate::lowering::{last_offer, lowering_rounds};
use crate::mending::mend;
use crate::rounds::{dive_from_nothing, price_rounds};
use crate::setting::Setting;
use crate::start::first_walk;
use crate::walk::Walk;
use cover_core::Pricer;
use dual_bound::Kept;
use plan_core::{Gate, Memory};
use plan_dive::{Course, Workers};
use price_rounds::Effort;
use std::alloc::Global;
use std::thread::Threads;

/// What the offers of a pass lead to.
#[derive(Drop)]
pub(crate) struct Outcome {
    /// The columns that are known, and the best plan.
    pub(crate) search: Search,
    /// The prices that climbed.
    pub(crate) course: Course,
    /// The kept offer.
    pub(crate) kept: Kept,
}

/// All offers of a pass: price rounds, lowering rounds and the last offer.
fn offers<R: Threads + Sync, P: Pricer + Sync, G: Gate + Sync>(
    alloc: Global,
    problem: &P,
    rt: &R,
    gate: &G,
    workers: &Workers,
    setting: &Setting,
    effort: &Effort,
    counted: bool,
) -> Result<Outcome, Memory>
    requires { IsSetting (P.problem problem.now) setting.now }
    ensures { IfOk result (IsOutcome (P.problem problem.now)) }
{
    let ground = &setting.ground;
    let search = first_search(alloc, problem, rt, ground, effort.exchange)?;
    let walk = first_walk(alloc, problem, ground, &search.best)?;
    let done = price_rounds(
        alloc, problem, rt, gate, workers, setting, effort, counted, search, walk,
    )?;
    let (mut search, walk) = done;
    let walk = lowering_rounds(
        alloc,
        problem,
        rt,
        gate,
        workers,
        setting,
        effort,
        &mut search,
        walk,
    )?;
    let Walk {
        course,
        scaled,
        kept,
        ..
    } = walk;
    let kept = last_offer(alloc, problem, rt, gate, workers, setting, &scaled, kept)?;
    Ok(Outcome {
        search,
        course,
        kept,
    })
}

/// A pass that wants only the bound.
fn count_pass<R: Threads + Sync, P: Pricer + Sync, G: Gate + Sync>(
    alloc: Global,
    problem: &P,
    rt: &R,
    gate: &G,
    workers: &Workers,
    effort: &Effort,
) -> Result<Kept, Memory>
    ensures { IfOk result (IsOffer (P.problem problem.now)) }
{
    let setting = Setting::new(alloc, problem)?;
    let outcome = offers(alloc, problem, rt, gate, workers, &setting, effort, true)?;
    Ok(outcome.kept)
}

/// A pass that wants a plan too: after the offers partial dives mend the best plan.
fn cost_pass<R: Threads + Sync, P: Pricer + Sync, G: Gate + Sync>(
    alloc: Global,
    problem: &P,
    rt: &R,
    gate: &G,
    workers: &Workers,
    effort: &Effort,
) -> Result<(Search, Kept), Memory>
    ensures search { IfOk result (λ r. IsSearch (P.problem problem.now) r.0) }
    ensures kept { IfOk result (λ r. IsOffer (P.problem problem.now) r.1) }
{
    let setting = Setting::new(alloc, problem)?;
    let outcome = offers(alloc, problem, rt, gate, workers, &setting, effort, false)?;
    let Outcome {
        mut search,
        course,
        kept,
    } = outcome;
    let steps = effort.exchange;
    if !search.has_plan() {
        search = dive_from_nothing(
            alloc, problem, rt, gate, workers, &setting, steps, search, &course, false,
        )?;
    }
    let search = mend(
        alloc, problem, rt, gate, workers, &setting, steps, search, &course, &kept,
    )?;
    Ok((search, kept))
}

/// Offers prices that climb, and gives the offer of the greatest bound. With each worth 1 no plan has fewer columns than its bound.
///
/// There are as many price rounds and lowering rounds as the effort says, and fewer where the bound proves the best plan that was found on
/// the way. The effort is in its ranges. The offer depends on no number of workers and no gate, as the crate's head says. `Memory` is the
/// only error.
pub fn climb_count<R: Threads + Sync, P: Pricer + Sync, G: Gate + Sync>(
    rt: &R,
    alloc: Global,
    counted: &P,
    effort: &Effort,
    gate: &G,
) -> Result<Kept, Memory>
    requires effort { IsEffort effort.now }
    ensures offer { IfOk result (IsOffer (P.problem counted.now)) }
{
    let workers = Workers::new(effort.workers);
    count_pass(alloc, counted, rt, gate, &workers, effort)
}

/// Offers prices that climb, finds plans by dives on the way, and mends the best one by partial dives: gives the best plan, and the offer
/// of the greatest bound. No plan costs less than the bound.
///
/// There are as many price rounds and lowering rounds as the effort says, and fewer where the bound proves the best plan; each plan is
/// improved by as many exchange steps. The effort is in its ranges. What is given depends on no number of workers and no gate, as the
/// crate's head says.
///
/// # Errors
///
/// `NotPlaced` where neither rounding nor any dive finds a plan: the item that rounding leaves, and the columns so far; this does not
/// happen where each item alone has a worth in a class whose cap is at least the number of items. And `Memory`.
pub fn climb_plan<R: Threads + Sync, P: Pricer + Sync, G: Gate + Sync>(
    rt: &R,
    alloc: Global,
    costed: &P,
    effort: &Effort,
    gate: &G,
) -> Result<Climbed, ClimbFault>
    requires effort { IsEffort effort.now }
    ensures plan { IfOk result (λ r. IsPlan (P.problem costed.now) r.plan.columns) }
    ensures cheap { IfOk result (λ r. AreCheap r.plan.columns) }
    ensures offer { IfOk result (λ r. IsOffer (P.problem costed.now) r.kept) }
    ensures cause { IfErr result (IsClimbCause (P.problem costed.now)) }
{
    let workers = Workers::new(effort.workers);
    match cost_pass(alloc, costed, rt, gate, &workers, effort) {
        Err(Memory) => Err(ClimbFault::Memory),
        Ok((search, kept)) => {
            let Search { best, .. } = search;
            match best {
                Best::Found { plan } => Ok(Climbed { plan, kept }),
                Best::Left { item, partial } => Err(ClimbFault::NotPlaced { item, partial }),
            }
        }
    }
}
