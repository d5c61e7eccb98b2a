//! Both passes, rounding and exchange.

ghost use Rattle.std.specs.Prelude.{◌≡◌, ◌<◌, ◌≤◌, List, sum, IfOk, IfErr};
ghost use Rattle.cover_core.specs.declared.Column.{Column as PlanColumn};
ghost use Rattle.cover_core.specs.Plans.{IsPlan, AreColumns};
ghost use Rattle.cover_core.specs.FirstLeast.{AreCheap};
ghost use Rattle.cover_core.specs.Laws.{IsCountOf};
ghost use Rattle.plan_round.specs.Laws.{HasRoomForEach};
ghost use Rattle.worker_price.specs.Work.{ArePricesFor};
ghost use Rattle.price_rounds.specs.Efforts.{IsEffort};
ghost use Rattle.price_rounds.specs.Rounds.{after_rounds, IsBoundOf};
ghost use Rattle.cover_plan.specs.Endings.{HasPlaces, IsFirstKept, IsKept, IsMade, IsPlanned, IsRounded, numbers_of};
ghost use Rattle.cover_plan.specs.Ends.{IsCause, IsCountBoundOf, IsCountCause, IsPaidOffer};
ghost use Rattle.cover_plan.specs.Steps.{IsCostCause, IsRoundedCause, HasPool};

use crate::climbing::{climbed_count, climbed_plan};
use crate::counting::{Counting, counting_effort};
use crate::fault::PlanFault;
use crate::planned::Planned;
use cover_core::{Columns, Plan, Pricer, plan_sizes};
use dual_bound::Kept;
use plan_core::{Gate, Memory};
use plan_round::{RoundFault, round};
use price_rounds::{Effort, pass};
use std::alloc::Global;
use std::thread::Threads;
use tail_exchange::improve;

/// The sum of all caps.
fn places<C: Columns>(columns: &C) -> u64
    ensures { result ≡ sum (C.problem columns.now).caps }
{
    let mut sum = 0;
    for class in 0..columns.classes() {
        sum += u64::from(columns.cap(class));
    }
    sum
}

/// The kept offer with each worth 1, of a pass of fixed rounds.
fn first_count<R: Threads + Sync, P: Pricer + Sync, G: Gate + Sync>(
    rt: &R,
    alloc: Global,
    counted: &P,
    effort: &Effort,
    gate: &G,
) -> Result<Kept, Memory>
    requires effort { IsEffort effort.now }
    ensures kept { IfOk result (IsFirstKept (P.problem counted.now) (numbers_of effort.now)) }
    ensures paid { IfOk result (IsPaidOffer (P.problem counted.now)) }
{
    let (_pool, kept) = pass(rt, alloc, counted, effort, gate)?;
    Ok(kept)
}

/// The kept offer with each worth 1, by the method of the effort.
fn kept_count<R: Threads + Sync, P: Pricer + Sync, G: Gate + Sync>(
    rt: &R,
    alloc: Global,
    counted: &P,
    effort: &Effort,
    counting: Counting,
    gate: &G,
) -> Result<Kept, Memory>
    requires effort { IsEffort effort.now }
    ensures kept { IfOk result (IsKept (P.problem counted.now) (numbers_of effort.now)) }
    ensures paid { IfOk result (IsPaidOffer (P.problem counted.now)) }
{
    if effort.climb {
        climbed_count(rt, alloc, counted, &counting_effort(effort, counting), gate)
    } else {
        first_count(rt, alloc, counted, effort, gate)
    }
}

/// The first pass alone: the kept offer with each worth 1, by the method of the effort. No plan has fewer columns than its bound.
///
/// `counted` is the problem with each worth 1, and `costed` the one with costs, of whose plans the bound speaks. `counting` says how many of
/// the effort's rounds the pass is given where it climbs; with fixed rounds it changes nothing.
///
/// # Errors
///
/// `NoPlan` exactly where the bound is above the sum of all caps; then there is no plan. And `Memory`.
pub fn count_of<R: Threads + Sync, P: Pricer + Sync, G: Gate + Sync>(
    rt: &R,
    alloc: Global,
    counted: &P,
    costed: &P,
    effort: &Effort,
    counting: Counting,
    gate: &G,
) -> Result<Kept, PlanFault>
    requires effort { IsEffort effort.now }
    requires counts { IsCountOf (P.problem costed.now) (P.problem counted.now) }
    ensures counts { IfOk result (HasPlaces (P.problem counted.now) (numbers_of effort.now)) }
    ensures bound { IfOk result (λ kept. IsCountBoundOf (P.problem costed.now) kept.bound) }
    ensures paid { IfOk result (IsPaidOffer (P.problem counted.now)) }
    ensures cause { IfErr result (IsCountCause (P.problem counted.now) (P.problem costed.now) (numbers_of effort.now)) }
{
    plan_sizes::<P>();
    match kept_count(rt, alloc, counted, effort, counting, gate) {
        Err(Memory) => Err(PlanFault::Memory),
        Ok(kept) => {
            let places = places(counted);
            if places < kept.bound {
                let bound = kept.bound;
                Err(PlanFault::NoPlan { bound, places })
            } else {
                Ok(kept)
            }
        }
    }
}

/// A rounded plan after its exchange steps.
fn plan_after_exchange<R: Threads + Sync, P: Pricer + Sync>(
    rt: &R,
    alloc: Global,
    costed: &P,
    plan: Plan,
    cost: Kept,
    effort: &Effort,
) -> Result<(Plan, Kept), PlanFault>
    requires pool { HasPool (P.problem costed.now) (numbers_of effort.now) cost plan }
    requires paid { IsPaidOffer (P.problem costed.now) cost }
    requires bound { IsBoundOf (P.problem costed.now) cost.bound }
    ensures made { IfOk result (λ r. IsRounded (P.problem costed.now) (numbers_of effort.now) r.1 r.0.columns) }
    ensures plan { IfOk result (λ r. IsPlan (P.problem costed.now) r.0.columns) }
    ensures cheap { IfOk result (λ r. AreCheap r.0.columns) }
    ensures paid { IfOk result (λ r. IsPaidOffer (P.problem costed.now) r.1) }
    ensures bound { IfOk result (λ r. IsBoundOf (P.problem costed.now) r.1.bound) }
    ensures cause { IfErr result (λ fault. fault ≡ PlanFault.Memory) }
{
    let mut plan = plan;
    match improve(rt, alloc, costed, &mut plan, effort.exchange) {
        Err(Memory) => Err(PlanFault::Memory),
        Ok(_made) => Ok((plan, cost)),
    }
}

/// The pass of fixed rounds with costs, rounding and exchange.
fn rounded_plan<R: Threads + Sync, P: Pricer + Sync, G: Gate + Sync>(
    rt: &R,
    alloc: Global,
    costed: &P,
    effort: &Effort,
    gate: &G,
) -> Result<(Plan, Kept), PlanFault>
    requires effort { IsEffort effort.now }
    ensures made { IfOk result (λ r. IsRounded (P.problem costed.now) (numbers_of effort.now) r.1 r.0.columns) }
    ensures plan { IfOk result (λ r. IsPlan (P.problem costed.now) r.0.columns) }
    ensures cheap { IfOk result (λ r. AreCheap r.0.columns) }
    ensures paid { IfOk result (λ r. IsPaidOffer (P.problem costed.now) r.1) }
    ensures bound { IfOk result (λ r. IsBoundOf (P.problem costed.now) r.1.bound) }
    ensures cause { IfErr result (IsRoundedCause (P.problem costed.now) (numbers_of effort.now)) }
{
    match pass(rt, alloc, costed, effort, gate) {
        Err(Memory) => Err(PlanFault::Memory),
        Ok((pool, kept)) => match round(alloc, costed, &pool, &kept.prices) {
            Err(RoundFault::NotPlaced { item, partial }) => Err(PlanFault::NotPlaced {
                item,
                partial,
            }),
            Err(RoundFault::Memory) => Err(PlanFault::Memory),
            Ok(plan) => plan_after_exchange(rt, alloc, costed, plan, kept, effort),
        },
    }
}

/// A plan with its bound, by the method of the effort.
fn cost_plan<R: Threads + Sync, P: Pricer + Sync, G: Gate + Sync>(
    rt: &R,
    alloc: Global,
    costed: &P,
    effort: &Effort,
    gate: &G,
) -> Result<(Plan, Kept), PlanFault>
    requires effort { IsEffort effort.now }
    ensures made { IfOk result (λ r. IsMade (P.problem costed.now) (numbers_of effort.now) r.1 r.0.columns) }
    ensures plan { IfOk result (λ r. IsPlan (P.problem costed.now) r.0.columns) }
    ensures cheap { IfOk result (λ r. AreCheap r.0.columns) }
    ensures paid { IfOk result (λ r. IsPaidOffer (P.problem costed.now) r.1) }
    ensures bound { IfOk result (λ r. IsBoundOf (P.problem costed.now) r.1.bound) }
    ensures cause { IfErr result (IsCostCause (P.problem costed.now) (numbers_of effort.now)) }
{
    if effort.climb {
        climbed_plan(rt, alloc, costed, effort, gate)
    } else {
        rounded_plan(rt, alloc, costed, effort, gate)
    }
}

/// Plans a problem: a pass with each worth 1, which bounds the number of columns of every plan; a pass with costs, which bounds their
/// costs; then the pool of the second pass is rounded at its kept prices, and exchange steps make the plan cheaper. Where the effort is to
/// climb, both passes are made by [`climb_rounds`] instead, and the second one has the plan; `counting` says how many of the effort's rounds
/// the first one is then given.
///
/// `counted` is the problem with each worth 1 and `costed` the one with costs. What is given is defined without workers and gates
/// (`specs/Endings.antt`). The definition admits one ending alone, unless the effort is to climb: then it says that the plan is one, and
/// that both bounds are those of paid prices.
///
/// # Errors
///
/// `NoPlan` exactly where the kept bound of the first pass is above the sum of all caps; then there is no plan. Else `NotPlaced` exactly
/// where rounding leaves an item, which does not happen where each item alone has a worth in a class whose cap is at least the number of
/// items. And `Memory`.
pub fn plan_of<R: Threads + Sync, P: Pricer + Sync, G: Gate + Sync>(
    rt: &R,
    alloc: Global,
    counted: &P,
    costed: &P,
    effort: &Effort,
    counting: Counting,
    gate: &G,
) -> Result<Planned, PlanFault>
    requires effort { IsEffort effort.now }
    requires counts { IsCountOf (P.problem costed.now) (P.problem counted.now) }
    ensures planned { IfOk result (λ r. IsPlanned (P.problem counted.now) (P.problem costed.now) (numbers_of effort.now) r.count r.cost r.plan.columns) }
    ensures plan { IfOk result (λ r. IsPlan (P.problem costed.now) r.plan.columns) }
    ensures cheap { IfOk result (λ r. AreCheap r.plan.columns) }
    ensures count_bound { IfOk result (λ r. IsCountBoundOf (P.problem costed.now) r.count.bound) }
    ensures cost_bound { IfOk result (λ r. IsBoundOf (P.problem costed.now) r.cost.bound) }
    ensures count_paid { IfOk result (λ r. IsPaidOffer (P.problem counted.now) r.count) }
    ensures cost_paid { IfOk result (λ r. IsPaidOffer (P.problem costed.now) r.cost) }
    ensures cause { IfErr result (IsCause (P.problem counted.now) (P.problem costed.now) (numbers_of effort.now)) }
{
    match count_of(rt, alloc, counted, costed, effort, counting, gate) {
        Err(fault) => Err(fault),
        Ok(count) => match cost_plan(rt, alloc, costed, effort, gate) {
            Err(fault) => Err(fault),
            Ok((plan, cost)) => Ok(Planned { plan, count, cost }),
        },
    }
}
