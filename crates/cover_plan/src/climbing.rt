//! Bounds and plans by climbing.

ghost use Rattle.std.specs.Prelude.{◌≡◌, IfOk, IfErr};
ghost use Rattle.cover_core.specs.Plans.{IsPlan};
ghost use Rattle.cover_core.specs.FirstLeast.{AreCheap};
ghost use Rattle.price_rounds.specs.Efforts.{IsEffort};
ghost use Rattle.price_rounds.specs.Rounds.{IsBoundOf};
ghost use Rattle.price_rounds.specs.Steps.{IsOffer};
ghost use Rattle.cover_plan.specs.Endings.{IsClimbed};
ghost use Rattle.cover_plan.specs.Ends.{IsPaidOffer};
ghost use Rattle.cover_plan.specs.Steps.{IsClimbedCause};

use crate::fault::PlanFault;
use climb_rounds::{ClimbFault, Climbed, climb_count, climb_plan};
use cover_core::{Plan, Pricer};
use dual_bound::Kept;
use plan_core::{Gate, Memory};
use price_rounds::{Effort, offers_are_paid};
use std::alloc::Global;
use std::thread::Threads;

/// The kept offer with each worth 1.
pub(crate) fn climbed_count<R: Threads + Sync, P: Pricer + Sync, G: Gate + Sync>(
    rt: &R,
    alloc: Global,
    counted: &P,
    effort: &Effort,
    gate: &G,
) -> Result<Kept, Memory>
    requires effort { IsEffort effort.now }
    ensures offer { IfOk result (IsOffer (P.problem counted.now)) }
    ensures paid { IfOk result (IsPaidOffer (P.problem counted.now)) }
{
    offers_are_paid::<P>();
    let kept = climb_count(rt, alloc, counted, effort, gate)?;
    Ok(kept)
}

/// A plan with its bound.
pub(crate) fn climbed_plan<R: Threads + Sync, P: Pricer + Sync, G: Gate + Sync>(
    rt: &R,
    alloc: Global,
    costed: &P,
    effort: &Effort,
    gate: &G,
) -> Result<(Plan, Kept), PlanFault>
    requires effort { IsEffort effort.now }
    ensures made { IfOk result (λ r. IsClimbed (P.problem costed.now) r.1 r.0.columns) }
    ensures plan { IfOk result (λ r. IsPlan (P.problem costed.now) r.0.columns) }
    ensures cheap { IfOk result (λ r. AreCheap r.0.columns) }
    ensures paid { IfOk result (λ r. IsPaidOffer (P.problem costed.now) r.1) }
    ensures bound { IfOk result (λ r. IsBoundOf (P.problem costed.now) r.1.bound) }
    ensures cause { IfErr result (IsClimbedCause (P.problem costed.now)) }
{
    offers_are_paid::<P>();
    match climb_plan(rt, alloc, costed, effort, gate) {
        Ok(Climbed { plan, kept }) => Ok((plan, kept)),
        Err(ClimbFault::NotPlaced { item, partial }) => Err(PlanFault::NotPlaced { item, partial }),
        Err(ClimbFault::Memory) => Err(PlanFault::Memory),
    }
}
