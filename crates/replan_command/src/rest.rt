//! One side of a day that is planned anew: the blocks or the duties.

ghost use Rattle.std.specs.Prelude.{◌≡◌, ◌<◌, ℕ, List, Option, Some, IfOk, IfErr};
ghost use Rattle.cover_core.specs.FirstLeast.{AreCheap};
ghost use Rattle.cover_core.specs.Laws.{IsCountOf};
ghost use Rattle.cover_core.specs.Plans.{AreColumns};
ghost use Rattle.price_rounds.specs.Efforts.{IsEffort};
ghost use Rattle.cover_plan.specs.Endings.{numbers_of};
ghost use Rattle.cover_rest.specs.Rest.{written_plan};
ghost use Rattle.umlauf_write.specs.Printed.{printed};
ghost use Rattle.plan_command.specs.declared.fault.ItemName.{ItemName as NameOf};
ghost use Rattle.plan_command.specs.Planning.{side_of};
ghost use Rattle.replan_command.specs.Steps.{IsFaultIn, IsMadeSide, IsWrittenCause, IsWrittenFault};

use cover_core::{Plan, Pricer};
use cover_plan::{Counting, PlanFault as CoverFault, Planned, plan_of};
use day_method::Side;
use plan_command::{ItemName, PlanFault};
use plan_core::{Gate, Memory};
use price_rounds::Effort;
use std::alloc::Global;
use std::thread::Threads;
use umlauf_write::in_printed_order;

/// What is left of one side of a day from a moment on.
pub(crate) trait Rest: Pricer {
    /// What each item stands for: trips or pieces.
    ghost items_of: { Self → List (List ℕ) };

    /// The items stand for all trips or pieces.
    ghost stand_for_all: { Self → Type 0 };

    /// The name of an item: that of the first that it stands for.
    ghost name_of: { Self → ℕ → Option NameOf };

    /// The name of an item.
    fn name(&self, item: u32) -> ItemName
        requires item { item < (Self.problem self.now).items }
        requires stand { stand_for_all self.now }
        ensures { name_of self.now item ≡ Some result };

    /// The columns of a plan, each with what its items stand for. `Memory` is the only error.
    fn written_out(&self, alloc: Global, plan: &Plan) -> Result<Plan, Memory>
        requires { AreColumns (Self.problem self.now) plan.now.columns }
        ensures { IfOk result (λ written. written.columns ≡ written_plan (items_of self.now) plan.now.columns) };
}

/// A plan of a rest, written out and in printed order.
fn plan_in_printed_order<P: Rest>(alloc: Global, rest: &P, plan: &Plan) -> Result<Plan, Memory>
    requires columns { AreColumns (P.problem rest.now) plan.now.columns }
    requires cheap { AreCheap plan.now.columns }
    ensures order { IfOk result (λ written. written.columns ≡ printed (written_plan (P.items_of rest.now) plan.now.columns)) }
    ensures cheap { IfOk result (λ written. AreCheap written.columns) }
{
    in_printed_order(rest.written_out(alloc, plan)?)
}

/// Why there is no new plan of a side.
fn written_fault<P: Rest>(alloc: Global, side: Side, rest: &P, fault: CoverFault) -> PlanFault
    requires fault { IsFaultIn (P.problem rest.now) fault }
    requires stand { P.stand_for_all rest.now }
    ensures { IsWrittenFault side (P.name_of rest.now) (P.items_of rest.now) fault result }
{
    match fault {
        CoverFault::NoPlan { bound, places } => PlanFault::NoPlan {
            side,
            bound,
            places,
        },
        CoverFault::NotPlaced { item, partial } => match rest.written_out(alloc, &partial) {
            Ok(partial) => PlanFault::NotPlaced {
                side,
                item,
                name: rest.name(item),
                partial,
            },
            Err(Memory) => PlanFault::Memory,
        },
        CoverFault::Memory => PlanFault::Memory,
    }
}

/// The new plan of a side over a rest that is counted and the same rest with costs, in printed order.
pub(crate) fn new_side<R: Threads + Sync, P: Rest + Sync, G: Gate + Sync>(
    rt: &R,
    alloc: Global,
    side: Side,
    counted: &P,
    costed: &P,
    effort: &Effort,
    counting: Counting,
    gate: &G,
) -> Result<Planned, PlanFault>
    requires effort { IsEffort effort.now }
    requires counts { IsCountOf (P.problem costed.now) (P.problem counted.now) }
    requires stand { P.stand_for_all costed.now }
    ensures side { IfOk result (λ made. IsMadeSide (P.problem counted.now) (P.problem costed.now) (P.items_of costed.now) (numbers_of effort.now) (side_of made)) }
    ensures cheap { IfOk result (λ made. AreCheap made.plan.columns) }
    ensures cause { IfErr result (IsWrittenCause side (P.problem counted.now) (P.problem costed.now) (P.name_of costed.now) (P.items_of costed.now) (numbers_of effort.now)) }
{
    match plan_of(rt, alloc, counted, costed, effort, counting, gate) {
        Err(fault) => Err(written_fault(alloc, side, costed, fault)),
        Ok(Planned { plan, count, cost }) => match plan_in_printed_order(alloc, costed, &plan) {
            Err(Memory) => Err(PlanFault::Memory),
            Ok(plan) => Ok(Planned { plan, count, cost }),
        },
    }
}
