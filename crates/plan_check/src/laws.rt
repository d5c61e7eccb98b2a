//! What holds of every problem. Each function does nothing: its contract is the theorem.
#![tactic(auto)]

ghost use Rattle.plan_check.specs.Judged.{AreJudged};
ghost use Rattle.plan_check.specs.Shown.{ShowsPlans};
ghost use Rattle.plan_check.specs.Verdicts.{PlansAreFound};

use cover_core::{Columns, plan_sizes, weak_duality};

/// A plan, with prices that are paid over each worth 1 and prices that are paid over the worths, shows that no plan has fewer columns or
/// a lower cost than the bounds of these prices.
pub fn plan_is_shown<C: Columns>()
    ensures { (columns : C) → ShowsPlans (C.problem columns) }
{
    weak_duality::<C>();
    plan_sizes::<C>();
}

/// The lists of a plan have one verdict alone: that they are this plan. So every other verdict shows that they are none.
pub fn plans_are_found<C: Columns>()
    ensures { (columns : C) → PlansAreFound (C.problem columns) }
{}

/// There is a verdict on all lists, and it can be computed: items first, then lists, then classes.
pub fn lists_are_judged<C: Columns>()
    ensures { (columns : C) → AreJudged (C.problem columns) }
{}
