//! What exchange steps keep, of every problem. The function does nothing: its contract is the theorem.

ghost use Rattle.tail_exchange.specs.Exchange.{StepsKeepPlans, StepsImprove};

use cover_core::Columns;

/// Each step that may be made of a plan gives a plan, whose cost differs by what the step says; and n steps lead from a plan to one that
/// costs at least n less.
pub fn steps_keep_plans<C: Columns>()
    ensures keep { (columns : C) → StepsKeepPlans (C.problem columns) }
    ensures improve { (columns : C) → StepsImprove (C.problem columns) }
{}
