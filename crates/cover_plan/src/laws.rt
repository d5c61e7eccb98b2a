//! What holds of every planning. The function does nothing: its contract is the theorem.

ghost use Rattle.cover_plan.specs.Endings.{EndsOnce};

use cover_core::Columns;

/// The definition of planning by fixed rounds admits one ending alone: one plan with its kept offers, or one bound with the places, or one
/// item with the columns beside which it is left. Of climbing this is not said: what it promises is met by more than one plan.
pub fn ends_once<C: Columns>()
    ensures { (counted costed : C) → EndsOnce (C.problem counted) (C.problem costed) }
{}
