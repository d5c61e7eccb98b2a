//! What rounding gives, of every problem. The function does nothing: its contract is the theorem.

ghost use Rattle.plan_round.specs.Laws.{RoundsToPlan, LeavesNone};

use cover_core::Columns;

/// Rounding over columns in any order gives a plan, or an item that has no place beside a part of one. It leaves no item where each one
/// alone has a worth in a class whose cap is at least the number of items.
pub fn rounds_to_plan<C: Columns>()
    ensures plan { (columns : C) → RoundsToPlan (C.problem columns) }
    ensures complete { (columns : C) → LeavesNone (C.problem columns) }
{}
