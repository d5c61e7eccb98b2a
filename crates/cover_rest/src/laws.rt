//! What holds of every rest. Each function does nothing: its contract is the theorem.

ghost use Rattle.std.specs.Prelude.{List};
ghost use Rattle.cover_core.specs.Cover.{Problem};
ghost use Rattle.cover_rest.specs.declared.begun.Begun.{Begun};
ghost use Rattle.cover_rest.specs.Keeping.{AreHeads};
ghost use Rattle.cover_rest.specs.Laws.{IsRestKept, IsKeptRest, StandForAll};
ghost use Rattle.cover_rest.specs.Rest as spec;

use cover_core::Columns;

/// The plans of a rest, written out, are the plans that keep the heads: each such plan is one of them, with the same number of columns and
/// the same cost, and each of them is such a plan.
pub fn rest_is_kept<C: Columns>()
    ensures kept { (columns : C) → IsRestKept (C.problem columns) }
    ensures all { (columns : C) → IsKeptRest (C.problem columns) }
{}

/// What the items of a rest stand for, where heads are not empty and no item stands twice in them: each item once, and no other; none
/// stands for nothing, so the rest has no more items than the problem.
pub fn bodies_stand_for_all()
    ensures { (p : Problem) (heads : List Begun) → AreHeads p heads → StandForAll p.items (spec.bodies heads p.items) }
{}
