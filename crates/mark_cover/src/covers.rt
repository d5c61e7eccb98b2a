//! What a cover shows.
#![tactic(auto)]

ghost use Rattle.std.specs.declared.cmp.Ordering.{Ordering};
ghost use Rattle.mark_cover.specs.Covers.{CoverIsPaid};
ghost use Rattle.mark_cover.specs.Minimal.{KeptAreMinimal};

use crate::marks::Marks;

/// A cover with class prices of at least 0 implies that prices are paid: no list of a class has a value below minus the class price. It
/// holds of every list of marks, whoever made them.
pub fn cover_is_paid<M: Marks>()
    ensures { (marks : M) → CoverIsPaid (M.marking marks) (M.problem marks) (M.prices marks) }
{}

/// Marks of open lists, put in rising order, are exactly those to which no other mark is at least as good, each once, where they meet each
/// list of one item and each of their extensions and none of them is at least as good as another one. It holds of every order of marks.
pub fn kept_marks_are_minimal<M: Marks>()
    ensures { (marks : M) (order : M.Mark → M.Mark → Ordering) → KeptAreMinimal (M.marking marks) order }
{}
