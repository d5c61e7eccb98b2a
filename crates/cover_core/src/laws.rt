//! What holds of every problem. Each function does nothing: its contract is the theorem.

ghost use Rattle.cover_core.specs.Plans.{WeakDuality};
ghost use Rattle.cover_core.specs.FirstLeast.{LeastIsPaid, backward_cmp};
ghost use Rattle.std.specs.Cmp.{IsTotalOrder};
ghost use Rattle.cover_core.specs.Laws.{CoveringIsPaid, HasFewColumns, KeepsCaps, CountDuality, NoPlanAbove, BestIsFirstLeast, WithinIsLimited, BestIsFitting, KeepsOrder, KeepsEarlier, TellsApart};

use crate::Columns;

/// No plan costs less than the bound of paid prices (weak duality of linear programming, for set partitioning with classes).
pub fn weak_duality<C: Columns>()
    ensures { (columns : C) → WeakDuality (C.problem columns) }
{}

/// Prices are paid where each class price is at least 0 and at least minus the least value of its class; so they are with the
/// class prices that are made of least values.
pub fn least_is_paid<C: Columns>()
    ensures covering { (columns : C) → CoveringIsPaid (C.problem columns) }
    ensures least { (columns : C) → LeastIsPaid (C.problem columns) }
{}

/// How many columns a plan has: no more than items, no more than the caps allow, and no fewer than a bound that was made with each
/// worth 1. Where that bound is above the sum of the caps there is no plan.
pub fn plan_sizes<C: Columns>()
    ensures items { (columns : C) → HasFewColumns (C.problem columns) }
    ensures caps { (columns : C) → KeepsCaps (C.problem columns) }
    ensures count { (columns : C) → CountDuality (C.problem columns) }
    ensures none { (columns : C) → NoPlanAbove (C.problem columns) }
{}

/// The best column of a class and group is its first least, and no other column is; under a limit it is there exactly where its
/// value is not above the limit. Its class is the class asked for, and its list rises and has items of the problem alone.
pub fn best_is_first_least<C: Columns>()
    ensures best { (columns : C) → BestIsFirstLeast (C.problem columns) }
    ensures limited { (columns : C) → WithinIsLimited (C.problem columns) }
    ensures fitting { (columns : C) → BestIsFitting (C.problem columns) }
{}

/// Lists compared from their last items backwards: a total order that tells any two lists apart and that a common tail keeps. So a
/// list that is at least as good as another and not later stays so over every common continuation.
pub fn backward_order()
    ensures total { IsTotalOrder backward_cmp }
    ensures apart { TellsApart }
    ensures tail { KeepsOrder }
    ensures kept { KeepsEarlier }
{}
