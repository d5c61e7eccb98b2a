//! What holds of every problem and every day. The functions do nothing: their contracts are the theorems.

ghost use Rattle.std.specs.Prelude.{◌≤◌, ℕ};
ghost use Rattle.plan_core.specs.Limits.{most_items};
ghost use Rattle.day_model.specs.Facts.{DayFacts};
ghost use Rattle.made_plans.specs.MadeDays.{IsMadeDay};
ghost use Rattle.made_plans.specs.MadeTables.{AreFaultless, HasKind, HasNoDayFault};
ghost use Rattle.made_plans.specs.Planned.{IsRefusedForMemory};
ghost use Rattle.made_plans.specs.Roomy.{IsRoomy};
ghost use Rattle.made_plans.specs.Rooms.{HasRoomForPieces, HasRoomForTrips};
ghost use Rattle.made_plans.specs.Wide.{HasPlan, IsNotRefused};

use cover_core::Columns;

/// A problem in which each item alone has a worth in a class that has as many places as there are items has a plan. So planning of it is
/// refused for running out of memory alone, by either method.
pub fn wide_problems_have_plans<C: Columns>()
    ensures plan { (columns : C) → HasPlan (C.problem columns) }
    ensures refusal { (counted costed : C) → IsNotRefused (C.problem counted) (C.problem costed) }
{}

/// On a roomy day each trip has room of its own, and so has each piece of the blocks of any plan. So planning of the day is refused for
/// running out of memory alone, by either method, with or without the flow.
pub fn roomy_days_are_planned()
    ensures trips { (facts : DayFacts) → IsRoomy facts → HasRoomForTrips facts }
    ensures pieces { (facts : DayFacts) → IsRoomy facts → HasRoomForPieces facts }
    ensures refusal { (facts : DayFacts) → IsRoomy facts → IsRefusedForMemory facts }
{}

/// A day that is made from a seed, with at most 3,000 trips, is roomy. So planning of it is refused for running out of memory alone.
pub fn made_days_are_planned()
    ensures roomy { (seed trips day : ℕ) (facts : DayFacts) → trips ≤ most_items → IsMadeDay seed trips day facts → IsRoomy facts }
    ensures refusal { (seed trips day : ℕ) (facts : DayFacts) → trips ≤ most_items → IsMadeDay seed trips day facts → IsRefusedForMemory facts }
{}

/// The tables that are made from a seed, with at most 3,000 trips, have no fault, and no reason stands against a day that has a kind in
/// their network, as 20260302 has.
pub fn made_tables_tell_a_day()
    ensures faultless { (seed trips : ℕ) → trips ≤ most_items → AreFaultless seed trips }
    ensures day { (seed trips : ℕ) → trips ≤ most_items → HasNoDayFault seed trips }
    ensures kind { (seed trips : ℕ) → HasKind seed trips 20260302 }
{}
