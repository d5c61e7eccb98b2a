//! What holds of every day. The function does nothing: its contract is the theorem.

ghost use Rattle.day_method.specs.Method.{DayProblems, DayEndsOnce};

/// The definition of the planning of a day by fixed rounds admits one ending alone: one answer, or one refusal.
pub fn day_ends_once()
    ensures { (day : DayProblems) → DayEndsOnce day }
{}
