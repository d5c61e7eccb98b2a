//! What holds of every day. The functions do nothing: their contracts are the theorems.

ghost use Rattle.day_model.specs.Facts.{DayFacts};
ghost use Rattle.plan_command.specs.Alike.{AreAlike};
ghost use Rattle.replan_command.specs.Alike.{HaveSameCauses, HaveSameTexts};
ghost use Rattle.replan_command.specs.Once.{HasOneCause, HasOneText, HasTextOrCause, RefusedAlone};

/// A day, the tables of an earlier plan, and a moment have one text or one cause for a refusal, and not both, where the rest is planned by
/// fixed rounds: the definitions admit one answer alone, whatever the number of workers. Of climbing this is not said, but that an earlier plan
/// is refused by its tables alone.
pub fn replan_answers_once()
    ensures text { (day : DayFacts) → HasOneText day }
    ensures cause { (day : DayFacts) → HasOneCause day }
    ensures either { (day : DayFacts) → HasTextOrCause day }
    ensures refused { (day : DayFacts) → RefusedAlone day }
{}

/// Two days that agree in version and day type, trips, settings and times of deadheads have the same texts and causes
/// for a refusal when they are planned anew.
pub fn days_alike_are_replanned_alike()
    ensures texts { (one other : DayFacts) → AreAlike one other → HaveSameTexts one other }
    ensures causes { (one other : DayFacts) → AreAlike one other → HaveSameCauses one other }
{}
