//! What holds of every day. The functions do nothing: their contracts are the theorems.

ghost use Rattle.day_model.specs.Facts.{DayFacts};
ghost use Rattle.plan_command.specs.Alike.{AreAlike, HaveSameCauses, HaveSameShortTexts, HaveSameTexts};
ghost use Rattle.plan_command.specs.Once.{HasOneCause, HasOneShortText, HasOneText, HasShortTextOrCause, HasTextOrCause, PlanEndsOnce};

/// Planning of a day by fixed rounds ends in one way alone. So a day has one text and one short text or one cause for a refusal, and not both: the definitions of both
/// admit one answer alone, whatever the number of workers. Of climbing this is not said.
pub fn day_answers_once()
    ensures ends { (facts : DayFacts) → PlanEndsOnce facts }
    ensures text { (facts : DayFacts) → HasOneText facts }
    ensures cause { (facts : DayFacts) → HasOneCause facts }
    ensures either { (facts : DayFacts) → HasTextOrCause facts }
    ensures short { (facts : DayFacts) → HasOneShortText facts }
    ensures short_either { (facts : DayFacts) → HasShortTextOrCause facts }
{}

/// Two days that agree in version and day type, trips, settings and times of deadheads have the same texts, short
/// texts and causes for a refusal, by either method. So nothing of a plan hangs on the order in which a network tells its deadheads, nor on
/// the date.
pub fn days_alike_answer_alike()
    ensures texts { (one other : DayFacts) → AreAlike one other → HaveSameTexts one other }
    ensures shorts { (one other : DayFacts) → AreAlike one other → HaveSameShortTexts one other }
    ensures causes { (one other : DayFacts) → AreAlike one other → HaveSameCauses one other }
{}
