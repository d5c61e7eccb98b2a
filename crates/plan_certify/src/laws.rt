//! What holds of every day. Each function does nothing: its contract is the theorem.

ghost use Rattle.day_model.specs.Facts.{DayFacts};
ghost use Rattle.plan_command.specs.Alike.{AreAlike};
ghost use Rattle.plan_command.specs.Once.{HasTextOrCause};
ghost use Rattle.plan_certify.specs.Alike.{HaveSameCertificates};
ghost use Rattle.plan_certify.specs.Once.{CertifiesThePlan, HasCertOrCause, HasOneCert, HasOneCertText};

use plan_command::day_answers_once;

/// The certificate of a day is a function of the day and its plan: two certificates of the same blocks and duties are the same, by either
/// method. A day that is planned by fixed rounds has one text of a certificate, and it certifies the plan that `plan_command::plan_text`
/// writes. A day with such a text, or with the text of a plan, has no cause for a refusal but running out of memory.
pub fn day_is_certified_once()
    ensures cert { (facts : DayFacts) → HasOneCert facts }
    ensures text { (facts : DayFacts) → HasOneCertText facts }
    ensures plan { (facts : DayFacts) → CertifiesThePlan facts }
    ensures either { (facts : DayFacts) → HasCertOrCause facts }
    ensures planned { (facts : DayFacts) → HasTextOrCause facts }
{
    day_answers_once();
}

/// Two days that agree in version, day type, trips, settings and times of deadheads have the same certificates: in which order a network
/// lists its deadheads changes nothing.
pub fn days_alike_are_certified_alike()
    ensures { (one other : DayFacts) → AreAlike one other → HaveSameCertificates one other }
{}
