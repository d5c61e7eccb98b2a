//! What holds of every planned day. Each function does nothing: its contract is the theorem.
#![tactic(auto)]

ghost use Rattle.vdv451_text.specs.declared.table.Table.{Table as TableOf};
ghost use Rattle.day_model.specs.Facts.{DayFacts};
ghost use Rattle.check_answers.specs.Accepted.{EachAnswerIsYes, WrittenAreAccepted, YesIsAnAnswer};
ghost use Rattle.check_answers.specs.Checkable.{DayPlansAreCheckable};
ghost use Rattle.check_answers.specs.DayRead.{ReadDaysAreCheckable};
ghost use Rattle.check_answers.specs.Texts.{TextsAreAccepted};

use cert_check::accepted_has_no_reason;
use plan_cert::certificates_are_read_back;
use plan_certify::day_is_certified_once;
use plan_read::{plans_are_read_back, printed_once};

/// The checker accepts the plan and the certificate that the planner writes of a day: what is read back from their tables are the blocks,
/// the duties and the certificate, and nothing is against them. So a yes with the number and the cost of the blocks and of the duties is
/// an answer of the checker, and no answer is a no.
///
/// The blocks are a plan, the duties are one over their pieces, both stand in printed order, and the offers that were kept in the four
/// passes are paid. [`day_plans_are_checkable`] has this of every day that the method plans.
pub fn written_are_accepted()
    ensures accepted { WrittenAreAccepted }
    ensures yes { YesIsAnAnswer }
    ensures only { EachAnswerIsYes }
{
    plans_are_read_back();
    certificates_are_read_back();
    accepted_has_no_reason();
}

/// The blocks and duties that the method ends with can be checked, by either method.
///
/// No two trips of the day have one FRT_FID, the numbers of its pools and of its groups rise, its numbers are in their ranges, no deadhead
/// takes longer than two days, and REC_FRT has one row for each trip. [`read_days_are_checkable`] has this of every day that is read.
pub fn day_plans_are_checkable()
    ensures { (facts : DayFacts) (table : TableOf) → DayPlansAreCheckable facts table }
{
    printed_once();
}

/// A day that is read from plain tables without a fault has what its plans need to be checked: no key stands twice in a table, so no two
/// trips of the day have one FRT_FID, and the numbers of its pools and of its groups rise; and no deadhead takes longer than two days.
pub fn read_days_are_checkable()
    ensures { ReadDaysAreCheckable }
{}

/// The tables of the text that `plan_command::plan_text` writes of a day, with those of the text that `plan_certify::certificate_text`
/// writes of it, get a yes with the number and the cost of the plan's blocks and duties, and no answer is a no. The day is planned by fixed
/// rounds, so that the certificate is that of the plan; the two may have been written with any numbers of workers.
pub fn texts_are_accepted()
    ensures { TextsAreAccepted }
{
    printed_once();
    plans_are_read_back();
    certificates_are_read_back();
    accepted_has_no_reason();
    day_is_certified_once();
}
