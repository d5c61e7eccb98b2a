//! How many answers there are. Each function does nothing: its contract is the theorem.
#![tactic(auto)]

ghost use Rattle.std.specs.Prelude.{List};
ghost use Rattle.vdv451_text.specs.declared.table.Table.{Table};
ghost use Rattle.day_model.specs.Facts.{DayFacts};
ghost use Rattle.cert_check.specs.Judging.{Case};
ghost use Rattle.one_answer.specs.Single.{HasOneAnswer, HasOneOldAnswer};

/// What the checker may answer is determined by what it is handed: two answers to one case are the same, the yes with its four numbers or
/// the reason with its places and numbers.
pub fn check_answers_once()
    ensures { (c : Case) → HasOneAnswer c }
{}

/// What may be answered of the tables of an earlier plan is determined by the day and the tables: two answers are the same, what the tables
/// say or the reason with its places and numbers.
pub fn old_plan_has_one_answer()
    ensures { (day : DayFacts) → (plan : List Table) → HasOneOldAnswer day plan }
{}
