//! The law that `check` accepts what `plan` and `certify` write, said of the bytes of their texts. Its function does nothing: the contract is
//! the theorem.
#![tactic(auto)]

ghost use Rattle.accepted_texts.specs.Accepted.{WrittenTextsAreAccepted};

use check_answers::{day_plans_are_checkable, read_days_are_checkable, texts_are_accepted};

/// What `plan` and `certify` write of a day is accepted by `check`, said of bytes: behind the same planning files the two texts get the line
/// `yes`, no other line, and the status Ok. The day is planned by fixed rounds.
pub fn written_texts_are_accepted()
    ensures { WrittenTextsAreAccepted }
{
    read_days_are_checkable();
    day_plans_are_checkable();
    texts_are_accepted();
}
