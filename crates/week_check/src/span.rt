//! The first and the last day of duties.

ghost use Rattle.std.specs.Prelude.{◌≡◌, ◌<◌, ◌⊎◌, ◌≤ℤ◌, All, length};
ghost use Rattle.week_check.specs.Days as days;
ghost use Rattle.week_check.specs.Duties.{IsTurn};
ghost use Rattle.week_check.specs.Roster as spec;

use crate::days::number_of;
use crate::turn::Turn;

/// The earlier of two days.
fn earlier(a: u32, b: u32) -> u32
    requires a { days.IsDutyDay a }
    requires b { days.IsDutyDay b }
    ensures a { days.number_of result ≤ℤ days.number_of a }
    ensures b { days.number_of result ≤ℤ days.number_of b }
    ensures one { (result ≡ a) ⊎ (result ≡ b) }
{
    if number_of(b) < number_of(a) { b } else { a }
}

/// The later of two days.
fn later(a: u32, b: u32) -> u32
    requires a { days.IsDutyDay a }
    requires b { days.IsDutyDay b }
    ensures a { days.number_of a ≤ℤ days.number_of result }
    ensures b { days.number_of b ≤ℤ days.number_of result }
    ensures one { (result ≡ a) ⊎ (result ≡ b) }
{
    if number_of(a) < number_of(b) { b } else { a }
}

/// The first day of duties.
pub(crate) fn first_day(turns: &[Turn]) -> u32
    requires each { All IsTurn turns.now }
    requires some { 0 < length turns.now }
    ensures day { days.IsDutyDay result }
    ensures first { spec.IsFirstDay turns.now result }
{
    let mut first = turns[0].day;
    for turn in turns {
        first = earlier(first, turn.day);
    }
    first
}

/// The last day of duties.
pub(crate) fn last_day(turns: &[Turn]) -> u32
    requires each { All IsTurn turns.now }
    requires some { 0 < length turns.now }
    ensures day { days.IsDutyDay result }
    ensures last { spec.IsLastDay turns.now result }
{
    let mut last = turns[0].day;
    for turn in turns {
        last = later(last, turn.day);
    }
    last
}
