//! The driving of a week and of two neighbouring weeks: articles 6(2) and 6(3).

ghost use Rattle.std.specs.Prelude.{◌≡◌, ◌≤◌, ◌<◌, ◌+ℤ◌, ◌&&◌, nat_lt, ◌*◌, ◌^◌, ◌≤ℤ◌, pos, neg_ℤ, [], All, OnOk, length};
ghost use Rattle.week_check.specs.Denials as spec;
ghost use Rattle.week_check.specs.Duties.{IsTurn};

use crate::days::{day_of, week_of};
use crate::denial::{Denial, add};
use crate::turn::Turn;
use plan_core::Memory;

/// The greatest driving of a week, in seconds: 56 hours.
const WEEK: u64 = 201_600;

/// The greatest driving of two neighbouring weeks, in seconds: 90 hours.
const TWO_WEEKS: u64 = 324_000;

/// Whether a duty is in the week with this number of its Monday.
pub(crate) fn is_in_week(turn: &Turn, monday: i64) -> bool
    requires { IsTurn turn.now }
    ensures { result ≡ spec.is_in_week monday turn.now }
{
    week_of(turn.day) == monday
}

/// Whether some duty is in the week.
fn has_duty_in(turns: &[Turn], monday: i64) -> bool
    requires { All IsTurn turns.now }
    ensures { result ≡ spec.has_duty_in monday turns.now }
{
    for turn in turns {
        if is_in_week(turn, monday) {
            return true;
        }
    }
    false
}

/// The driving of a duty in the week, in seconds; 0 in another week.
fn driving_in(turn: &Turn, monday: i64) -> u64
    requires { IsTurn turn.now }
    ensures value { result ≡ spec.driving_in monday turn.now }
    ensures bound { result ≤ 172800 }
{
    if is_in_week(turn, monday) {
        u64::from(turn.driving)
    } else {
        0
    }
}

/// The driving in the week, in seconds.
fn week_sum(turns: &[Turn], monday: i64) -> u64
    requires each { All IsTurn turns.now }
    requires few { length turns.now < 2 ^ 32 }
    ensures value { result ≡ spec.week_sum monday turns.now }
    ensures bound { result ≤ 172800 * length turns.now }
{
    let mut sum = 0;
    for turn in turns {
        sum += driving_in(turn, monday);
    }
    sum
}

fn add_weekly(driver: u32, monday: i64, turns: &[Turn], out: &mut Vec<Denial>) -> Result<(), Memory>
    requires each { All IsTurn turns.now }
    requires few { length turns.now < 2 ^ 32 }
    requires first { neg_ℤ (pos 719502) ≤ℤ monday }
    requires last { monday ≤ℤ pos 2932531 }
    ensures { OnOk result (spec.Adds out.old.items out.new.items (spec.weekly_at driver monday turns.now)) }
{
    let sum = week_sum(turns, monday);
    let denial = Denial {
        driver,
        article: 62,
        from: day_of(monday),
        to: day_of(monday + 6),
        value: sum as i64,
    };
    add(out, sum > WEEK, denial)
}

/// The driving in the week and in the one after it, in seconds.
fn two_weeks_sum(turns: &[Turn], monday: i64) -> u64
    requires each { All IsTurn turns.now }
    requires few { length turns.now < 2 ^ 32 }
    requires last { monday ≤ℤ pos 2932531 }
    ensures value { result ≡ spec.two_weeks_sum monday turns.now }
    ensures bound { result < 2 ^ 63 }
{
    week_sum(turns, monday) + week_sum(turns, monday + 7)
}

/// Whether the week after has a duty, and the driving of the two weeks is too much.
fn is_past_fortnight(turns: &[Turn], monday: i64, sum: u64) -> bool
    requires each { All IsTurn turns.now }
    requires last { monday ≤ℤ pos 2932531 }
    ensures { result ≡ (spec.has_duty_in (monday +ℤ pos 7) turns.now && nat_lt 324000 sum) }
{
    has_duty_in(turns, monday + 7) && sum > TWO_WEEKS
}

fn add_fortnight(
    driver: u32,
    monday: i64,
    turns: &[Turn],
    out: &mut Vec<Denial>,
) -> Result<(), Memory>
    requires each { All IsTurn turns.now }
    requires few { length turns.now < 2 ^ 32 }
    requires first { neg_ℤ (pos 719502) ≤ℤ monday }
    requires last { monday ≤ℤ pos 2932531 }
    ensures { OnOk result (spec.Adds out.old.items out.new.items (spec.fortnight_at driver monday turns.now)) }
{
    let sum = two_weeks_sum(turns, monday);
    let denial = Denial {
        driver,
        article: 63,
        from: day_of(monday),
        to: day_of(monday + 13),
        value: sum as i64,
    };
    add(out, is_past_fortnight(turns, monday, sum), denial)
}

/// What is denied of the week of a duty and the one after it, where no earlier duty is in its week.
fn add_weeks_at(
    turns: &[Turn],
    earlier: &[Turn],
    turn: &Turn,
    out: &mut Vec<Denial>,
) -> Result<(), Memory>
    requires each { All IsTurn turns.now }
    requires few { length turns.now < 2 ^ 32 }
    requires earlier { All IsTurn earlier.now }
    requires turn { IsTurn turn.now }
    ensures { OnOk result (spec.Adds out.old.items out.new.items (spec.weeks_at turns.now earlier.now turn.now)) }
{
    let monday = week_of(turn.day);
    if has_duty_in(earlier, monday) {
        return Ok(());
    }
    add_weekly(turn.driver, monday, turns, out)?;
    add_fortnight(turn.driver, monday, turns, out)
}

/// What articles 6(2) and 6(3) deny of a driver's duties in their order.
pub(crate) fn add_weeks(turns: &[Turn], out: &mut Vec<Denial>) -> Result<(), Memory>
    requires each { All IsTurn turns.now }
    requires few { length turns.now < 2 ^ 32 }
    ensures { OnOk result (spec.Adds out.old.items out.new.items (spec.weeks_from turns.now [] turns.now)) }
{
    for (place, turn) in turns.iter().enumerate() {
        add_weeks_at(turns, &turns[..place], turn, out)?;
    }
    Ok(())
}
