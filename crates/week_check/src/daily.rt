//! The driving of a duty: article 6(1).

ghost use Rattle.std.specs.Prelude.{◌≡◌, ◌≤◌, [], All, OnOk, filter, length};
ghost use Rattle.week_check.specs.Denials as spec;
ghost use Rattle.week_check.specs.Duties.{IsTurn};

use crate::days::week_of;
use crate::denial::{Denial, add};
use crate::turn::Turn;
use crate::weeks::is_in_week;
use plan_core::Memory;

/// Nine hours of driving, in seconds.
const NINE_HOURS: u32 = 32_400;

/// Ten hours of driving, in seconds.
const TEN_HOURS: u32 = 36_000;

/// How many of the duties are in a week and have more than nine hours of driving.
fn long_in_week(turns: &[Turn], monday: i64) -> usize
    requires { All IsTurn turns.now }
    ensures value { result ≡ length (filter (spec.is_long_in monday) turns.now) }
{
    let mut count = 0;
    for turn in turns {
        if turn.driving > NINE_HOURS && is_in_week(turn, monday) {
            count += 1;
        }
    }
    count
}

/// Whether a duty has more than ten hours of driving, or more than nine where two earlier ones of
/// its week have.
fn is_past_daily(earlier: &[Turn], turn: &Turn) -> bool
    requires earlier { All IsTurn earlier.now }
    requires turn { IsTurn turn.now }
    ensures { result ≡ spec.is_past_daily earlier.now turn.now }
{
    turn.driving > TEN_HOURS
        || (turn.driving > NINE_HOURS && long_in_week(earlier, week_of(turn.day)) >= 2)
}

fn add_daily_of(earlier: &[Turn], turn: &Turn, out: &mut Vec<Denial>) -> Result<(), Memory>
    requires earlier { All IsTurn earlier.now }
    requires turn { IsTurn turn.now }
    ensures { OnOk result (spec.Adds out.old.items out.new.items (spec.daily_of earlier.now turn.now)) }
{
    let denial = Denial {
        driver: turn.driver,
        article: 61,
        from: turn.day,
        to: turn.day,
        value: i64::from(turn.driving),
    };
    add(out, is_past_daily(earlier, turn), denial)
}

/// What article 6(1) denies of a driver's duties in their order.
pub(crate) fn add_daily(turns: &[Turn], out: &mut Vec<Denial>) -> Result<(), Memory>
    requires { All IsTurn turns.now }
    ensures { OnOk result (spec.Adds out.old.items out.new.items (spec.daily_from [] turns.now)) }
{
    for (place, turn) in turns.iter().enumerate() {
        add_daily_of(&turns[..place], turn, out)?;
    }
    Ok(())
}
