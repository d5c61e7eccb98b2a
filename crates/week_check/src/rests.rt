//! The rests after a driver's duties: articles 8(2) and 8(4).

ghost use Rattle.std.specs.Int.{int_min};
ghost use Rattle.std.specs.Prelude.{◌-ℤ◌, pos, ◌≡◌, ◌≤◌, ◌<◌, ◌^◌, [], All, OnOk, IfOk, length};
ghost use Rattle.week_check.specs.Denials as spec;
ghost use Rattle.week_check.specs.Duties as duties;

use crate::denial::{Denial, add};
use crate::rest::Rest;
use crate::turn::{Turn, first_turn};
use plan_core::Memory;
use std::alloc::Global;

/// The length of a weekly rest, and of the time in which a daily rest is taken, in seconds.
const DAY: i64 = 86_400;

/// The least daily rest, in seconds: nine hours.
const NINE_HOURS: i64 = 32_400;

/// The regular daily rest, in seconds: eleven hours.
const ELEVEN_HOURS: i64 = 39_600;

/// How many reduced rests may be between two weekly rests.
const MOST_REDUCED: usize = 3;

/// The seconds from a duty up to the driver's next one, or a day after the last one.
fn gap_after(turn: &Turn, later: &[Turn]) -> i64
    requires turn { duties.IsTurn turn.now }
    requires later { All duties.IsTurn later.now }
    ensures { result ≡ duties.gap_after turn.now later.now }
{
    match first_turn(later) {
        Some(next) => next.begin - turn.end,
        None => DAY,
    }
}

fn next_day(turn: &Turn, later: &[Turn]) -> u32
    ensures { result ≡ duties.next_day turn.now later.now }
{
    match first_turn(later) {
        Some(next) => next.day,
        None => turn.day,
    }
}

/// The part of a gap that lies within the 24 hours from a duty's start.
fn within_day(turn: &Turn, gap: i64) -> i64
    requires { duties.IsTurn turn.now }
    ensures { result ≡ int_min gap (pos 86400 -ℤ (turn.now.end -ℤ turn.now.begin)) }
{
    let most = DAY - (turn.end - turn.begin);
    if most < gap { most } else { gap }
}

/// The rest after a duty.
fn rest_of(turn: &Turn, later: &[Turn]) -> Rest
    requires turn { duties.IsTurn turn.now }
    requires later { All duties.IsTurn later.now }
    ensures value { result ≡ duties.rest_of turn.now later.now }
{
    let gap = gap_after(turn, later);
    Rest {
        day: turn.day,
        next: next_day(turn, later),
        gap,
        length: within_day(turn, gap),
        three: turn.three,
    }
}

/// The rests after a driver's duties in their order.
pub(crate) fn rests_of(alloc: Global, turns: &[Turn]) -> Result<Vec<Rest>, Memory>
    requires { All duties.IsTurn turns.now }
    ensures value { IfOk result (λ rests. rests.items ≡ duties.rests_of turns.now) }
    ensures days { IfOk result (λ rests. All spec.HasRestDays rests.items) }
{
    let mut rests = Vec::with_capacity(alloc, turns.len())?;
    for (place, turn) in turns.iter().enumerate() {
        rests.push(rest_of(turn, &turns[place + 1..]))?;
    }
    Ok(rests)
}

fn is_weekly(rest: &Rest) -> bool
    ensures { result ≡ duties.is_weekly rest.now }
{
    rest.gap >= DAY
}

fn is_reduced(rest: &Rest) -> bool
    ensures { result ≡ duties.is_reduced rest.now }
{
    rest.length >= NINE_HOURS && rest.length < ELEVEN_HOURS && !is_weekly(rest) && !rest.three
}

/// How many there were since the last weekly rest, after one rest more.
fn reduced_after(count: usize, rest: &Rest) -> usize
    requires { count < 2 ^ 63 }
    ensures { result ≡ duties.reduced_after count rest.now }
{
    if is_weekly(rest) {
        return 0;
    }
    if is_reduced(rest) {
        return count + 1;
    }
    count
}

/// How many reduced rests there were since the last weekly rest.
fn reduced_in(rests: &[Rest]) -> usize
    ensures value { result ≡ duties.reduced_in rests.now }
    ensures bound { result ≤ length rests.now }
{
    let mut count = 0;
    for rest in rests {
        count = reduced_after(count, rest);
    }
    count
}

fn add_short(driver: u32, rest: &Rest, out: &mut Vec<Denial>) -> Result<(), Memory>
    requires { spec.HasRestDays rest.now }
    ensures { OnOk result (spec.Adds out.old.items out.new.items (spec.short_of driver rest.now)) }
{
    let denial = Denial {
        driver,
        article: 82,
        from: rest.day,
        to: rest.next,
        value: rest.length,
    };
    add(out, rest.length < NINE_HOURS, denial)
}

fn add_reduced(
    driver: u32,
    earlier: &[Rest],
    rest: &Rest,
    out: &mut Vec<Denial>,
) -> Result<(), Memory>
    requires { spec.HasRestDays rest.now }
    ensures { OnOk result (spec.Adds out.old.items out.new.items (spec.reduced_of driver earlier.now rest.now)) }
{
    let before = reduced_in(earlier);
    let denial = Denial {
        driver,
        article: 84,
        from: rest.day,
        to: rest.next,
        value: before as i64 + 1,
    };
    add(out, is_reduced(rest) && before >= MOST_REDUCED, denial)
}

fn add_rests_at(
    driver: u32,
    earlier: &[Rest],
    rest: &Rest,
    out: &mut Vec<Denial>,
) -> Result<(), Memory>
    requires { spec.HasRestDays rest.now }
    ensures { OnOk result (spec.Adds out.old.items out.new.items (spec.rests_at driver earlier.now rest.now)) }
{
    add_short(driver, rest, out)?;
    add_reduced(driver, earlier, rest, out)
}

/// What articles 8(2) and 8(4) deny of a driver's rests in their order.
pub(crate) fn add_rests(driver: u32, rests: &[Rest], out: &mut Vec<Denial>) -> Result<(), Memory>
    requires { All spec.HasRestDays rests.now }
    ensures { OnOk result (spec.Adds out.old.items out.new.items (spec.rests_from driver [] rests.now)) }
{
    for (place, rest) in rests.iter().enumerate() {
        add_rests_at(driver, &rests[..place], rest, out)?;
    }
    Ok(())
}
