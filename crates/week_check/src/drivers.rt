//! The duties of each driver in their order.

ghost use Rattle.std.specs.Prelude.{◌≡◌, ◌≤◌, ◌<◌, ◌^◌, [], All, IfOk, IsPermutation, OnOk, length};
ghost use Rattle.std.specs.List.{flat_map};
ghost use Rattle.std.specs.List.Sorted.{IsSortedBy};
ghost use Rattle.week_check.specs.Denials as spec;
ghost use Rattle.week_check.specs.Duties as duties;

use crate::daily::add_daily;
use crate::denial::Denial;
use crate::rests::{add_rests, rests_of};
use crate::turn::{Turn, first_turn};
use crate::weeks::add_weeks;
use plan_core::Memory;
use std::alloc::Global;
use std::cmp::Ordering;

/// Orders duties by end, driving and pause.
fn compare_rest(x: &Turn, y: &Turn) -> Ordering
    ensures { result ≡ duties.rest_order x.now y.now }
{
    x.end
        .cmp(&y.end)
        .then(x.driving.cmp(&y.driving).then(x.three.cmp(&y.three)))
}

/// Orders duties by driver, begin and day, and else by what is left.
fn compare(x: &Turn, y: &Turn) -> Ordering
    ensures { result ≡ duties.turn_order x.now y.now }
{
    let days = x.day.cmp(&y.day).then(compare_rest(x, y));
    x.driver
        .cmp(&y.driver)
        .then(x.begin.cmp(&y.begin).then(days))
}

fn sort(turns: &mut Vec<Turn>) -> Result<(), Memory>
    ensures permutation { IsPermutation turns.old.items turns.new.items }
    ensures sorted { OnOk result (IsSortedBy duties.is_before turns.new.items) }
{
    match turns.sort_by(
        |x: &Turn, y: &Turn| -> Ordering
            ensures { result ≡ duties.turn_order x.now y.now }
        { compare(x, y) },
    ) {
        Ok(()) => Ok(()),
        Err(_) => Err(Memory),
    }
}

/// The duties by driver, and each driver's by start and day.
pub(crate) fn in_order(alloc: Global, turns: &[Turn]) -> Result<Vec<Turn>, Memory>
    ensures permutation { IfOk result (λ ordered. IsPermutation turns.now ordered.items) }
    ensures sorted { IfOk result (λ ordered. IsSortedBy duties.is_before ordered.items) }
{
    let mut ordered = Vec::from_slice(alloc, turns)?;
    sort(&mut ordered)?;
    Ok(ordered)
}

/// What is denied of one driver's duties in their order.
fn add_driver(alloc: Global, turns: &[Turn], out: &mut Vec<Denial>) -> Result<(), Memory>
    requires each { All duties.IsTurn turns.now }
    requires few { length turns.now < 2 ^ 32 }
    ensures { OnOk result (spec.Adds out.old.items out.new.items (flat_map spec.findings_of (duties.complete turns.now))) }
{
    match first_turn(turns) {
        Some(first) => {
            add_daily(turns, out)?;
            add_weeks(turns, out)?;
            let rests = rests_of(alloc, turns)?;
            add_rests(first.driver, rests.as_slice(), out)
        }
        None => Ok(()),
    }
}

/// Whether the duties so far are none, or another driver's.
fn ends_before(current: &[Turn], turn: &Turn) -> bool
    ensures { result ≡ duties.ends_before current.now turn.now }
{
    match current.first() {
        Some(first) => first.driver != turn.driver,
        None => true,
    }
}

/// What is denied of the driver whose duties end here, after which there are none of the next one.
fn finish(alloc: Global, current: &mut Vec<Turn>, out: &mut Vec<Denial>) -> Result<(), Memory>
    requires each { All duties.IsTurn current.old.items }
    requires few { length current.old.items < 2 ^ 32 }
    ensures found { OnOk result (spec.Adds out.old.items out.new.items (flat_map spec.findings_of (duties.complete current.old.items))) }
    ensures none { OnOk result (current.new.items ≡ []) }
{
    add_driver(alloc, current.as_slice(), out)?;
    current.clear();
    Ok(())
}

/// Puts the next duty behind those of its driver, and lists what is denied of the driver before.
fn add_turn(
    alloc: Global,
    turn: &Turn,
    current: &mut Vec<Turn>,
    out: &mut Vec<Denial>,
) -> Result<(), Memory>
    requires each { All duties.IsTurn current.old.items }
    requires few { length current.old.items < 2 ^ 32 }
    ensures found { OnOk result (spec.Adds out.old.items out.new.items (flat_map spec.findings_of (duties.ended current.old.items turn.now))) }
    ensures current { OnOk result (current.new.items ≡ duties.continued current.old.items turn.now) }
{
    if ends_before(current.as_slice(), turn) {
        finish(alloc, current, out)?;
        current.push(*turn)?;
        return Ok(());
    }
    current.push(*turn)?;
    Ok(())
}

/// What is denied of all drivers, of whose duties in their order each driver's stand together.
pub(crate) fn add_drivers(
    alloc: Global,
    ordered: &[Turn],
    out: &mut Vec<Denial>,
) -> Result<(), Memory>
    requires each { All duties.IsTurn ordered.now }
    requires few { length ordered.now < 2 ^ 32 }
    ensures { OnOk result (spec.Adds out.old.items out.new.items (flat_map spec.findings_of (duties.drivers_lists ordered.now))) }
{
    let mut current = Vec::new(alloc);
    for turn in ordered {
        add_turn(alloc, turn, &mut current, out)?;
    }
    add_driver(alloc, current.as_slice(), out)
}
