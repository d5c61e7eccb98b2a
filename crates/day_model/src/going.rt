//! From one trip to another, where the times of the deadheads are known.

ghost use Rattle.std.specs.Prelude.{◌≡◌, ◌≤ℤ◌, ◌-ℤ◌, pos, neg_ℤ, IfSome};
ghost use Rattle.vdv452_tables.specs.Ranges.{IsTime};
ghost use Rattle.day_model.specs.Links.{depot_for, depot_over, direct_for, direct_over, pull_out_over, seconds};
ghost use Rattle.day_model.specs.Ranges.{IsDaily, IsShort};

use crate::link::Link;
use plan_params::Settings;
use trip_times::Trip;

/// A number of seconds that is not below 0.
fn to_seconds(number: i64) -> Option<u32>
    requires { number ≤ℤ pos 172800 }
    ensures value { result ≡ seconds number }
    ensures range { IfSome result IsTime }
{
    if number < 0 {
        None
    } else {
        Some(number as u32)
    }
}

/// The time from the end of a trip to the start of another.
fn gap(trip: &Trip, next: &Trip) -> i64
    requires trip { IsDaily trip.now }
    requires next { IsDaily next.now }
    ensures value { result ≡ next.now.begin.0 -ℤ trip.now.end.0 }
    ensures low { neg_ℤ (pos 172800) ≤ℤ result }
    ensures high { result ≤ℤ pos 172800 }
{
    next.begin.0 - trip.end.0
}

/// What is left of a time after a move.
fn after(time: i64, seconds: u32) -> i64
    requires low { neg_ℤ (pos 345600) ≤ℤ time }
    requires high { time ≤ℤ pos 172800 }
    requires seconds { IsTime seconds }
    ensures value { result ≡ time -ℤ pos seconds }
    ensures low { (time -ℤ pos 172800) ≤ℤ result }
    ensures high { result ≤ℤ pos 172800 }
{
    time - i64::from(seconds)
}

/// The direct connection, where the stand keeps its limits.
fn with_stand(settings: &Settings, dead: u32, stand: Option<u32>) -> Option<Link>
    requires dead { IsTime dead }
    requires stand { IfSome stand IsTime }
    ensures value { result ≡ direct_for settings.now dead stand }
    ensures range { IfSome result IsShort }
{
    match stand {
        Some(stand) if settings.turn <= stand && stand <= settings.max_wait => {
            Some(Link::Direct { dead, stand })
        }
        _ => None,
    }
}

/// The direct connection over a deadhead: the vehicle stands for at least the minimum layover and at most the greatest wait.
pub(crate) fn direct(
    settings: &Settings,
    trip: &Trip,
    next: &Trip,
    dead: Option<u32>,
) -> Option<Link>
    requires dead { IfSome dead IsTime }
    requires trip { IsDaily trip.now }
    requires next { IsDaily next.now }
    ensures value { result ≡ direct_over settings.now trip.now next.now dead }
    ensures range { IfSome result IsShort }
{
    match dead {
        Some(dead) => {
            let stand = after(gap(trip, next), dead);
            with_stand(settings, dead, to_seconds(stand))
        }
        None => None,
    }
}

fn with_depot_stand(inward: u32, outward: u32, stand: Option<u32>) -> Option<Link>
    requires inward { IsTime inward }
    requires outward { IsTime outward }
    requires stand { IfSome stand IsTime }
    ensures value { result ≡ depot_for inward outward stand }
    ensures range { IfSome result IsShort }
{
    match stand {
        Some(stand) => Some(Link::Depot {
            inward,
            outward,
            stand,
        }),
        None => None,
    }
}

/// The connection via the depot over both deadheads.
pub(crate) fn by_depot(
    trip: &Trip,
    next: &Trip,
    inward: Option<u32>,
    outward: Option<u32>,
) -> Option<Link>
    requires inward { IfSome inward IsTime }
    requires outward { IfSome outward IsTime }
    requires trip { IsDaily trip.now }
    requires next { IsDaily next.now }
    ensures value { result ≡ depot_over trip.now next.now inward outward }
    ensures range { IfSome result IsShort }
{
    match (inward, outward) {
        (Some(inward), Some(outward)) => {
            let stand = after(after(gap(trip, next), inward), outward);
            with_depot_stand(inward, outward, to_seconds(stand))
        }
        _ => None,
    }
}

/// The pull-out over a deadhead, if it leaves at 0 or later.
pub(crate) fn timely_pull_out(trip: &Trip, out: Option<u32>) -> Option<u32>
    requires out { IfSome out IsTime }
    requires trip { IsDaily trip.now }
    ensures value { result ≡ pull_out_over trip.now out }
    ensures range { IfSome result IsTime }
{
    match out {
        Some(out) if trip.begin.0 >= i64::from(out) => Some(out),
        _ => None,
    }
}
