//! From where on trips begin late enough.

ghost use Rattle.std.specs.Prelude.{◌≡◌, ◌<◌, ◌≤◌, ◌+◌, ◌≤ℤ◌, ℕ, Some, length, pos, slice_get};
ghost use Rattle.trip_times.specs.declared.trip.Trip.{Trip as AnyTrip};
ghost use Rattle.day_model.specs.Begins.{AreMinutes, IsFirstFrom};

use day_model::Day;

/// A place such that no trip before it begins at a time or later.
fn first_from(day: &Day, firsts: &[u32], time: u32) -> u32
    requires { AreMinutes day.now.trips 2881 firsts.now }
    ensures within { result ≤ length day.now.trips }
    ensures first { IsFirstFrom day.now.trips (pos time) result }
{
    let minute = time / 60;
    if minute < 2_881 {
        firsts[minute as usize]
    } else {
        day.trips().len() as u32
    }
}

/// The later of two places.
fn later(a: u32, b: u32) -> u32
    ensures first { a ≤ result }
    ensures second { b ≤ result }
    ensures least { (n : ℕ) → a ≤ n → b ≤ n → result ≤ n }
{
    if a < b { b } else { a }
}

/// A place behind a trip such that none of the trips between begins at a time or later.
pub(crate) fn next_from(day: &Day, firsts: &[u32], t: u32, time: u32) -> u32
    requires firsts { AreMinutes day.now.trips 2881 firsts.now }
    requires trip { t < length day.now.trips }
    ensures after { t < result }
    ensures within { result ≤ length day.now.trips }
    ensures first { (u : ℕ) (trip : AnyTrip) → t < u → slice_get day.now.trips u ≡ Some trip → pos time ≤ℤ trip.begin.0 → result ≤ u }
{
    let _ = day.trips();
    later(first_from(day, firsts, time), t + 1)
}
