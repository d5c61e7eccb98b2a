//! The trips of a day, in order.

ghost use Rattle.std.specs.Prelude.{◌≡◌, ◌<◌, ◌≤◌, ◌^◌, ℕ, List, All, IfOk, OnOk, length, map, IsPermutation, IsSorted};
ghost use Rattle.day_calendar.specs.DayTrips.{AreDayRows, day_trips, is_of_day, trip_order};

use crate::day::DayKind;
use plan_core::{Memory, Seq};
use std::alloc::Global;
use vdv452_tables::{Network, TripRow};

/// A trip of the day by what orders it, and its place among all trips.
#[derive(Clone, Copy, Debug, PartialEq, Eq, PartialOrd, Ord)]
pub struct DayTrip {
    /// The departure, in seconds of the operating day.
    pub start: u32,
    /// The number (FRT_FID).
    pub fid: u64,
    /// The place of its row in `trip_rows`, from 0.
    pub place: u32,
}

/// FAHRTART_NR of a trip with passengers.
const PASSENGERS: u32 = 1;

fn is_on(trip: &TripRow, version: u32, kind: u32) -> bool
    ensures { result ≡ is_of_day version kind trip.now }
{
    trip.version == version && (trip.kind == kind && trip.mode == PASSENGERS)
}

fn trips_on(
    alloc: Global,
    trips: &[TripRow],
    version: u32,
    kind: u32,
) -> Result<Vec<DayTrip>, Memory>
    requires { length trips.now < 2 ^ 32 }
    ensures { IfOk result (λ found. found.items ≡ day_trips trips.now version kind) }
{
    let mut found = Vec::new(alloc);
    for (place, trip) in trips.iter().enumerate() {
        if is_on(trip, version, kind) {
            found.push(DayTrip {
                start: trip.start,
                fid: trip.fid,
                place: place as u32,
            })?;
        }
    }
    Ok(found)
}

fn put_in_order(found: &mut Vec<DayTrip>) -> Result<(), Memory>
    ensures sorted { OnOk result (IsSorted trip_order found.new.items) }
    ensures permutation { IsPermutation found.old.items found.new.items }
{
    found.sort()?;
    Ok(())
}

fn places_of(alloc: Global, found: &[DayTrip]) -> Result<Vec<u32>, Memory>
    ensures { IfOk result (λ places. places.items ≡ map (λ trip. trip.place) found.now) }
{
    Ok(found.iter().map(|trip| trip.place).collect(alloc)?)
}

/// The places of the trips of a version and a day type, in the order of (FRT_START, FRT_FID).
fn ordered_places(
    alloc: Global,
    trips: &[TripRow],
    version: u32,
    kind: u32,
) -> Result<Seq<u32>, Memory>
    requires { length trips.now < 2 ^ 32 }
    ensures { IfOk result (λ places. AreDayRows trips.now version kind places) }
{
    let mut found = trips_on(alloc, trips, version, kind)?;
    put_in_order(&mut found)?;
    Ok(Seq::from_vec(places_of(alloc, found.as_slice())?))
}

/// The places in `trip_rows` of the day's trips, in the order of (FRT_START, FRT_FID). The day's
/// trips are the rows of REC_FRT of the day's version and day type with FAHRTART_NR 1. Other rows are
/// passed over.
pub fn day_rows(alloc: Global, net: &Network, kind: &DayKind) -> Result<Seq<u32>, Memory>
    ensures rows { IfOk result (λ places. AreDayRows net.now.trips kind.now.version kind.now.kind places) }
    ensures only { (others : List ℕ) → AreDayRows net.now.trips kind.now.version kind.now.kind others → IfOk result (λ places. places ≡ others) }
    ensures within { IfOk result (λ places. All (λ place. place < length net.now.trips) places) }
    ensures count { IfOk result (λ places. length places ≤ length net.now.trips) }
    ensures few { IfOk result (λ places. length places < 2 ^ 32) }
{
    ordered_places(alloc, net.trip_rows(), kind.version, kind.kind)
}
