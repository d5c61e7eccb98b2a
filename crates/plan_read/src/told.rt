//! The trips of a day by FRT_FID: found by halving.

ghost use Rattle.std.specs.Prelude.{◌≡◌, ◌<◌, ◌^◌, IfOk, length};
ghost use Rattle.plan_read.specs.Told as spec;
ghost use Rattle.plan_read.specs.Told.{DoesNotFall};

use plan_core::{Memory, Seq};
use std::alloc::Global;
use trip_times::Trip;

/// A trip by its FRT_FID.
#[derive(Clone, Copy)]
pub struct Told {
    /// The number FRT_FID.
    pub fid: u64,
    /// The number of the trip among those of the day, from 0.
    pub trip: u32,
}

/// Each trip with its FRT_FID, in the order of their numbers.
fn all_told(alloc: Global, trips: &[Trip]) -> Result<Seq<Told>, Memory>
    requires { length trips.now < 2 ^ 32 }
    ensures { IfOk result (λ told. told ≡ spec.all_told 0 trips.now) }
{
    let mut told = Seq::new(alloc);
    for (place, trip) in trips.iter().enumerate() {
        told.push(Told {
            fid: trip.fid,
            trip: place as u32,
        })?;
    }
    Ok(told)
}

/// The trips by FRT_FID, those of one FRT_FID by their numbers.
pub(crate) fn by_fid(alloc: Global, trips: &[Trip]) -> Result<Seq<Told>, Memory>
    requires { length trips.now < 2 ^ 32 }
    ensures told { IfOk result (λ told. told ≡ spec.by_fid trips.now) }
    ensures order { IfOk result DoesNotFall }
{
    let mut told = all_told(alloc, trips)?.into_vec();
    told.sort_by_key(|told| told.fid)?;
    Ok(Seq::from_vec(told))
}

/// Where the trips with smaller FRT_FID end.
fn place_of(told: &[Told], fid: u64) -> usize
    requires { DoesNotFall told.now }
    ensures { spec.trip_in told.now fid ≡ spec.trip_at told.now result fid }
{
    told.partition_point(|told| told.fid < fid)
}

/// The trip at a place, if it has the FRT_FID.
fn trip_at(told: &[Told], place: usize, fid: u64) -> Option<u32>
    ensures { result ≡ spec.trip_at told.now place fid }
{
    let found = told.get(place)?;
    if found.fid == fid {
        Some(found.trip)
    } else {
        None
    }
}

/// The first trip of a FRT_FID.
pub(crate) fn trip_of(told: &[Told], fid: u64) -> Option<u32>
    requires { DoesNotFall told.now }
    ensures { result ≡ spec.trip_in told.now fid }
{
    trip_at(told, place_of(told, fid), fid)
}
