//! Trips by the points at which they begin, and by the time.

ghost use Rattle.std.specs.Prelude.{◌≡◌, ◌<◌, ◌≤◌, ◌*◌, ◌^◌, ℕ, IfOk, length, pos, slice_index};
ghost use Rattle.day_model.specs.Begins.{AreHeads, AreMinutes, AreNexts, IsFirstFrom};

use plan_core::{Memory, Seq};
use std::alloc::Global;
use trip_times::Trip;

/// The trips of a day by the points at which they begin.
#[derive(Clone, Copy)]
pub struct Departures<'d> {
    /// For each trip a number of its first point: trips with one number begin at one point. The numbers are dense, from 0.
    pub numbers: &'d [u32],
    /// For each of these numbers the first trip that has it; there are no more of them than there are such numbers.
    pub firsts: &'d [u32],
    /// For each trip the next one that has its number; the number of trips where there is none.
    pub nexts: &'d [u32],
}

/// The places of a list of numbers, number by number.
#[derive(Drop)]
pub(crate) struct Chains {
    /// For each number the first place that has it; the length of the list where there is none.
    pub firsts: Seq<u32>,
    /// For each place the next one with its number; the length of the list where there is none.
    pub nexts: Seq<u32>,
}

/// The places of a list of numbers below a count, number by number. `Memory` is the only error.
pub(crate) fn chains_of(alloc: Global, numbers: &[u32], points: usize) -> Result<Chains, Memory>
    requires few { length numbers.now < 2 ^ 32 }
    requires below { (i : ℕ) → i < length numbers.now → slice_index numbers.now i < points }
    ensures room { IfOk result (λ chains. length chains.firsts ≡ points) }
    ensures firsts { IfOk result (λ chains. AreHeads numbers.now chains.firsts 0) }
    ensures nexts { IfOk result (λ chains. AreNexts numbers.now chains.nexts 0) }
{
    let count = numbers.len() as u32;
    let mut nexts = vec![in alloc; count; numbers.len()]?;
    let mut heads = vec![in alloc; count; points]?;
    let mut place = count;
    while place > 0 {
        place -= 1;
        let number = numbers[place as usize] as usize;
        nexts[place as usize] = heads[number];
        heads[number] = place;
    }
    Ok(Chains {
        firsts: Seq::from_vec(heads),
        nexts: Seq::from_vec(nexts),
    })
}

/// Goes on from a trip over those that begin before a time.
fn past(trips: &[Trip], from: u32, time: u32) -> u32
    requires few { length trips.now < 2 ^ 32 }
    requires within { from ≤ length trips.now }
    requires before { IsFirstFrom trips.now (pos time) from }
    ensures within { result ≤ length trips.now }
    ensures first { IsFirstFrom trips.now (pos time) result }
{
    let count = trips.len() as u32;
    for trip in from..count {
        if trips[trip as usize].begin.0 >= time as i64 {
            return trip;
        }
    }
    count
}

/// For each minute of two days, and for the first one after them, a place such that no trip before it begins in the minute or later.
pub(crate) fn minutes_of(alloc: Global, trips: &[Trip]) -> Result<Seq<u32>, Memory>
    requires { length trips.now < 2 ^ 32 }
    ensures { IfOk result (λ minutes. AreMinutes trips.now 2881 minutes) }
{
    let mut minutes = vec![in alloc; 0; 2_881]?;
    let mut trip = 0;
    for minute in 0..2_881u32 {
        trip = past(trips, trip, 60 * minute);
        minutes[minute as usize] = trip;
    }
    Ok(Seq::from_vec(minutes))
}
