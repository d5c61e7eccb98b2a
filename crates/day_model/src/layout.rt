//! What is asked of a day's trips and pools, laid out flat.

ghost use Rattle.std.specs.Prelude.{◌≡◌, ◌≤◌, ◌++◌, IfOk, OnOk, length, map};
ghost use Rattle.plan_core.specs.Limits.{most_items};
ghost use Rattle.plan_params.specs.LookUps.{admits_in, is_relief_in};
ghost use Rattle.day_model.specs.Layout.{AreLaidOut, admissions_of, reliefs_of};

use crate::dead_times::DeadTimes;
use crate::departures::{chains_of, minutes_of};
use deadheads::Deadheads;
use plan_core::{Memory, Point, Seq};
use plan_params::{Params, Pool};
use point_grid::{Grid, grid_of, numbering_of};
use std::alloc::Global;
use trip_times::Trip;

/// The times of deadheads by the numbers of trips and pools, which pools admit which trips, and where drivers are relieved.
#[derive(Drop)]
pub struct Layout {
    /// For each trip the number of its first point.
    pub begins: Seq<u32>,
    /// For each of these numbers the first trip that has it.
    pub firsts: Seq<u32>,
    /// For each trip the next one that begins at its first point; the number of trips where there is none.
    pub nexts: Seq<u32>,
    /// For each minute a place such that no trip before it begins then or later.
    pub minutes: Seq<u32>,
    /// For each trip the number of its last point.
    pub ends: Seq<u32>,
    /// From last points to first points.
    pub between: Grid,
    /// From depots to first points.
    pub outward: Grid,
    /// From last points to depots.
    pub inward: Grid,
    /// Whether pools admit trips, pool by pool.
    pub admitted: Seq<bool>,
    /// For each trip whether drivers are relieved at its first point.
    pub relieved: Seq<bool>,
}

/// The first points of trips, in their order.
fn first_points(alloc: Global, trips: &[Trip]) -> Result<Vec<Point>, Memory>
    ensures { IfOk result (λ points. points.items ≡ map (λ trip. trip.from) trips.now) }
{
    Ok(trips.iter().map(|trip| trip.from).collect(alloc)?)
}

/// The last points of trips, in their order.
fn last_points(alloc: Global, trips: &[Trip]) -> Result<Vec<Point>, Memory>
    ensures { IfOk result (λ points. points.items ≡ map (λ trip. trip.to) trips.now) }
{
    Ok(trips.iter().map(|trip| trip.to).collect(alloc)?)
}

/// The points of the depots of pools, in their order.
fn depots_of(alloc: Global, pools: &[Pool]) -> Result<Vec<Point>, Memory>
    ensures { IfOk result (λ depots. depots.items ≡ map (λ pool. pool.depot) pools.now) }
{
    Ok(pools.iter().map(|pool| pool.depot).collect(alloc)?)
}

/// Puts whether a pool admits each of the trips behind what is there.
fn add_pool(
    admitted: &mut Seq<bool>,
    params: &Params,
    pool: &Pool,
    trips: &[Trip],
) -> Result<(), Memory>
    ensures { OnOk result (admitted.new ≡ admitted.old ++ map (λ trip. admits_in params.now trip.line pool.now.typ) trips.now) }
{
    for trip in trips {
        admitted.push(params.admits(trip.line, pool.typ))?;
    }
    Ok(())
}

/// Whether pools admit trips, pool by pool.
fn admissions(alloc: Global, params: &Params, trips: &[Trip]) -> Result<Seq<bool>, Memory>
    ensures { IfOk result (λ admitted. admitted ≡ admissions_of params.now params.now.pools trips.now) }
{
    let mut admitted = Seq::new(alloc);
    for pool in params.pools() {
        add_pool(&mut admitted, params, pool, trips)?;
    }
    Ok(admitted)
}

/// For each trip whether drivers are relieved at its first point.
fn reliefs(alloc: Global, params: &Params, trips: &[Trip]) -> Result<Seq<bool>, Memory>
    ensures { IfOk result (λ relieved. relieved ≡ reliefs_of params.now trips.now) }
{
    let mut relieved = Seq::new(alloc);
    for trip in trips {
        relieved.push(params.relief(trip.from))?;
    }
    Ok(relieved)
}

/// What is asked of these trips and of the pools of these settings.
pub(crate) fn layout_of(
    alloc: Global,
    trips: &[Trip],
    params: &Params,
    deads: &Deadheads,
) -> Result<Layout, Memory>
    requires { length trips.now ≤ most_items }
    ensures { IfOk result (AreLaidOut trips.now params.now deads.now) }
{
    let firsts = first_points(alloc, trips)?;
    let lasts = last_points(alloc, trips)?;
    let places = depots_of(alloc, params.pools())?;
    let begins = numbering_of(alloc, firsts.as_slice())?;
    let ends = numbering_of(alloc, lasts.as_slice())?;
    let from = begins.points.as_slice();
    let to = ends.points.as_slice();
    let depots = places.as_slice();
    let times = DeadTimes { deads };
    let between = grid_of(alloc, &times, to, from)?;
    let outward = grid_of(alloc, &times, depots, from)?;
    let inward = grid_of(alloc, &times, to, depots)?;
    let admitted = admissions(alloc, params, trips)?;
    let relieved = reliefs(alloc, params, trips)?;
    let minutes = minutes_of(alloc, trips)?;
    let chains = chains_of(alloc, begins.numbers.as_slice(), from.len())?;
    Ok(Layout {
        begins: begins.numbers,
        firsts: chains.firsts,
        nexts: chains.nexts,
        minutes,
        ends: ends.numbers,
        between,
        outward,
        inward,
        admitted,
        relieved,
    })
}
