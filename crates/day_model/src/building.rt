//! The day of a network.

ghost use Rattle.std.specs.Prelude.{◌≡◌, ◌⊎◌, ◌<◌, ◌≤◌, ◌^◌, All, IfOk, IfErr, IsErrAnd, Ok, Err, None, Some, OnOk, length};
ghost use Rattle.plan_core.specs.Limits.{most_items};
ghost use Rattle.vdv452_tables.specs.Ranges.{IsTime};
ghost use Rattle.day_calendar.specs.DayTrips.{AreDayRows};
ghost use Rattle.deadheads.specs.DeadTimes.{AreDeadheads};
ghost use Rattle.plan_params.specs.Faults.{first_fault};
ghost use Rattle.plan_params.specs.Limits.{HaveRanges};
ghost use Rattle.plan_params.specs.Settings.{params_of};
ghost use Rattle.trip_times.specs.Timing.{timed};
ghost use Rattle.day_model.specs.declared.fault.DayModelFault.{DayModelFault as AnyFault};
ghost use Rattle.day_model.specs.Building.{HasDayCause, HasDayFault, day_fault, IsDayOf, named, rows_at, timed_rows, IsSettingsFault};
ghost use Rattle.day_model.specs.Ranges.{IsDaily};

use crate::day::Day;
use crate::fault::DayModelFault;
use crate::layout::layout_of;
use day_calendar::{DayKind, day_rows};
use deadheads::Deadheads;
use plan_core::{Memory, Seq};
use plan_params::{ParamKind, Params, read_params};
use std::alloc::Global;
use trip_times::{Trip, time_trip};
use vdv452_tables::{Network, TripRow};

/// A day has at most so many trips.
pub const MOST_TRIPS: usize = 3_000;

/// The trip of a row, or its fault with its number.
fn time_row(net: &Network, version: u32, row: &TripRow) -> Result<Trip, DayModelFault>
    requires { IsTime row.now.start }
    ensures value { result ≡ named row.now.fid (timed net.now version row.now) }
    ensures daily { IfOk result IsDaily }
{
    match time_trip(net, version, row) {
        Ok(trip) => Ok(trip),
        Err(fault) => Err(DayModelFault::Trip {
            fid: row.fid,
            fault,
        }),
    }
}

/// The trips of the rows at these places, or the fault of the first that has one.
fn time_rows(
    alloc: Global,
    net: &Network,
    version: u32,
    places: &[u32],
) -> Result<Seq<Trip>, DayModelFault>
    requires { All (λ place. place < length net.now.trips) places.now }
    ensures trips { IfOk result (λ trips. timed_rows net.now version (rows_at net.now.trips places.now) ≡ Ok trips) }
    ensures daily { IfOk result (λ trips. All IsDaily trips) }
    ensures count { IfOk result (λ trips. length trips ≡ length places.now) }
    ensures fault { IfErr result (λ fault. (fault ≡ DayModelFault.Memory) ⊎ (timed_rows net.now version (rows_at net.now.trips places.now) ≡ Err fault)) }
{
    let rows = net.trip_rows();
    let mut trips = Seq::new(alloc);
    for place in places {
        trips.push(time_row(net, version, &rows[*place as usize])?)?;
    }
    Ok(trips)
}

/// The settings, or their first fault.
fn settings_of(alloc: Global, net: &Network, version: u32) -> Result<Params, DayModelFault>
    ensures value { IfOk result (λ params. params ≡ params_of net.now) }
    ensures ranges { IfOk result HaveRanges }
    ensures faultless { OnOk result (first_fault net.now version ≡ None) }
    ensures fault { IfErr result (λ fault. (fault ≡ DayModelFault.Memory) ⊎ IsSettingsFault net.now version fault) }
{
    match read_params(alloc, net, version) {
        Ok(params) => Ok(params),
        Err(fault) if fault.kind == ParamKind::Memory => Err(DayModelFault::Memory),
        Err(fault) => Err(DayModelFault::Params(fault)),
    }
}

/// The day of these parts, laid out.
fn laid_day(
    alloc: Global,
    kind: DayKind,
    rows: Seq<u32>,
    trips: Seq<Trip>,
    params: Params,
    deadheads: Deadheads,
) -> Result<Day, Memory>
    requires count { length rows ≡ length trips }
    requires few { length trips ≤ most_items }
    requires daily { All IsDaily trips }
    requires ranges { HaveRanges params }
    ensures { IfOk result (λ day. day ≡ record { kind = kind; rows = rows; trips = trips; params = params; deads = deadheads }) }
{
    let layout = layout_of(alloc, trips.as_slice(), &params, &deadheads)?;
    Day::new(alloc, kind, rows, trips, params, deadheads, layout)
}

/// The day of these trips, with the deadheads of a network.
fn timed_day(
    alloc: Global,
    net: &Network,
    kind: DayKind,
    rows: Seq<u32>,
    trips: Seq<Trip>,
    params: Params,
) -> Result<Day, Memory>
    requires count { length rows ≡ length trips }
    requires few { length trips ≤ most_items }
    requires daily { All IsDaily trips }
    requires ranges { HaveRanges params }
    ensures parts { IfOk result (λ day. day ≡ record { kind = kind; rows = rows; trips = trips; params = params; deads = day.deads }) }
    ensures deads { IfOk result (λ day. AreDeadheads net.now kind.version params.settings.area params.settings.group day.deads) }
{
    let settings = params.settings();
    let deadheads = Deadheads::new(alloc, net, kind.version, settings.area, settings.group)?;
    laid_day(alloc, kind, rows, trips, params, deadheads)
}

/// Puts the parts of a day together.
fn day_of(
    alloc: Global,
    net: &Network,
    kind: &DayKind,
    rows: Seq<u32>,
    params: Params,
) -> Result<Day, DayModelFault>
    requires rows { AreDayRows net.now.trips kind.now.version kind.now.kind rows }
    requires within { All (λ place. place < length net.now.trips) rows }
    requires few { length rows ≤ most_items }
    requires params { params ≡ params_of net.now }
    requires ranges { HaveRanges params }
    requires faultless { first_fault net.now kind.now.version ≡ None }
    ensures day { IfOk result (IsDayOf net.now kind.now) }
    ensures rows { IfOk result (λ day. day.rows ≡ rows) }
    ensures fault { IfErr result (λ fault. (fault ≡ DayModelFault.Memory) ⊎ (timed_rows net.now kind.now.version (rows_at net.now.trips rows) ≡ Err fault)) }
{
    let trips = time_rows(alloc, net, kind.version, rows.as_slice())?;
    Ok(timed_day(alloc, net, *kind, rows, trips, params)?)
}

/// The day whose trips have their rows at these places, or the first reason why there is none.
fn day_over(
    alloc: Global,
    net: &Network,
    kind: &DayKind,
    rows: Seq<u32>,
) -> Result<Day, DayModelFault>
    requires rows { AreDayRows net.now.trips kind.now.version kind.now.kind rows }
    requires within { All (λ place. place < length net.now.trips) rows }
    requires few { length rows < 2 ^ 32 }
    ensures day { IfOk result (IsDayOf net.now kind.now) }
    ensures rows { IfOk result (λ day. day.rows ≡ rows) }
    ensures fault { IfErr result (λ fault. (fault ≡ DayModelFault.Memory) ⊎ (day_fault net.now kind.now rows ≡ Some fault)) }
{
    if rows.len() > MOST_TRIPS {
        return Err(DayModelFault::TooManyTrips {
            count: rows.len() as u32,
        });
    }
    let params = settings_of(alloc, net, kind.version)?;
    day_of(alloc, net, kind, rows, params)
}

/// The day of a day type in a network: its trips with their times, the settings, and the deadheads of the area and group of run times that
/// X_PLAN names. The trips are the rows of REC_FRT of the day's version and day type with FAHRTART_NR 1, by departure and number.
///
/// # Errors
///
/// `TooManyTrips` exactly where the day has more than 3,000 trips; else `Params` with the first fault of the settings; else `Trip` with
/// the first trip, by departure and number, that has no times, and the first reason why. `Memory` comes only when out of memory.
pub fn build_day(alloc: Global, net: &Network, kind: &DayKind) -> Result<Day, DayModelFault>
    ensures day { IfOk result (IsDayOf net.now kind.now) }
    ensures fault { IfErr result (HasDayCause net.now kind.now) }
    ensures exact { (fault : AnyFault) → HasDayFault net.now kind.now fault → IsErrAnd result (λ answer. (answer ≡ DayModelFault.Memory) ⊎ (answer ≡ fault)) }
{
    match day_rows(alloc, net, kind) {
        Ok(rows) => day_over(alloc, net, kind, rows),
        Err(_) => Err(DayModelFault::Memory),
    }
}
