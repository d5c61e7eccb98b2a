//! When a trip begins and ends.

ghost use Rattle.std.specs.Prelude.{◌≡◌, ◌+◌, ◌<◌, ◌≤◌, ◌^◌, IfOk, min};
ghost use Rattle.vdv452_tables.specs.LookUps.{links_from};
ghost use Rattle.vdv452_tables.specs.Ranges.{IsTime};
ghost use Rattle.trip_times.specs.Runs.{runs_if};
ghost use Rattle.trip_times.specs.Timing.{IsTripOf, dwell_at, dwell_seconds_of, ended as ended_row, first_missing, run_seconds_of, run_time_of, timed, timed_on};

use crate::trip::{Trip, TripFault};
use plan_core::{Point, Sec};
use vdv452_tables::{GREATEST_SECONDS, Network, TripRow};

/// The sum of seconds, at most one past the last second.
fn capped_sum(seconds: u32, more: u32) -> u32
    requires { seconds + more < 2 ^ 32 }
    ensures { result ≡ min (seconds + more) 172801 }
{
    (seconds + more).min(GREATEST_SECONDS + 1)
}

/// How long the trip stands at a point: FRT_HZT_ZEIT of its own row in REC_FRT_HZT, else HP_HZT of
/// the row of its group in ORT_HZTF, else 0.
fn dwell(net: &Network, version: u32, row: &TripRow, at: Point) -> u32
    ensures value { result ≡ dwell_at net.now version row.now at }
    ensures range { IsTime result }
{
    match net.trip_dwell(version, row.fid, at) {
        Some(seconds) => seconds,
        None => match net.group_dwell(version, row.group, at) {
            Some(seconds) => seconds,
            None => 0,
        },
    }
}

/// How long the trip stands at points, at most one past the last second.
fn dwell_seconds(net: &Network, version: u32, row: &TripRow, points: &[Point]) -> u32
    ensures { result ≡ min (dwell_seconds_of net.now version row.now points.now) 172801 }
{
    let mut seconds = 0;
    for at in points {
        seconds = capped_sum(seconds, dwell(net, version, row, *at));
    }
    seconds
}

/// The run times of the sections from a point on, at most one past the last second; the fault names
/// the first section without a run time.
fn run_seconds(
    net: &Network,
    version: u32,
    area: u32,
    group: u32,
    first: Point,
    points: &[Point],
) -> Result<u32, TripFault>
    ensures { result ≡ runs_if (first_missing (run_time_of net.now version area group) (links_from first points.now)) (min (run_seconds_of (run_time_of net.now version area group) (links_from first points.now)) 172801) }
{
    let mut seconds = 0;
    let mut from = first;
    for to in points {
        match net.run_time(version, area, group, from, *to) {
            None => return Err(TripFault::NoRunTime { from, to: *to }),
            Some(time) => {
                seconds = capped_sum(seconds, time);
                from = *to;
            }
        }
    }
    Ok(seconds)
}

/// The trip from point to point that takes so many seconds, if it ends in time.
fn timely_trip(row: &TripRow, from: Point, to: Point, seconds: u32) -> Result<Trip, TripFault>
    requires { seconds < 2 ^ 31 }
    ensures { result ≡ ended_row row.now from to seconds }
{
    if row.start > GREATEST_SECONDS {
        return Err(TripFault::PastEnd);
    }
    let end = row.start + seconds;
    if end <= GREATEST_SECONDS {
        Ok(Trip {
            fid: row.fid,
            line: row.line,
            from,
            begin: Sec(i64::from(row.start)),
            to,
            end: Sec(i64::from(end)),
        })
    } else {
        Err(TripFault::PastEnd)
    }
}

/// The trip over the points of a stop sequence.
fn time_course(
    net: &Network,
    version: u32,
    area: u32,
    row: &TripRow,
    course: &[Point],
) -> Result<Trip, TripFault>
    ensures { result ≡ timed_on (run_time_of net.now version area row.now.group) (dwell_at net.now version row.now) row.now course.now }
{
    match course.split_first() {
        None => Err(TripFault::ShortRoute),
        Some((first, points)) => match points.split_last() {
            None => Err(TripFault::ShortRoute),
            Some((last, inner)) => {
                match run_seconds(net, version, area, row.group, *first, points) {
                    Err(fault) => Err(fault),
                    Ok(seconds) => {
                        let stands = dwell_seconds(net, version, row, inner);
                        timely_trip(row, *first, *last, seconds + stands)
                    }
                }
            }
        },
    }
}

/// The trip of a row with its times, in a version. It departs at FRT_START, and takes the run times
/// of its sections (SEL_FZT of SEL_FZT_FELD, by the area of REC_LID and the trip's group) and how long
/// it stands at the points between the first and the last: FRT_HZT_ZEIT of its own row in
/// REC_FRT_HZT, else HP_HZT of its group's row in ORT_HZTF, else 0. Equal neighbouring points are a
/// section, and at a point that is passed twice it stands twice. It takes no memory.
///
/// Of the faults the first one counts: NoRoute where REC_LID has no row of the trip's line and
/// variant; ShortRoute where its stop sequence has fewer than two points; NoRunTime for the first section
/// without a run time; PastEnd where the trip ends after 172,800, as each does that begins after it.
pub fn time_trip(net: &Network, version: u32, row: &TripRow) -> Result<Trip, TripFault>
    ensures timed { result ≡ timed net.now version row.now }
    ensures trip { IfOk result (IsTripOf row.now) }
{
    match net.area(version, row.line, &row.variant) {
        None => Err(TripFault::NoRoute),
        Some(area) => {
            let course = net.course(version, row.line, &row.variant);
            time_course(net, version, area, row, course)
        }
    }
}
