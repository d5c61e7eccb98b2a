//! Trips over a small network.

use plan_core::{Point, Sec};
use small_networks::{TableRows, network};
use std::alloc::Global;
use std::test::Fail;
use trip_times::{Trip, TripFault, time_trip};
use vdv452_tables::{Needs, Network, TripRow};

/// Variant 1 of line 1 goes from 10 to 20, variant 2 back, variant 3 from 10 by 20 to 30; variant 4
/// has one point, variant 5 no area, and variant 6 goes from 30 to 10 and back. The group stands at
/// each point, and trips 3 and 10 stand at 20 by rows of their own.
const NETWORK: &[TableRows] = &[
    (
        "SEL_FZT_FELD",
        &[
            "1; 5; 1; 1; 10; 1; 20; 3600",
            "1; 5; 1; 1; 20; 1; 10; 3600",
            "1; 5; 1; 1; 20; 1; 30; 600",
        ],
    ),
    (
        "ORT_HZTF",
        &["1; 1; 1; 10; 7", "1; 1; 1; 20; 60", "1; 1; 1; 30; 9"],
    ),
    ("REC_FRT_HZT", &["1; 3; 1; 20; 45", "1; 10; 1; 20; 0"]),
    (
        "REC_LID",
        &[
            "1; 1; 1; 5",
            "1; 1; 2; 5",
            "1; 1; 3; 5",
            "1; 1; 4; 5",
            "1; 1; 6; 5",
        ],
    ),
    (
        "LID_VERLAUF",
        &[
            "1; 1; 1; 1; 1; 10",
            "1; 1; 1; 2; 1; 20",
            "1; 1; 2; 1; 1; 20",
            "1; 1; 2; 2; 1; 10",
            "1; 1; 3; 1; 1; 10",
            "1; 1; 3; 2; 1; 20",
            "1; 1; 3; 3; 1; 30",
            "1; 1; 4; 1; 1; 10",
            "1; 1; 5; 1; 1; 10",
            "1; 1; 5; 2; 1; 20",
            "1; 1; 6; 1; 1; 30",
            "1; 1; 6; 2; 1; 10",
            "1; 1; 6; 3; 1; 30",
        ],
    ),
    (
        "REC_FRT",
        &[
            "1; 1; 28800; 1; 1; 1; 1; 1; ",
            "1; 2; 33000; 1; 1; 1; 1; 2; ",
            "1; 3; 28800; 1; 1; 1; 1; 3; ",
            "1; 4; 28800; 1; 1; 1; 1; 3; ",
            "1; 5; 28800; 1; 1; 1; 1; 4; ",
            "1; 6; 28800; 1; 1; 1; 1; 5; ",
            "1; 7; 172800; 1; 1; 1; 1; 6; ",
            "1; 8; 169200; 1; 1; 1; 1; 1; ",
            "1; 9; 169201; 1; 1; 1; 1; 1; ",
            "1; 10; 28800; 1; 1; 1; 1; 3; ",
        ],
    ),
];

fn end_of(timed: Result<Trip, TripFault>) -> Result<i64, TripFault> {
    match timed {
        Ok(trip) => Ok(trip.end.0),
        Err(fault) => Err(fault),
    }
}

/// The worked answer of a trip: its end, or its fault.
fn worked_end(fid: u64) -> Result<i64, TripFault> {
    match fid {
        1 => Ok(32_400),
        2 => Ok(36_600),
        3 => Ok(33_045),
        4 => Ok(33_060),
        5 => Err(TripFault::ShortRoute),
        6 => Err(TripFault::NoRoute),
        7 => Err(TripFault::NoRunTime {
            from: Point { typ: 1, nr: 30 },
            to: Point { typ: 1, nr: 10 },
        }),
        8 => Ok(172_800),
        9 => Err(TripFault::PastEnd),
        _ => Ok(33_000),
    }
}

fn has_worked_end(net: &Network, row: &TripRow) -> bool {
    if row.start > 172_800 {
        return false;
    }
    end_of(time_trip(net, 1, row)) == worked_end(row.fid)
}

fn have_worked_ends(net: &Network) -> bool {
    let rows = net.trip_rows();
    for row in rows {
        if !has_worked_end(net, row) {
            return false;
        }
    }
    rows.len() == 10
}

/// Trip 2 goes from 20 to 10, and version 2 has no variants.
fn has_ends(net: &Network, row: &TripRow) -> bool {
    if row.start > 172_800 {
        return false;
    }
    let trip = Trip {
        fid: 2,
        line: 1,
        from: Point { typ: 1, nr: 20 },
        begin: Sec(33_000),
        to: Point { typ: 1, nr: 10 },
        end: Sec(36_600),
    };
    time_trip(net, 1, row) == Ok(trip) && time_trip(net, 2, row) == Err(TripFault::NoRoute)
}

fn all_as_worked(alloc: Global, given: &[TableRows]) -> Result<bool, Fail> {
    let net = network(alloc, given, Needs::All)?;
    Ok(have_worked_ends(&net))
}

fn second_as_worked(alloc: Global, given: &[TableRows]) -> Result<bool, Fail> {
    let net = network(alloc, given, Needs::All)?;
    Ok(match net.trip_rows().get(1) {
        Some(row) => has_ends(&net, row),
        None => false,
    })
}

#[test]
fn times_trips_or_names_the_first_fault(rt: HostRuntime) -> Result<(), Fail> {
    assert!(rt; all_as_worked(rt.alloc(), NETWORK)?);
    Ok(())
}

#[test]
fn a_trip_has_the_ends_of_its_course(rt: HostRuntime) -> Result<(), Fail> {
    assert!(rt; second_as_worked(rt.alloc(), NETWORK)?);
    Ok(())
}
