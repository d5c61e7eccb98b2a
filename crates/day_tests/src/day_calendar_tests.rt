//! The calendar and the trips of a small network.

use day_calendar::{DayFault, DayKind, day_rows, kind_of};
use small_networks::{TableRows, network};
use std::alloc::Global;
use std::test::Fail;
use vdv452_tables::{Needs, Network};

/// The day type of 2026-03-02.
const MONDAY: DayKind = DayKind {
    version: 1,
    kind: 1,
    day: 20_260_302,
    weekday: 1,
};

/// The rows of two trips, of which the second starts at 33,000 with passengers, and which places those of the Monday have in their order:
/// the first one starts before the second, with it, behind it, and has no passengers.
const TRIPS: [(&[&str], &[u32]); 4] = [
    (
        &[
            "1; 1; 28800; 1; 1; 1; 1; 0; 0",
            "1; 2; 33000; 1; 1; 1; 1; 0; 0",
        ],
        &[0, 1],
    ),
    (
        &[
            "1; 1; 33000; 1; 1; 1; 1; 0; 0",
            "1; 2; 33000; 1; 1; 1; 1; 0; 0",
        ],
        &[0, 1],
    ),
    (
        &[
            "1; 1; 33001; 1; 1; 1; 1; 0; 0",
            "1; 2; 33000; 1; 1; 1; 1; 0; 0",
        ],
        &[1, 0],
    ),
    (
        &[
            "1; 1; 28800; 1; 1; 2; 1; 0; 0",
            "1; 2; 33000; 1; 1; 1; 1; 0; 0",
        ],
        &[1],
    ),
];

/// A version from 20260101 on, a day of day type 1, and these trips.
fn calendar(alloc: Global, trips: &'static [&'static str]) -> Result<Network, Fail> {
    let given: [TableRows; 3] = [
        ("BASIS_VER_GUELTIGKEIT", &["20260101; 1"]),
        ("FIRMENKALENDER", &["1; 20260302; 1"]),
        ("REC_FRT", trips),
    ];
    network(alloc, &given, Needs::Calendar)
}

/// Days, and what each one is.
const DAYS: [(u32, Result<DayKind, DayFault>); 6] = [
    (20_260_302, Ok(MONDAY)),
    (20_260_301, Err(DayFault::NoDay)),
    (20_251_231, Err(DayFault::NoVersion)),
    (20_260_230, Err(DayFault::NoDate)),
    (0, Err(DayFault::NoDate)),
    (100_000_101, Err(DayFault::NoDate)),
];

fn has_days(net: &Network) -> bool {
    for (day, kind) in DAYS {
        if kind_of(net, day) != kind {
            return false;
        }
    }
    true
}

/// Whether the days are of their day types, and the trips of the Monday have these places.
fn has_places(alloc: Global, trips: &'static [&'static str], places: &[u32]) -> Result<bool, Fail> {
    let net = calendar(alloc, trips)?;
    let rows = day_rows(alloc, &net, &MONDAY)?;
    Ok(has_days(&net) && rows.as_slice() == places)
}

#[test]
fn finds_the_day_and_its_trips(rt: HostRuntime) -> Result<(), Fail> {
    for (trips, places) in TRIPS {
        assert!(rt; has_places(rt.alloc(), trips, places)?);
    }
    Ok(())
}
