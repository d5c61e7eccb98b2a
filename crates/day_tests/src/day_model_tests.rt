//! Small days: two trips, from 1 to 2 and back, and a depot at 9.

use day_model::{Day, DayModelFault, Link, build_day};
use plan_core::Point;
use small_networks::{TableRows, day_kind, day_over, network};
use std::alloc::Global;
use std::test::Fail;
use trip_times::TripFault;
use vdv452_tables::{Needs, Network};

/// On each of the days 1 to 4 a trip from 1 to 2 ends at 32,400, and the trip back begins at 33,000, 32,699, 32,700 or 40,000. On day 5
/// both trips lack a run time, and the first in the table begins last. On day 6 a trip of line 2, which admits no vehicle of the depot,
/// begins at 899. On day 7 both trips go from 1 to 2.
const NETWORK: &[TableRows] = &[
    ("REC_ORT", &["1; 1; 1", "1; 1; 2", "1; 2; 9"]),
    (
        "SEL_FZT_FELD",
        &["1; 1; 1; 1; 1; 1; 2; 3600", "1; 1; 1; 1; 2; 1; 1; 3600"],
    ),
    (
        "REC_LID",
        &["1; 1; 1; 1", "1; 1; 2; 1", "1; 1; 3; 2", "1; 2; 1; 1"],
    ),
    (
        "LID_VERLAUF",
        &[
            "1; 1; 1; 1; 1; 1",
            "1; 1; 1; 2; 1; 2",
            "1; 1; 2; 1; 1; 2",
            "1; 1; 2; 2; 1; 1",
            "1; 1; 3; 1; 1; 2",
            "1; 1; 3; 2; 1; 1",
            "1; 2; 1; 1; 1; 2",
            "1; 2; 1; 2; 1; 1",
        ],
    ),
    (
        "REC_FRT",
        &[
            "1; 1; 28800; 1; 1; 1; 1; 1; ",
            "1; 2; 33000; 1; 1; 1; 1; 2; ",
            "1; 3; 28800; 1; 2; 1; 1; 1; ",
            "1; 4; 32699; 1; 2; 1; 1; 2; ",
            "1; 5; 28800; 1; 3; 1; 1; 1; ",
            "1; 6; 32700; 1; 3; 1; 1; 2; ",
            "1; 7; 28800; 1; 4; 1; 1; 1; ",
            "1; 8; 40000; 1; 4; 1; 1; 2; ",
            "1; 9; 33000; 1; 5; 1; 1; 3; ",
            "1; 10; 32000; 1; 5; 1; 1; 3; ",
            "1; 11; 899; 2; 6; 1; 1; 1; ",
            "1; 12; 28800; 1; 7; 1; 1; 1; ",
            "1; 13; 33000; 1; 7; 1; 1; 1; ",
        ],
    ),
    (
        "UEB_FZT",
        &[
            "1; 1; 1; 2; 9; 1; 1; 600",
            "1; 1; 1; 1; 1; 2; 9; 600",
            "1; 1; 1; 2; 9; 1; 2; 900",
            "1; 1; 1; 1; 2; 2; 9; 900",
        ],
    ),
    ("MENGE_FZG_TYP", &["1; 1", "1; 2"]),
    ("X_PLAN", &["1; 1; 300; 7200; 300"]),
    ("X_HOF", &["1; 2; 9; 1; 2; 1000; 1; 0"]),
    ("X_FAHRER", &["1; 2; 9; 2; 500; 1; 600; 300; 0"]),
    ("X_LINIE_FZG", &["2; 2"]),
    ("X_ABLOESE", &["1; 2"]),
];

fn day_of(alloc: Global, given: &[TableRows], number: u32) -> Result<Day, Fail> {
    let net = network(alloc, given, Needs::All)?;
    day_over(alloc, &net, number)
}

fn has_pulls(day: &Day) -> bool {
    if day.trips().len() != 2 || day.params().pools().len() != 1 {
        return false;
    }
    day.pull_out(0, 0) == Some(600) && day.pull_in(0, 0) == Some(900) && day.admits(0, 0)
}

fn has_parts(day: &Day) -> bool {
    if day.trips().len() != 2 {
        return false;
    }
    day.rows() == [0, 1].as_slice() && *day.kind() == day_kind(1) && day.trip(1).fid == 2
}

fn has_link(day: &Day, link: Option<Link>) -> bool {
    if day.trips().len() != 2 || day.params().pools().len() != 1 {
        return false;
    }
    day.connect(0, 0, 1) == link
}

fn is_shut(day: &Day) -> bool {
    if day.trips().len() != 1 || day.params().pools().len() != 1 {
        return false;
    }
    !day.admits(0, 0) && day.pull_out(0, 0).is_none() && day.pull_in(0, 0) == Some(600)
}

fn has_departures(day: &Day, numbers: &[u32], firsts: &[u32], nexts: &[u32]) -> bool {
    let departures = day.departures();
    departures.numbers == numbers
        && (departures.firsts == firsts && departures.nexts == nexts)
        && day.end_numbers() == numbers
}

/// Whether the first trip begins in minute 480 and the second in minute 550, on the minute both.
fn has_minutes(day: &Day) -> bool {
    let minutes = day.by_minute();
    minutes.len() == 2_881
        && (minutes[0] == 0 && minutes[480] == 0)
        && (minutes[481] == 1 && minutes[550] == 1)
        && (minutes[551] == 2 && minutes[2_880] == 2)
}

fn tells_departures(
    alloc: Global,
    given: &[TableRows],
    day: u32,
    numbers: &[u32],
    firsts: &[u32],
    nexts: &[u32],
) -> Result<bool, Fail> {
    let day = day_of(alloc, given, day)?;
    Ok(has_departures(&day, numbers, firsts, nexts) && has_minutes(&day))
}

fn first_is_told(alloc: Global, given: &[TableRows], day: u32) -> Result<bool, Fail> {
    let day = day_of(alloc, given, day)?;
    Ok(has_parts(&day) && has_pulls(&day))
}

fn link_is(alloc: Global, given: &[TableRows], day: u32, link: Option<Link>) -> Result<bool, Fail> {
    let day = day_of(alloc, given, day)?;
    Ok(has_link(&day, link))
}

fn last_is_shut(alloc: Global, given: &[TableRows], day: u32) -> Result<bool, Fail> {
    let day = day_of(alloc, given, day)?;
    Ok(is_shut(&day))
}

fn is_tenth(fault: &DayModelFault) -> bool {
    match fault {
        DayModelFault::Trip { fid, fault } => {
            *fid == 10
                && *fault
                    == TripFault::NoRunTime {
                        from: Point { typ: 1, nr: 2 },
                        to: Point { typ: 1, nr: 1 },
                    }
        }
        _ => false,
    }
}

fn lacks_a_run_time(alloc: Global, given: &[TableRows], day: u32) -> Result<bool, Fail> {
    let net = network(alloc, given, Needs::All)?;
    Ok(match build_day(alloc, &net, &day_kind(day)) {
        Ok(_) => false,
        Err(fault) => is_tenth(&fault),
    })
}

#[test]
fn a_day_tells_its_trips_and_pulls(rt: HostRuntime) -> Result<(), Fail> {
    assert!(rt; first_is_told(rt.alloc(), NETWORK, 1)?);
    Ok(())
}

#[test]
fn trips_of_one_point_stand_one_behind_another(rt: HostRuntime) -> Result<(), Fail> {
    let alloc = rt.alloc();
    assert!(rt; tells_departures(alloc, NETWORK, 1, &[0, 1], &[0, 1], &[2, 2])?);
    assert!(rt; tells_departures(alloc, NETWORK, 7, &[0, 0], &[0], &[1, 2])?);
    Ok(())
}

/// A connection over which a vehicle stands so long, at the same point.
fn stands(stand: u32) -> Option<Link> {
    Some(Link::Direct { dead: 0, stand })
}

#[test]
fn trips_have_links_where_they_fit(rt: HostRuntime) -> Result<(), Fail> {
    let alloc = rt.alloc();
    assert!(rt; link_is(alloc, NETWORK, 1, stands(600))?);
    assert!(rt; link_is(alloc, NETWORK, 2, None)?);
    assert!(rt; link_is(alloc, NETWORK, 3, stands(300))?);
    Ok(())
}

#[test]
fn long_stands_are_at_the_depot(rt: HostRuntime) -> Result<(), Fail> {
    let link = Link::Depot {
        inward: 900,
        outward: 900,
        stand: 5_800,
    };
    assert!(rt; link_is(rt.alloc(), NETWORK, 4, Some(link))?);
    Ok(())
}

#[test]
fn a_trip_may_be_shut_to_a_pool(rt: HostRuntime) -> Result<(), Fail> {
    assert!(rt; last_is_shut(rt.alloc(), NETWORK, 6)?);
    Ok(())
}

#[test]
fn the_first_faulty_trip_counts(rt: HostRuntime) -> Result<(), Fail> {
    assert!(rt; lacks_a_run_time(rt.alloc(), NETWORK, 5)?);
    Ok(())
}
