//! The commands `day` and `plan` over a small network in memory.

use day_method::Side;
use plan_core::Bytes;
use planner_run::{InputFault, Status};
use planner_runs::{
    ALLOWED, Change, DAY_WRITTEN, FEWER_TABLES, FULL, HALF_ALLOWED, IN_TIME, LATE, MANY_POOLS,
    NO_CHANGE, NO_DEADHEADS, NO_DRIVERS, NO_NUMBER, NO_ROUTE, NO_RUN_TIME, NO_TRIPS, ONE_FOR_BOTH,
    OPEN_QUOTE, OTHER_DAY, OTHER_TYPE, PAST_END, SHORT, SHORT_ROW, TOGETHER, TOO_LONG, TOO_SOON,
    TWO_PLANS, UNENDED, UNKNOWN_DEPOT, UNKNOWN_TYPE, UNNAMED, USAGE, WRITTEN_HEAD, end_on,
    has_written, is_plan_written, is_refused, joined, text_on,
};
use std::alloc::Global;
use std::test::Fail;
use std::thread::Threads;
use trip_times::TripFault;

const DAY: &[&str] = &["day", "20260302", "f"];

const PLAN: &[&str] = &["plan", "20260302", "f"];

/// A plan with one price round and one lowering round.
const SHORT_PLAN: &[&str] = &["plan", "20260302", "--rounds", "1", "--lower", "1", "f"];

/// Whether `day` writes what the day of the network is.
fn is_day_written<R: Threads + Sync>(rt: &R, alloc: Global) -> Result<bool, Fail> {
    let end = end_on(rt, alloc, DAY, NO_CHANGE)?;
    has_written(alloc, &end, &[WRITTEN_HEAD, DAY_WRITTEN])
}

fn are_written<R: Threads + Sync>(rt: &R, alloc: Global) -> Result<bool, Fail> {
    Ok(is_day_written(rt, alloc)? && is_plan_written(rt, alloc, PLAN, NO_CHANGE)?)
}

#[test]
fn a_day_and_its_plan_are_written(rt: HostRuntime) -> Result<(), Fail> {
    assert!(rt; are_written(&rt, rt.alloc())?);
    Ok(())
}

/// Whether each number of workers writes the plan of the network.
fn write_one_text<R: Threads + Sync>(
    rt: &R,
    alloc: Global,
    numbers: &[&str],
) -> Result<bool, Fail> {
    for number in numbers {
        let words = ["plan", "--workers", *number, "20260302", "f"];
        if !is_plan_written(rt, alloc, &words, NO_CHANGE)? {
            return Ok(false);
        }
    }
    Ok(true)
}

/// Whether that is so, and more allowances change nothing of it.
fn is_one_text<R: Threads + Sync>(rt: &R, alloc: Global) -> Result<bool, Fail> {
    Ok(
        write_one_text(rt, alloc, &["1", "2", "3", "8", "64"])?
            && is_plan_written(rt, alloc, PLAN, ALLOWED)?,
    )
}

#[test]
fn any_number_of_workers_writes_one_text(rt: HostRuntime) -> Result<(), Fail> {
    assert!(rt; is_one_text(&rt, rt.alloc())?);
    Ok(())
}

/// Whether this is the text of a plan, of seven tables.
fn is_plan(alloc: Global, text: &[u8]) -> Result<bool, Fail> {
    let head = joined(alloc, &[WRITTEN_HEAD, "tbl; REC_UMLAUF\n"], b"\r\n")?;
    Ok(text.starts_with(head.as_slice()) && text.ends_with(b"end; 4\r\neof; 7\r\n"))
}

/// Whether each number of workers writes this text by climbing.
fn climb_to_one_text<R: Threads + Sync>(
    rt: &R,
    alloc: Global,
    numbers: &[&str],
    text: &Bytes,
) -> Result<bool, Fail> {
    for number in numbers {
        let words = ["plan", "--climb", "--workers", *number, "20260302", "f"];
        if text_on(rt, alloc, &words, NO_CHANGE)? != *text {
            return Ok(false);
        }
    }
    Ok(true)
}

fn is_one_climbed_text<R: Threads + Sync>(rt: &R, alloc: Global) -> Result<bool, Fail> {
    let first = text_on(rt, alloc, &["plan", "20260302", "f", "--climb"], NO_CHANGE)?;
    Ok(
        is_plan(alloc, first.as_slice())?
            && climb_to_one_text(rt, alloc, &["1", "3", "64"], &first)?,
    )
}

/// Whether that is so, and a day without its times is refused.
fn is_climbed<R: Threads + Sync>(rt: &R, alloc: Global) -> Result<bool, Fail> {
    let line = "trip 2: NoRunTime 1/2 to 1/1\n";
    let words = ["plan", "--climb", "20260302", "f"];
    Ok(is_one_climbed_text(rt, alloc)? && is_refused(rt, alloc, &words, NO_RUN_TIME, 3, line)?)
}

#[test]
fn climbing_writes_one_text_by_any_number_of_workers(rt: HostRuntime) -> Result<(), Fail> {
    assert!(rt; is_climbed(&rt, rt.alloc())?);
    Ok(())
}

/// Whether `plan` writes these lines at the end of its text.
fn is_planned<R: Threads + Sync>(
    rt: &R,
    alloc: Global,
    changes: &[Change],
    lines: &str,
) -> Result<bool, Fail> {
    let end = end_on(rt, alloc, PLAN, changes)?;
    let want = joined(alloc, &[lines], b"\r\n")?;
    Ok(end.status.code() == 0 && end.out.taken().ends_with(want.as_slice()))
}

/// Changes, and the last lines of the plan then.
type Cost = (&'static [Change], &'static str);

/// The last rows of a plan's text have the number of blocks, their cost, the number of duties and theirs, each with its bound.
const COSTS: [Cost; 8] = [
    (
        TOO_SOON,
        "rec; 1; 2; 2\nrec; 2; 5000; 5000\nrec; 3; 2; 2\nrec; 4; 13000; 13000\nend; 4\neof; 7\n",
    ),
    (
        IN_TIME,
        "rec; 1; 1; 1\nrec; 2; 2200; 2200\nrec; 3; 1; 1\nrec; 4; 10100; 10100\nend; 4\neof; 7\n",
    ),
    (
        TOGETHER,
        "rec; 1; 2; 2\nrec; 2; 5000; 5000\nrec; 3; 2; 2\nrec; 4; 13000; 13000\nend; 4\neof; 7\n",
    ),
    (
        NO_TRIPS,
        "rec; 1; 0; 0\nrec; 2; 0; 0\nrec; 3; 0; 0\nrec; 4; 0; 0\nend; 4\neof; 7\n",
    ),
    (
        OTHER_DAY,
        "rec; 1; 1; 1\nrec; 2; 2500; 2500\nrec; 3; 1; 1\nrec; 4; 6500; 6500\nend; 4\neof; 7\n",
    ),
    (
        LATE,
        "rec; 1; 1; 1\nrec; 2; 4000; 4000\nrec; 3; 2; 1\nrec; 4; 13000; 13000\nend; 4\neof; 7\n",
    ),
    (
        FULL,
        "rec; 2; 2200; 2200\nrec; 3; 2; 2\nrec; 4; 25600; 25600\nend; 4\neof; 7\n",
    ),
    (ALLOWED, "rec; 4; 10400; 10400\nend; 4\neof; 7\n"),
];

fn first_other_cost<R: Threads + Sync>(
    rt: &R,
    alloc: Global,
    rows: &[Cost],
) -> Result<Option<usize>, Fail> {
    for place in 0..rows.len() {
        let (changes, lines) = rows[place];
        if !is_planned(rt, alloc, changes, lines)? {
            return Ok(Some(place));
        }
    }
    Ok(None)
}

fn first_other_of_costs<R: Threads + Sync>(rt: &R, alloc: Global) -> Result<Option<usize>, Fail> {
    first_other_cost(rt, alloc, COSTS.as_slice())
}

#[test]
fn plans_have_their_costs_and_bounds(rt: HostRuntime) -> Result<(), Fail> {
    assert_eq!(rt; first_other_of_costs(&rt, rt.alloc())?, None);
    Ok(())
}

/// Words, changes, the number of the status that they end with, and the line.
type Refusal = (&'static [&'static str], &'static [Change], u8, &'static str);

const REFUSALS: [Refusal; 28] = [
    (PLAN, UNENDED, 3, "file 1 line 96: Unended\n"),
    (PLAN, FEWER_TABLES, 3, "file 1 line 96: EofCount\n"),
    (PLAN, UNNAMED, 3, "file 1 line 8: Order\n"),
    (PLAN, SHORT_ROW, 3, "file 1 line 11: Count\n"),
    (PLAN, OPEN_QUOTE, 3, "file 1 line 11: Field\n"),
    (
        PLAN,
        NO_NUMBER,
        3,
        "table BASIS_VER_GUELTIGKEIT column BASIS_VERSION row 1: Range\n",
    ),
    (DAY, NO_RUN_TIME, 3, "trip 2: NoRunTime 1/2 to 1/1\n"),
    (PLAN, NO_RUN_TIME, 3, "trip 2: NoRunTime 1/2 to 1/1\n"),
    (DAY, PAST_END, 3, "trip 1: PastEnd\n"),
    (DAY, SHORT, 3, "trip 1: ShortRoute\n"),
    (DAY, NO_ROUTE, 3, "trip 1: NoRoute\n"),
    (PLAN, PAST_END, 3, "trip 1: PastEnd\n"),
    (PLAN, SHORT, 3, "trip 1: ShortRoute\n"),
    (PLAN, NO_ROUTE, 3, "trip 1: NoRoute\n"),
    (DAY, TWO_PLANS, 3, "table X_PLAN row 0: NotOne\n"),
    (PLAN, UNKNOWN_DEPOT, 3, "table X_HOF row 1: UnknownPoint\n"),
    (PLAN, UNKNOWN_TYPE, 3, "table X_HOF row 1: UnknownType\n"),
    (PLAN, MANY_POOLS, 3, "table X_HOF row 0: TooMany\n"),
    (
        PLAN,
        HALF_ALLOWED,
        3,
        "table X_FAHRER column ZEHN_STD row 1: Range\n",
    ),
    (
        &["plan", "20251231", "f"],
        NO_CHANGE,
        4,
        "day 20251231: NoVersion\n",
    ),
    (
        &["plan", "20260230", "f"],
        NO_CHANGE,
        4,
        "day 20260230: NoDate\n",
    ),
    (
        SHORT_PLAN,
        ONE_FOR_BOTH,
        5,
        "no plan: vehicles bound 10 places 1\n",
    ),
    (PLAN, NO_DRIVERS, 5, "no plan: drivers bound 108 places 0\n"),
    (SHORT_PLAN, OTHER_TYPE, 6, "not placed: trip 1\n"),
    (PLAN, NO_DEADHEADS, 6, "not placed: trip 1\n"),
    (SHORT_PLAN, TOO_LONG, 6, "not placed: trip 1\n"),
    (
        &["plan", "20260302", "--workers", "0", "f"],
        NO_CHANGE,
        2,
        USAGE,
    ),
    (&["plan", "20260302"], NO_CHANGE, 2, USAGE),
];

fn first_other_refusal<R: Threads + Sync>(
    rt: &R,
    alloc: Global,
    rows: &[Refusal],
) -> Result<Option<usize>, Fail> {
    for place in 0..rows.len() {
        let (words, changes, code, line) = rows[place];
        if !is_refused(rt, alloc, words, changes, code, line)? {
            return Ok(Some(place));
        }
    }
    Ok(None)
}

fn first_other_of_refusals<R: Threads + Sync>(
    rt: &R,
    alloc: Global,
) -> Result<Option<usize>, Fail> {
    first_other_refusal(rt, alloc, REFUSALS.as_slice())
}

#[test]
fn refusals_have_their_lines(rt: HostRuntime) -> Result<(), Fail> {
    assert_eq!(rt; first_other_of_refusals(&rt, rt.alloc())?, None);
    Ok(())
}

/// Whether the first trip is left, beside no block.
fn is_first_left(status: &Status) -> bool {
    match status {
        Status::NotPlaced {
            side: Side::Vehicles,
            item,
            partial,
            ..
        } => *item == 0 && partial.columns.as_slice().is_empty(),
        _ => false,
    }
}

/// Whether 108 drivers are needed and there is none.
fn are_drivers_too_few(status: &Status) -> bool {
    match status {
        Status::NoPlan {
            side,
            bound,
            places,
        } => *side == Side::Drivers && *bound == 108 && *places == 0,
        _ => false,
    }
}

/// Whether the second trip has no times, and not for want of a route.
fn has_no_times(status: &Status) -> bool {
    match status {
        Status::Input(InputFault::Trip { fid, fault }) => {
            *fid == 2 && *fault != TripFault::NoRoute
        }
        _ => false,
    }
}

fn is_left<R: Threads + Sync>(rt: &R, alloc: Global) -> Result<bool, Fail> {
    let end = end_on(rt, alloc, SHORT_PLAN, OTHER_TYPE)?;
    Ok(is_first_left(&end.status))
}

fn are_too_few<R: Threads + Sync>(rt: &R, alloc: Global) -> Result<bool, Fail> {
    let end = end_on(rt, alloc, PLAN, NO_DRIVERS)?;
    Ok(are_drivers_too_few(&end.status))
}

fn is_without_times<R: Threads + Sync>(rt: &R, alloc: Global) -> Result<bool, Fail> {
    let end = end_on(rt, alloc, DAY, NO_RUN_TIME)?;
    Ok(has_no_times(&end.status))
}

fn are_told<R: Threads + Sync>(rt: &R, alloc: Global) -> Result<bool, Fail> {
    Ok(is_left(rt, alloc)? && are_too_few(rt, alloc)? && is_without_times(rt, alloc)?)
}

#[test]
fn what_is_left_and_what_is_too_few_is_told(rt: HostRuntime) -> Result<(), Fail> {
    assert!(rt; are_told(&rt, rt.alloc())?);
    Ok(())
}
