//! The command `replan` over the small network: a plan of the day, and the day planned anew from a moment on.

use crate::cert_tests::reason_numbers;
use plan_core::{Bytes, NoGate};
use planner_run::Status;
use planner_runs::{
    Change, Ended, NO_CHANGE, TOO_SOON, UNENDED, USAGE, demo, end_in_room, end_of, has_part, is_so,
    joined, plan_written, text_of, three_files, with, written,
};
use std::alloc::Global;
use std::test::Fail;
use std::thread::Threads;

const POOL: &str = "rec; 1; 2; 9; 1; 2; 1000; 1; 0";

/// A vehicle costs nothing, and a stand four a second: a way to the depot and out again is cheaper than the stand between both trips.
const DEAR_STAND: &[Change] = &[(POOL, "rec; 1; 2; 9; 1; 2; 0; 1; 4")];

/// There are no vehicles any more.
const NO_VEHICLES: &[Change] = &[(POOL, "rec; 1; 2; 9; 1; 0; 1000; 1; 0")];

/// The plan lacks its bounds.
const NO_BOUNDS: &[Change] = &[("tbl; X_SCHRANKE", "tbl; X_SCHRANKEN")];

/// The network lacks its pools.
const NO_POOLS: &[Change] = &[("tbl; X_HOF", "tbl; X_HOEFE")];

/// The plan lacks its last line.
const UNENDED_PLAN: &[Change] = &[("eof; 7\r\n", "")];

/// The lines that every file begins with, and no table.
const NO_TABLES: &str =
    "mod; DD.MM.YYYY; HH:MM:SS; free\nsrc; \"demo\"; \"01.01.2000\"; \"00:00:00\"\nchs; \"ISO8859-1\"\nver; \"1.4\"\nifv; \"1.4\"\ndve; \"1.4\"\nfft; \"\"\neof; 0\n";

/// The rows of two blocks that cost 1,500 each.
const TWO_BLOCKS: &str = "rec; 1; 1; 1500\r\nrec; 2; 1; 1500\r\nend; 2\r\n";

/// The rows of the duties over them.
const TWO_DUTIES: &str =
    "rec; 1; 1; 27600; 33600; 5100; 6500\r\nrec; 2; 1; 31500; 37500; 5100; 6500\r\nend; 2\r\n";

/// The row of one block with the stand.
const ONE_BLOCK: &str =
    "KOSTEN\r\nfrm; num[19.0]; num[19.0]; num[19.0]\r\nrec; 1; 1; 3600\r\nend; 1\r\n";

/// The row of the duty over it.
const ONE_DUTY: &str = "rec; 1; 1; 27600; 37500; 8400; 10400\r\nend; 1\r\n";

/// How the words end over a planning file `f`, a file `g` without a table, and a plan `p`: the network and its plan, with some changes each.
fn end_over<R: Threads + Sync>(
    rt: &R,
    alloc: Global,
    words: &[&str],
    changes: &[Change],
    plan_changes: &[Change],
) -> Result<Ended, Fail> {
    let planning = demo(alloc, changes)?;
    let nothing = joined(alloc, &[NO_TABLES], b"\n")?;
    let plan = with(alloc, plan_written(alloc)?, plan_changes)?;
    let files = three_files(alloc, ["f", "g", "p"], planning, nothing, plan)?;
    end_of(rt, alloc, words, files)
}

/// What the words write, and nothing on standard error.
fn text_over<R: Threads + Sync>(
    rt: &R,
    alloc: Global,
    words: &[&str],
    changes: &[Change],
) -> Result<Bytes, Fail> {
    let end = end_over(rt, alloc, words, changes, NO_CHANGE)?;
    text_of(alloc, &end)
}

/// Whether the words write the plan again.
fn is_written_again<R: Threads + Sync>(
    rt: &R,
    alloc: Global,
    words: &[&str],
) -> Result<bool, Fail> {
    let text = text_over(rt, alloc, words, NO_CHANGE)?;
    Ok(text == plan_written(alloc)?)
}

/// Whether the day is planned anew from each of some moments on as it was planned.
fn are_as_before<R: Threads + Sync>(rt: &R, alloc: Global, moments: &[&str]) -> Result<bool, Fail> {
    for moment in moments {
        if !is_written_again(rt, alloc, &["replan", "20260302", *moment, "p", "f"])? {
            return Ok(false);
        }
    }
    Ok(true)
}

fn is_best_again<R: Threads + Sync>(rt: &R, alloc: Global) -> Result<bool, Fail> {
    are_as_before(rt, alloc, &["0", "30000", "030000"])
}

#[test]
fn a_plan_that_is_best_is_written_again(rt: HostRuntime) -> Result<(), Fail> {
    assert!(rt; is_best_again(&rt, rt.alloc())?);
    Ok(())
}

fn stays_behind<R: Threads + Sync>(rt: &R, alloc: Global) -> Result<bool, Fail> {
    are_as_before(rt, alloc, &["37200", "37500", "37501", "172800"])
}

/// Behind the last trip all has begun.
#[test]
fn every_block_and_duty_stays_behind_the_last_trip(rt: HostRuntime) -> Result<(), Fail> {
    assert!(rt; stays_behind(&rt, rt.alloc())?);
    Ok(())
}

/// Whether the new plan from a moment on has both of these parts.
fn has_both<R: Threads + Sync>(
    rt: &R,
    alloc: Global,
    moment: &str,
    blocks: &str,
    duties: &str,
) -> Result<bool, Fail> {
    let text = text_over(
        rt,
        alloc,
        &["replan", "20260302", moment, "p", "f"],
        DEAR_STAND,
    )?;
    Ok(has_part(text.as_slice(), blocks) && has_part(text.as_slice(), duties))
}

/// The second trip's vehicle leaves the depot at 32100 at the latest.
fn is_planned_anew<R: Threads + Sync>(rt: &R, alloc: Global) -> Result<bool, Fail> {
    Ok(
        has_both(rt, alloc, "30000", TWO_BLOCKS, TWO_DUTIES)?
            && has_both(rt, alloc, "32100", TWO_BLOCKS, TWO_DUTIES)?
            && has_both(rt, alloc, "32101", ONE_BLOCK, ONE_DUTY)?
            && has_both(rt, alloc, "32200", ONE_BLOCK, ONE_DUTY)?,
    )
}

#[test]
fn what_has_begun_stays_and_the_rest_is_planned_anew(rt: HostRuntime) -> Result<(), Fail> {
    assert!(rt; is_planned_anew(&rt, rt.alloc())?);
    Ok(())
}

/// Whether two lists of words write one new plan.
fn write_alike<R: Threads + Sync>(
    rt: &R,
    alloc: Global,
    one: &[&str],
    other: &[&str],
) -> Result<bool, Fail> {
    let text = text_over(rt, alloc, one, DEAR_STAND)?;
    Ok(text_over(rt, alloc, other, DEAR_STAND)? == text)
}

fn is_one_plan<R: Threads + Sync>(rt: &R, alloc: Global) -> Result<bool, Fail> {
    let four = ["replan", "20260302", "--workers=4", "30000", "p", "f"];
    let climbed = ["replan", "20260302", "30000", "p", "f", "--climb"];
    let four_climbed = [
        "replan",
        "--climb",
        "20260302",
        "30000",
        "p",
        "f",
        "--workers",
        "4",
    ];
    Ok(write_alike(rt, alloc, WORDS, &four)? && write_alike(rt, alloc, &climbed, &four_climbed)?)
}

#[test]
fn any_number_of_workers_writes_one_new_plan(rt: HostRuntime) -> Result<(), Fail> {
    assert!(rt; is_one_plan(&rt, rt.alloc())?);
    Ok(())
}

/// A copy of a text.
fn copy_of(alloc: Global, text: &Bytes) -> Result<Bytes, Fail> {
    Ok(Bytes::from_vec(text.as_slice().to_vec(alloc)?))
}

/// What the words write over a planning file `f` and a plan `p`, and nothing on standard error.
fn text_of_day<R: Threads + Sync>(
    rt: &R,
    alloc: Global,
    words: &[&str],
    day: &Bytes,
    plan: &Bytes,
) -> Result<Bytes, Fail> {
    let nothing = Bytes::from_vec(Vec::new(alloc));
    let files = three_files(
        alloc,
        ["f", "g", "p"],
        copy_of(alloc, day)?,
        nothing,
        copy_of(alloc, plan)?,
    )?;
    let end = end_in_room(rt, alloc, words, files, &NoGate)?;
    text_of(alloc, &end)
}

/// The text in front of a part.
fn front_of<'a>(text: &'a Bytes, part: &str) -> &'a [u8] {
    let found = text
        .as_slice()
        .windows(part.len().max(1))
        .position(|window| window == part.as_bytes());
    match found {
        None => &[],
        Some(place) => text.as_slice().get(..place).unwrap_or(&[]),
    }
}

/// Whether a day is planned from its start on as without an earlier plan.
fn is_planned_again<R: Threads + Sync>(
    rt: &R,
    alloc: Global,
    day: &Bytes,
    plan: &Bytes,
) -> Result<bool, Fail> {
    let words = ["replan", "20260302", "0", "p", "f"];
    Ok(text_of_day(rt, alloc, &words, day, plan)? == *plan)
}

/// Whether every block and duty of a plan stays behind the last trip, and only the bounds are others.
fn keeps_all<R: Threads + Sync>(
    rt: &R,
    alloc: Global,
    day: &Bytes,
    plan: &Bytes,
) -> Result<bool, Fail> {
    let words = ["replan", "20260302", "172800", "p", "f"];
    let stays = text_of_day(rt, alloc, &words, day, plan)?;
    let front = front_of(plan, "tbl; X_SCHRANKE");
    Ok(!front.is_empty() && front_of(&stays, "tbl; X_SCHRANKE") == front)
}

/// The plan of a day.
fn plan_of<R: Threads + Sync>(rt: &R, alloc: Global, day: &Bytes) -> Result<Bytes, Fail> {
    let none = Bytes::from_vec(Vec::new(alloc));
    text_of_day(rt, alloc, &["plan", "20260302", "f"], day, &none)
}

/// Whether both are so for a made day of 60 trips.
fn is_as_before<R: Threads + Sync>(rt: &R, alloc: Global, seed: &str) -> Result<bool, Fail> {
    let day = written(rt, alloc, &["make", seed, "--trips", "60"], &NoGate)?;
    let plan = plan_of(rt, alloc, &day)?;
    Ok(is_planned_again(rt, alloc, &day, &plan)? && keeps_all(rt, alloc, &day, &plan)?)
}

fn are_sixty_as_before<R: Threads + Sync>(rt: &R, alloc: Global) -> Result<bool, Fail> {
    Ok(is_as_before(rt, alloc, "7")? && is_as_before(rt, alloc, "11")?)
}

/// From the start of a day on everything is planned as without an earlier plan; behind its last trip every block and duty stays, and only
/// the bounds are others.
#[test]
fn days_of_60_trips_are_planned_as_before(rt: HostRuntime) -> Result<(), Fail> {
    assert!(rt; are_sixty_as_before(&rt, rt.alloc())?);
    Ok(())
}

fn may_be_several<R: Threads + Sync>(rt: &R, alloc: Global) -> Result<bool, Fail> {
    Ok(
        is_written_again(rt, alloc, &["replan", "20260302", "30000", "p", "f", "g"])?
            && is_written_again(rt, alloc, &["replan", "20260302", "30000", "p", "g", "f"])?,
    )
}

#[test]
fn planning_files_may_be_several(rt: HostRuntime) -> Result<(), Fail> {
    assert!(rt; may_be_several(&rt, rt.alloc())?);
    Ok(())
}

const WORDS: &[&str] = &["replan", "20260302", "30000", "p", "f"];

/// Words, changes of the network and of the plan, the number of the status that they end with, and the line.
type Refusal = (
    &'static [&'static str],
    &'static [Change],
    &'static [Change],
    u8,
    &'static str,
);

const REFUSALS: [Refusal; 12] = [
    (
        &["replan", "20260302", "172801", "p", "f"],
        NO_CHANGE,
        NO_CHANGE,
        2,
        USAGE,
    ),
    (
        &["replan", "20260302", "30000", "p", "f", "--flow"],
        NO_CHANGE,
        NO_CHANGE,
        2,
        USAGE,
    ),
    // The plan is read behind the planning files, and has its number behind theirs.
    (
        WORDS,
        NO_CHANGE,
        UNENDED_PLAN,
        3,
        "file 2 line 52: Unended\n",
    ),
    (
        &["replan", "20260302", "30000", "p", "f", "g"],
        NO_CHANGE,
        UNENDED_PLAN,
        3,
        "file 3 line 52: Unended\n",
    ),
    (WORDS, UNENDED, UNENDED_PLAN, 3, "file 1 line 96: Unended\n"),
    (
        &["replan", "20260302", "30000", "q", "f"],
        NO_CHANGE,
        NO_CHANGE,
        7,
        "read fault: file 2\n",
    ),
    (
        &["replan", "20260302", "30000", "p", "q"],
        NO_CHANGE,
        UNENDED_PLAN,
        7,
        "read fault: file 1\n",
    ),
    // All texts are judged before the tables, and the planning tables before the plan.
    (
        WORDS,
        NO_POOLS,
        UNENDED_PLAN,
        3,
        "file 2 line 52: Unended\n",
    ),
    (
        WORDS,
        NO_POOLS,
        NO_BOUNDS,
        3,
        "table X_HOF column  row 0: NoTable\n",
    ),
    (
        &["replan", "20251231", "30000", "p", "f"],
        NO_CHANGE,
        NO_BOUNDS,
        4,
        "day 20251231: NoVersion\n",
    ),
    // The plan is judged before the day is planned.
    (WORDS, NO_VEHICLES, NO_BOUNDS, 11, "old plan 1 PlanForm\n"),
    (WORDS, TOO_SOON, NO_CHANGE, 11, "old plan 3 BlockUnlawful\n"),
];

fn is_refused<R: Threads + Sync>(rt: &R, alloc: Global, row: Refusal) -> Result<bool, Fail> {
    let (words, changes, plan_changes, code, line) = row;
    let end = end_over(rt, alloc, words, changes, plan_changes)?;
    Ok(is_so(&end, code, b"", line))
}

fn first_other<R: Threads + Sync>(
    rt: &R,
    alloc: Global,
    rows: &[Refusal],
) -> Result<Option<usize>, Fail> {
    for place in 0..rows.len() {
        if !is_refused(rt, alloc, rows[place])? {
            return Ok(Some(place));
        }
    }
    Ok(None)
}

fn first_other_refusal<R: Threads + Sync>(rt: &R, alloc: Global) -> Result<Option<usize>, Fail> {
    first_other(rt, alloc, REFUSALS.as_slice())
}

#[test]
fn refusals_come_in_their_order(rt: HostRuntime) -> Result<(), Fail> {
    assert_eq!(rt; first_other_refusal(&rt, rt.alloc())?, None);
    Ok(())
}

/// The status number, and behind it the numbers of the reason against the earlier plan.
fn status_numbers(status: &Status) -> [u64; 5] {
    match status {
        Status::OldPlan(reason) => {
            let [kind, one, two, three] = reason_numbers(reason);
            [11, kind, one, two, three]
        }
        other => [other.code() as u64, 0, 0, 0, 0],
    }
}

/// Changes of the network after the plan was made, changes of the plan, and how it ends.
type Reasoned = (&'static [Change], &'static [Change], [u64; 5]);

const REASONS: [Reasoned; 6] = [
    (TOO_SOON, &[], [11, 3, 1, 0, 0]),
    (
        &[],
        &[("rec; 1; 2; 33000; 1; 1; 1; 1; \"R\"; 1\r\nend; 2", "end; 1")],
        [11, 2, 2, 0, 0],
    ),
    (
        &[],
        &[(
            "rec; 1; 2; 1; 2; 1; 2; 33000; 2; 9; 37200; 4200\r\nend; 2",
            "end; 1",
        )],
        [11, 5, 1, 2, 0],
    ),
    (NO_VEHICLES, NO_BOUNDS, [11, 1, 0, 0, 0]),
    // The plan is one, and has no vehicles any more.
    (NO_VEHICLES, &[], [5, 0, 0, 0, 0]),
    // What a block cost is not looked at.
    (&[], &[("rec; 1; 1; 2200", "rec; 1; 1; 2201")], [0; 5]),
];

fn has_reason<R: Threads + Sync>(rt: &R, alloc: Global, row: Reasoned) -> Result<bool, Fail> {
    let (changes, plan_changes, ended) = row;
    let end = end_over(rt, alloc, WORDS, changes, plan_changes)?;
    Ok(status_numbers(&end.status) == ended)
}

fn first_unlike<R: Threads + Sync>(
    rt: &R,
    alloc: Global,
    rows: &[Reasoned],
) -> Result<Option<usize>, Fail> {
    for place in 0..rows.len() {
        if !has_reason(rt, alloc, rows[place])? {
            return Ok(Some(place));
        }
    }
    Ok(None)
}

fn first_unlike_reason<R: Threads + Sync>(rt: &R, alloc: Global) -> Result<Option<usize>, Fail> {
    first_unlike(rt, alloc, REASONS.as_slice())
}

#[test]
fn plans_that_are_none_have_their_reason(rt: HostRuntime) -> Result<(), Fail> {
    assert_eq!(rt; first_unlike_reason(&rt, rt.alloc())?, None);
    Ok(())
}
