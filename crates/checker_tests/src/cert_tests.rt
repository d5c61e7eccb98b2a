//! The commands `certify` and `check`: a plan and its certificate are made, and checked with and without changes.

use accepted_texts::written_texts_are_accepted;
use cert_check::{OldPlan, Reason, check_old};
use plan_core::Bytes;
use planner_run::{Ready, Status, ready_day};
use planner_runs::{
    Change, GROUP, NO_CHANGE, ONE_FOR_BOTH, TOGETHER, TOO_SOON, WRITTEN_HEAD, demo, end_of, is_so,
    joined, text_on, three_files, with,
};
use std::alloc::Global;
use std::test::Fail;
use std::thread::Threads;
use vdv451_text::read_file;

/// The certificate of the plan of the two trips.
const CERT_WRITTEN: &str =
    "tbl; X_PREIS\natr; ART; LFD_NR; PREIS\nfrm; num[19.0]; num[19.0]; num[19.0]\nrec; 1; 1; 500\nrec; 1; 2; 500\nrec; 2; 1; 1100000\nrec; 2; 2; 1100000\nrec; 3; 1; 500\nrec; 3; 2; 500\nrec; 4; 1; 5200000\nrec; 4; 2; 5200000\nend; 8\ntbl; X_KLASSENPREIS\natr; ART; KLASSE; PREIS\nfrm; num[19.0]; num[19.0]; num[19.0]\nrec; 1; 1; 0\nrec; 2; 1; 0\nrec; 3; 1; 0\nrec; 4; 1; 0\nend; 4\ntbl; X_MARKE\natr; ART; GRUPPE_NR; STUECK; BEGINN; LENK; VIERTEL; GESAMT; DREI; WERT\nfrm; num[19.0]; num[19.0]; num[19.0]; num[19.0]; num[19.0]; num[19.0]; num[19.0]; num[19.0]; num[19.0]\nrec; 3; 1; 1; 27600; 4200; 0; 4200; 0; 500\nrec; 3; 1; 2; 27600; 8400; 0; 8400; 0; 0\nrec; 3; 1; 2; 31200; 4200; 0; 4200; 0; 500\nrec; 4; 1; 1; 27600; 4200; 0; 4200; 0; -32300000\nrec; 4; 1; 2; 27600; 8400; 0; 8400; 0; -37500000\nrec; 4; 1; 2; 31200; 4200; 0; 4200; 0; -35900000\nend; 6\ntbl; X_UMARKE\natr; ART; HOF_NR; LFD_NR; LENK; WERT\nfrm; num[19.0]; num[19.0]; num[19.0]; num[19.0]; num[19.0]\nrec; 1; 1; 1; 4200; 500\nrec; 1; 1; 2; 3600; 0\nrec; 2; 1; 1; 4200; 500000\nrec; 2; 1; 2; 3600; -600000\nend; 4\neof; 4\n";

/// What a command writes of the network with some changes, and nothing on standard error.
fn text_of_command<R: Threads + Sync>(
    rt: &R,
    alloc: Global,
    command: &str,
    changes: &[Change],
) -> Result<Bytes, Fail> {
    text_on(rt, alloc, &[command, "20260302", "f"], changes)
}

/// A reason as numbers: its own number, and what it tells, of a table its row alone.
pub(crate) fn reason_numbers(reason: &Reason) -> [u64; 4] {
    match reason {
        Reason::PlanForm { row, .. } => [1, *row as u64, 0, 0],
        Reason::TripTimes { fid, times } => [2, *fid, *times as u64, 0],
        Reason::BlockUnlawful { block } => [3, *block as u64, 0, 0],
        Reason::PoolOver { pool, used, cap } => [4, *pool as u64, *used as u64, *cap as u64],
        Reason::PieceTimes {
            block,
            index,
            times,
        } => { [5, *block as u64, *index as u64, *times as u64] }
        Reason::DutyUnlawful { duty } => [6, *duty as u64, 0, 0],
        Reason::GroupOver { group, used, cap } => [7, *group as u64, *used as u64, *cap as u64],
        Reason::PlanDiffers { row, .. } => [8, *row as u64, 0, 0],
        Reason::CertForm { .. } => [9, 0, 0, 0],
        Reason::NegativeClassPrice { pass, class } => [10, *pass as u64, *class as u64, 0],
        Reason::Uncovered { pass, .. } => [12, *pass as u64, 0, 0],
        Reason::BoundTooHigh {
            pass,
            printed,
            shown,
        } => [13, *pass as u64, *printed, *shown],
    }
}

/// How a check ended, as numbers: the code of its status, and behind a no the numbers of the reason.
fn status_numbers(status: &Status) -> [u64; 5] {
    match status {
        Status::CheckNo(reason) => {
            let [kind, one, two, three] = reason_numbers(reason);
            [10, kind, one, two, three]
        }
        other => [other.code() as u64, 0, 0, 0, 0],
    }
}

/// What is checked: planning files, a plan and a certificate.
#[derive(Drop)]
pub(crate) struct Sets {
    pub(crate) planning: Bytes,
    pub(crate) plan: Bytes,
    pub(crate) cert: Bytes,
}

/// Whether a check writes this line, says this on standard error, and ends so.
pub(crate) fn is_checked<R: Threads + Sync>(
    rt: &R,
    alloc: Global,
    sets: Sets,
    line: &str,
    said: &str,
    ended: [u64; 5],
) -> Result<bool, Fail> {
    let Sets {
        planning,
        plan,
        cert,
    } = sets;
    let files = three_files(alloc, ["f", "p", "c"], planning, plan, cert)?;
    let end = end_of(rt, alloc, &["check", "20260302", "p", "c", "f"], files)?;
    let code = end.status.code();
    Ok(is_so(&end, code, line.as_bytes(), said) && status_numbers(&end.status) == ended)
}

fn is_cert(alloc: Global, text: &Bytes) -> Result<bool, Fail> {
    let want = joined(alloc, &[WRITTEN_HEAD, CERT_WRITTEN], b"\r\n")?;
    Ok(want == *text)
}

fn is_certified<R: Threads + Sync>(rt: &R, alloc: Global) -> Result<bool, Fail> {
    let cert = text_of_command(rt, alloc, "certify", NO_CHANGE)?;
    is_cert(alloc, &cert)
}

#[test]
fn a_certificate_is_written(rt: HostRuntime) -> Result<(), Fail> {
    assert!(rt; is_certified(&rt, rt.alloc())?);
    Ok(())
}

/// Changes of the planning files, of the plan and of the certificate, what the check writes and says, and how it ends.
#[derive(Clone, Copy)]
struct Check {
    /// The changes of the network before the plan and the certificate are made.
    before: &'static [Change],
    planning: &'static [Change],
    plan: &'static [Change],
    cert: &'static [Change],
    line: &'static str,
    said: &'static str,
    ended: [u64; 5],
}

/// What is checked in a case.
fn sets_of<R: Threads + Sync>(rt: &R, alloc: Global, check: &Check) -> Result<Sets, Fail> {
    Ok(Sets {
        planning: demo(alloc, check.planning)?,
        plan: with(
            alloc,
            text_of_command(rt, alloc, "plan", check.before)?,
            check.plan,
        )?,
        cert: with(
            alloc,
            text_of_command(rt, alloc, "certify", check.before)?,
            check.cert,
        )?,
    })
}

fn is_so_checked<R: Threads + Sync>(rt: &R, alloc: Global, check: &Check) -> Result<bool, Fail> {
    let sets = sets_of(rt, alloc, check)?;
    is_checked(rt, alloc, sets, check.line, check.said, check.ended)
}

/// Changes of the planning files, of the plan and of the certificate, and what the check says.
type Row = (
    &'static [Change],
    &'static [Change],
    &'static [Change],
    &'static str,
    [u64; 5],
);

const ROWS: [Row; 25] = [
    // As they were made.
    (&[], &[], &[], "yes\n", [0, 0, 0, 0, 0]),
    // Without the bounds.
    (
        &[],
        &[("tbl; X_SCHRANKE", "tbl; X_SCHRANKEN")],
        &[],
        "no 1 PlanForm\n",
        [10, 1, 0, 0, 0],
    ),
    // Without the second trip.
    (
        &[],
        &[("rec; 1; 2; 33000; 1; 1; 1; 1; \"R\"; 1\r\nend; 2", "end; 1")],
        &[],
        "no 2 TripTimes\n",
        [10, 2, 2, 0, 0],
    ),
    // The second trip begins too soon.
    (TOO_SOON, &[], &[], "no 3 BlockUnlawful\n", [10, 3, 1, 0, 0]),
    // Without the second piece.
    (
        &[],
        &[(
            "rec; 1; 2; 1; 2; 1; 2; 33000; 2; 9; 37200; 4200\r\nend; 2",
            "end; 1",
        )],
        &[],
        "no 5 PieceTimes\n",
        [10, 5, 1, 2, 0],
    ),
    // Drivers sign on so early that the duty is too long.
    (
        &[(GROUP, "rec; 1; 2; 9; 2; 500; 1; 40000; 300")],
        &[],
        &[],
        "no 6 DutyUnlawful\n",
        [10, 6, 1, 0, 0],
    ),
    // A block costs one more.
    (
        &[],
        &[("rec; 1; 1; 2200", "rec; 1; 1; 2201")],
        &[],
        "no 8 PlanDiffers\n",
        [10, 8, 1, 0, 0],
    ),
    // A price is missing.
    (
        &[],
        &[],
        &[("rec; 4; 2; 5200000\r\nend; 8", "end; 7")],
        "no 9 CertForm\n",
        [10, 9, 0, 0, 0],
    ),
    // A class price below 0.
    (
        &[],
        &[],
        &[("rec; 2; 1; 0", "rec; 2; 1; -1")],
        "no 10 NegativeClassPrice\n",
        [10, 10, 2, 0, 0],
    ),
    // A price of a trip that is too high for its block.
    (
        &[],
        &[],
        &[("rec; 2; 1; 1100000", "rec; 2; 1; 1101000")],
        "no 12 Uncovered\n",
        [10, 12, 2, 0, 0],
    ),
    // Without a mark of duties, and without one of blocks.
    (
        &[],
        &[],
        &[
            ("rec; 3; 1; 2; 27600; 8400; 0; 8400; 0; 0\r\n", ""),
            ("end; 6", "end; 5"),
        ],
        "no 12 Uncovered\n",
        [10, 12, 3, 0, 0],
    ),
    (
        &[],
        &[],
        &[
            ("rec; 1; 1; 2; 3600; 0\r\n", ""),
            (
                "rec; 2; 1; 2; 3600; -600000\r\nend; 4",
                "rec; 2; 1; 2; 3600; -600000\r\nend; 3",
            ),
        ],
        "no 12 Uncovered\n",
        [10, 12, 1, 0, 0],
    ),
    // A bound of two blocks, and one that is below the one shown.
    (
        &[],
        &[(
            "rec; 1; 1; 1\r\nrec; 2; 2200",
            "rec; 1; 1; 2\r\nrec; 2; 2200",
        )],
        &[],
        "no 13 BoundTooHigh\n",
        [10, 13, 1, 2, 1],
    ),
    (
        &[],
        &[("rec; 2; 2200; 2200", "rec; 2; 2200; 2199")],
        &[],
        "yes\n",
        [0, 0, 0, 0, 0],
    ),
    // A duty mark that closes too low.
    (
        &[],
        &[],
        &[("8400; 0; -37500000", "8400; 0; -37500001")],
        "no 12 Uncovered\n",
        [10, 12, 4, 0, 0],
    ),
    // The group is another one.
    (
        &[],
        &[("rec; 1; 1; 27600", "rec; 1; 2; 27600")],
        &[],
        "no 1 PlanForm\n",
        [10, 1, 1, 0, 0],
    ),
    // The block is of no pool.
    (
        &[],
        &[("rec; 1; 1; 2200", "rec; 1; 8; 2200")],
        &[],
        "no 1 PlanForm\n",
        [10, 1, 1, 0, 0],
    ),
    // The first trip stands in the place of the second one, and both in the wrong order.
    (
        &[],
        &[("rec; 1; 2; 33000; 1", "rec; 1; 1; 33000; 1")],
        &[],
        "no 2 TripTimes\n",
        [10, 2, 1, 2, 0],
    ),
    (
        &[],
        &[(
            "rec; 1; 1; 28800; 1; 1; 1; 1; \"H\"; 1\r\nrec; 1; 2; 33000; 1; 1; 1; 1; \"R\"; 1",
            "rec; 1; 2; 33000; 1; 1; 1; 1; \"R\"; 1\r\nrec; 1; 1; 28800; 1; 1; 1; 1; \"H\"; 1",
        )],
        &[],
        "no 3 BlockUnlawful\n",
        [10, 3, 1, 0, 0],
    ),
    // The first piece twice, and the pieces in the wrong order.
    (
        &[],
        &[(
            "rec; 1; 2; 1; 2; 1; 2; 33000",
            "rec; 1; 2; 1; 1; 1; 2; 33000",
        )],
        &[],
        "no 5 PieceTimes\n",
        [10, 5, 1, 1, 2],
    ),
    (
        &[],
        &[
            (
                "rec; 1; 1; 1; 1; 2; 9; 28200",
                "rec; 1; 1; 1; 3; 2; 9; 28200",
            ),
            (
                "rec; 1; 2; 1; 2; 1; 2; 33000",
                "rec; 1; 2; 1; 1; 1; 2; 33000",
            ),
            (
                "rec; 1; 1; 1; 3; 2; 9; 28200",
                "rec; 1; 1; 1; 2; 2; 9; 28200",
            ),
        ],
        &[],
        "no 6 DutyUnlawful\n",
        [10, 6, 1, 0, 0],
    ),
    // A leg ends a second later.
    (
        &[],
        &[("1; 2; 32400; 1; 2; 33000", "1; 2; 32400; 1; 2; 33001")],
        &[],
        "no 8 PlanDiffers\n",
        [10, 8, 3, 0, 0],
    ),
    // The price of a trip that is not there.
    (
        &[],
        &[],
        &[("rec; 1; 2; 500", "rec; 1; 3; 500")],
        "no 9 CertForm\n",
        [10, 9, 0, 0, 0],
    ),
    // A mark of blocks, and one of duties, with a second of driving more than the list that it stands for.
    (
        &[],
        &[],
        &[("rec; 1; 1; 1; 4200; 500", "rec; 1; 1; 1; 4201; 500")],
        "no 12 Uncovered\n",
        [10, 12, 1, 0, 0],
    ),
    (
        &[],
        &[],
        &[("8400; 0; 8400; 0; -37500000", "8401; 0; 8400; 0; -37500000")],
        "no 12 Uncovered\n",
        [10, 12, 4, 0, 0],
    ),
];

/// The first row that is checked otherwise, where there is one.
fn first_other<R: Threads + Sync>(
    rt: &R,
    alloc: Global,
    rows: &[Row],
) -> Result<Option<usize>, Fail> {
    for place in 0..rows.len() {
        let (planning, plan, cert, line, ended) = rows[place];
        let check = Check {
            before: NO_CHANGE,
            planning,
            plan,
            cert,
            line,
            said: "",
            ended,
        };
        if !is_so_checked(rt, alloc, &check)? {
            return Ok(Some(place));
        }
    }
    Ok(None)
}

fn first_other_row<R: Threads + Sync>(rt: &R, alloc: Global) -> Result<Option<usize>, Fail> {
    first_other(rt, alloc, ROWS.as_slice())
}

/// What is made by fixed rounds is accepted, of this network and of every other one: said away from what is tried.
fn law() {
    written_texts_are_accepted();
}

#[test]
fn plans_and_certificates_are_checked(rt: HostRuntime) -> Result<(), Fail> {
    law();
    assert_eq!(rt; first_other_row(&rt, rt.alloc())?, None);
    Ok(())
}

/// One driver less than two duties.
const ONE_DRIVER: &[Change] = &[TOGETHER_ALONE, (GROUP, "rec; 1; 2; 9; 1; 500; 1; 600; 300")];

/// The second trip runs together with the first one.
const TOGETHER_ALONE: Change = (
    "rec; 1; 2; 33000; 1; 1; 1; 1; \"R\"; NULL",
    "rec; 1; 2; 28800; 1; 1; 1; 1; \"H\"; NULL",
);

/// Two blocks and two duties, of which both places are there, one vehicle less, or one driver less.
fn place_check(place: usize) -> Check {
    let (planning, line, ended): (&'static [Change], &'static str, [u64; 5]) = match place {
        0 => (TOGETHER, "yes\n", [0, 0, 0, 0, 0]),
        1 => (ONE_FOR_BOTH, "no 4 PoolOver\n", [10, 4, 1, 2, 1]),
        _ => (ONE_DRIVER, "no 7 GroupOver\n", [10, 7, 1, 2, 1]),
    };
    Check {
        before: TOGETHER,
        planning,
        plan: NO_CHANGE,
        cert: NO_CHANGE,
        line,
        said: "",
        ended,
    }
}

fn first_other_place<R: Threads + Sync>(rt: &R, alloc: Global) -> Result<Option<usize>, Fail> {
    for place in 0..3 {
        if !is_so_checked(rt, alloc, &place_check(place))? {
            return Ok(Some(place));
        }
    }
    Ok(None)
}

#[test]
fn pools_and_groups_are_not_exceeded(rt: HostRuntime) -> Result<(), Fail> {
    assert_eq!(rt; first_other_place(&rt, rt.alloc())?, None);
    Ok(())
}

/// Changes of the planning files, of the plan and of the certificate, the line on standard error, and the number of the status.
type Refusal = (
    &'static [Change],
    &'static [Change],
    &'static [Change],
    &'static str,
    u64,
);

/// Planning files are read first, then the plan, then the certificate; and all texts are judged before the first table.
const REFUSALS: [Refusal; 5] = [
    (
        &[],
        &[("tbl; X_SCHRANKE", "xyz; X_SCHRANKE")],
        &[("tbl; X_PREIS", "xyz; X_PREIS")],
        "file 2 line 44: Keyword\n",
        3,
    ),
    (
        &[],
        &[],
        &[("tbl; X_PREIS", "xyz; X_PREIS")],
        "file 3 line 9: Order\n",
        3,
    ),
    (
        &[("tbl; X_HOF", "tbl; X_HOFE")],
        &[],
        &[("tbl; X_PREIS", "xyz; X_PREIS")],
        "file 3 line 9: Order\n",
        3,
    ),
    (
        &[("tbl; X_HOF", "tbl; X_HOFE")],
        &[("tbl; X_SCHRANKE", "tbl; X_SCHRANKEN")],
        &[],
        "table X_HOF column  row 0: NoTable\n",
        3,
    ),
    (
        &[("rec; 20260101; 1", "rec; 20270101; 1")],
        &[("tbl; X_SCHRANKE", "tbl; X_SCHRANKEN")],
        &[],
        "day 20260302: NoVersion\n",
        4,
    ),
];

fn first_other_refusal<R: Threads + Sync>(
    rt: &R,
    alloc: Global,
    rows: &[Refusal],
) -> Result<Option<usize>, Fail> {
    for place in 0..rows.len() {
        let (planning, plan, cert, said, code) = rows[place];
        let check = Check {
            before: NO_CHANGE,
            planning,
            plan,
            cert,
            line: "",
            said,
            ended: [code, 0, 0, 0, 0],
        };
        if !is_so_checked(rt, alloc, &check)? {
            return Ok(Some(place));
        }
    }
    Ok(None)
}

fn first_other_of_refusals<R: Threads + Sync>(
    rt: &R,
    alloc: Global,
) -> Result<Option<usize>, Fail> {
    first_other_refusal(rt, alloc, REFUSALS.as_slice())
}

#[test]
fn what_is_checked_is_read_in_order(rt: HostRuntime) -> Result<(), Fail> {
    assert_eq!(rt; first_other_of_refusals(&rt, rt.alloc())?, None);
    Ok(())
}

/// The day of planning files.
fn ready_in(alloc: Global, planning: &Bytes) -> Result<Ready, Fail> {
    let Ok(tables) = read_file(alloc, planning.as_slice(), 100_000) else {
        return Err("no planning tables".into());
    };
    match ready_day(alloc, tables, 20260302) {
        Ok(ready) => Ok(ready),
        Err(_) => Err("no day".into()),
    }
}

/// What is answered of a text as an earlier plan of a day, as numbers: 0, and how many blocks and duties it has, or the reason against it.
fn numbers_of(alloc: Global, ready: &Ready, plan: &Bytes) -> Result<[u64; 4], Fail> {
    let Ok(tables) = read_file(alloc, plan.as_slice(), 100_000) else {
        return Err("no tables of a plan".into());
    };
    match check_old(alloc, &ready.model, tables.as_slice())? {
        OldPlan::Good(text) => Ok([
            0,
            text.blocks.columns.len() as u64,
            text.duties.len() as u64,
            0,
        ]),
        OldPlan::Bad(reason) => Ok(reason_numbers(&reason)),
    }
}

/// The same of the network with changes.
fn old_numbers(alloc: Global, changes: &[Change], plan: &Bytes) -> Result<[u64; 4], Fail> {
    let planning = demo(alloc, changes)?;
    let ready = ready_in(alloc, &planning)?;
    numbers_of(alloc, &ready, plan)
}

/// Changes of the planning files after the plan was made, changes of the plan, and what is answered.
type Old = (&'static [Change], &'static [Change], [u64; 4]);

const OLD: [Old; 7] = [
    (&[], &[], [0, 1, 1, 0]),
    // Without the bounds.
    (
        &[],
        &[("tbl; X_SCHRANKE", "tbl; X_SCHRANKEN")],
        [1, 0, 0, 0],
    ),
    // Without the second trip.
    (
        &[],
        &[("rec; 1; 2; 33000; 1; 1; 1; 1; \"R\"; 1\r\nend; 2", "end; 1")],
        [2, 2, 0, 0],
    ),
    // The second trip begins too soon.
    (TOO_SOON, &[], [3, 1, 0, 0]),
    // Without the second piece.
    (
        &[],
        &[(
            "rec; 1; 2; 1; 2; 1; 2; 33000; 2; 9; 37200; 4200\r\nend; 2",
            "end; 1",
        )],
        [5, 1, 2, 0],
    ),
    // The duty is too long, and a block costs another sum: neither is looked at.
    (
        &[(GROUP, "rec; 1; 2; 9; 2; 500; 1; 40000; 300")],
        &[],
        [0, 1, 1, 0],
    ),
    (&[], &[("rec; 1; 1; 2200", "rec; 1; 1; 2201")], [0, 1, 1, 0]),
];

fn is_old<R: Threads + Sync>(rt: &R, alloc: Global, row: Old) -> Result<bool, Fail> {
    let (planning, changes, found) = row;
    let plan = with(
        alloc,
        text_of_command(rt, alloc, "plan", NO_CHANGE)?,
        changes,
    )?;
    Ok(old_numbers(alloc, planning, &plan)? == found)
}

fn first_other_old<R: Threads + Sync>(
    rt: &R,
    alloc: Global,
    rows: &[Old],
) -> Result<Option<usize>, Fail> {
    for place in 0..rows.len() {
        if !is_old(rt, alloc, rows[place])? {
            return Ok(Some(place));
        }
    }
    Ok(None)
}

fn first_other_of_old<R: Threads + Sync>(rt: &R, alloc: Global) -> Result<Option<usize>, Fail> {
    first_other_old(rt, alloc, OLD.as_slice())
}

#[test]
fn earlier_plans_are_checked(rt: HostRuntime) -> Result<(), Fail> {
    assert_eq!(rt; first_other_of_old(&rt, rt.alloc())?, None);
    Ok(())
}

/// Whether a plan of two blocks and two duties stays one where these changes came after it was made.
fn stays<R: Threads + Sync>(rt: &R, alloc: Global, changes: &[Change]) -> Result<bool, Fail> {
    let plan = text_of_command(rt, alloc, "plan", TOGETHER)?;
    Ok(old_numbers(alloc, changes, &plan)? == [0, 2, 2, 0])
}

/// Whether a plan stays one where a vehicle or a driver is lost.
fn need_no_places<R: Threads + Sync>(rt: &R, alloc: Global) -> Result<bool, Fail> {
    Ok(
        stays(rt, alloc, TOGETHER)?
            && stays(rt, alloc, ONE_FOR_BOTH)?
            && stays(rt, alloc, ONE_DRIVER)?,
    )
}

#[test]
fn earlier_plans_need_no_places(rt: HostRuntime) -> Result<(), Fail> {
    assert!(rt; need_no_places(&rt, rt.alloc())?);
    Ok(())
}
