//! The command `week` over rosters in memory.

use planner_runs::{Ended, USAGE, WRITTEN_HEAD, end_of, has_written, is_so, joined, one_file};
use std::alloc::Global;
use std::test::Fail;
use std::thread::Threads;

const ROSTER_HEAD: &str =
    "tbl; X_EINSATZ\natr; FAHRER_NR; BETRIEBSTAG; BEGINN; ENDE; LENKZEIT; DREI\nfrm; num[19.0]; num[19.0]; num[19.0]; num[19.0]; num[19.0]; num[19.0]\n";

const VERDICT_HEAD: &str =
    "tbl; X_URTEIL\natr; FAHRER_NR; ARTIKEL; VON_TAG; BIS_TAG; WERT\nfrm; num[19.0]; num[19.0]; num[19.0]; num[19.0]; num[19.0]\n";

/// Three days with 34,000 s of driving.
const LONG_DRIVES: &str =
    "rec; 1; 20260302; 20000; 60000; 34000; 0\nrec; 1; 20260303; 20000; 60000; 34000; 0\nrec; 1; 20260304; 20000; 60000; 34000; 0\nend; 3\neof; 1\n";

/// Five days with ten hours of rest between them.
const SHORT_RESTS: &str =
    "rec; 1; 20260302; 20000; 70000; 20000; 0\nrec; 1; 20260303; 20000; 70000; 20000; 0\nrec; 1; 20260304; 20000; 70000; 20000; 0\nrec; 1; 20260305; 20000; 70000; 20000; 0\nrec; 1; 20260306; 20000; 70000; 20000; 0\nend; 5\neof; 1\n";

/// The same, where each duty has a pause of three hours.
const SPLIT_RESTS: &str =
    "rec; 1; 20260302; 20000; 70000; 20000; 1\nrec; 1; 20260303; 20000; 70000; 20000; 1\nrec; 1; 20260304; 20000; 70000; 20000; 1\nrec; 1; 20260305; 20000; 70000; 20000; 1\nrec; 1; 20260306; 20000; 70000; 20000; 1\nend; 5\neof; 1\n";

/// A duty of fifteen hours and a second.
const LONG_DUTY: &str = "rec; 1; 20260302; 0; 54001; 100; 0\nend; 1\neof; 1\n";

/// A duty that ends more than a day later.
const LONGER_THAN_A_DAY: &str = "rec; 1; 20260302; 0; 90000; 100; 0\nend; 1\neof; 1\n";

const TWO_WEEKS: &str =
    "rec; 1; 20260302; 0; 100; 100; 0\nrec; 1; 20260316; 0; 100; 100; 0\nend; 2\neof; 1\n";

const ONE_DAY_TWICE: &str =
    "rec; 1; 20260302; 0; 100; 100; 0\nrec; 1; 20260302; 0; 100; 100; 0\nend; 2\neof; 1\n";

const NO_ROWS: &str = "end; 0\neof; 1\n";

/// How the words end over a roster with these rows.
fn end_over<R: Threads + Sync>(
    rt: &R,
    alloc: Global,
    words: &[&str],
    rows: &str,
) -> Result<Ended, Fail> {
    let text = joined(alloc, &[WRITTEN_HEAD, ROSTER_HEAD, rows], b"\n")?;
    end_of(rt, alloc, words, one_file(alloc, text, &[])?)
}

/// Whether the words write these rows of X_URTEIL.
fn is_written<R: Threads + Sync>(
    rt: &R,
    alloc: Global,
    words: &[&str],
    rows: &str,
    written: &str,
) -> Result<bool, Fail> {
    let end = end_over(rt, alloc, words, rows)?;
    has_written(alloc, &end, &[WRITTEN_HEAD, VERDICT_HEAD, written])
}

const WEEK: &[&str] = &["week", "f"];

/// The rows of a roster, and the rows of X_URTEIL.
type Row = (&'static str, &'static str);

const ROWS: [Row; 6] = [
    (
        LONG_DRIVES,
        "rec; 1; 61; 20260304; 20260304; 34000\nend; 1\neof; 1\n",
    ),
    (
        SHORT_RESTS,
        "rec; 1; 84; 20260305; 20260306; 4\nend; 1\neof; 1\n",
    ),
    (SPLIT_RESTS, "end; 0\neof; 1\n"),
    (
        LONG_DUTY,
        "rec; 1; 82; 20260302; 20260302; 32399\nend; 1\neof; 1\n",
    ),
    (
        LONGER_THAN_A_DAY,
        "rec; 1; 82; 20260302; 20260302; -3600\nend; 1\neof; 1\n",
    ),
    (NO_ROWS, "end; 0\neof; 1\n"),
];

fn is_denied<R: Threads + Sync>(rt: &R, alloc: Global, row: Row) -> Result<bool, Fail> {
    let (rows, written) = row;
    Ok(
        is_written(rt, alloc, WEEK, rows, written)?
            && is_written(rt, alloc, &["week", "--", "f"], rows, written)?,
    )
}

fn first_other<R: Threads + Sync>(
    rt: &R,
    alloc: Global,
    rows: &[Row],
) -> Result<Option<usize>, Fail> {
    for place in 0..rows.len() {
        if !is_denied(rt, alloc, rows[place])? {
            return Ok(Some(place));
        }
    }
    Ok(None)
}

fn first_other_row<R: Threads + Sync>(rt: &R, alloc: Global) -> Result<Option<usize>, Fail> {
    first_other(rt, alloc, ROWS.as_slice())
}

#[test]
fn what_is_denied_is_written(rt: HostRuntime) -> Result<(), Fail> {
    assert_eq!(rt; first_other_row(&rt, rt.alloc())?, None);
    Ok(())
}

/// Words, the rows of a roster, the number of the status that they end with, and the line.
type Refusal = (&'static [&'static str], &'static str, u8, &'static str);

const REFUSALS: [Refusal; 9] = [
    (WEEK, TWO_WEEKS, 3, "days: 20260302 to 20260316\n"),
    (
        WEEK,
        ONE_DAY_TWICE,
        3,
        "table X_EINSATZ column  row 2: KeyTwice\n",
    ),
    (WEEK, "end; 1\neof; 1\n", 3, "file 1 line 11: EndCount\n"),
    (&["week", "g"], NO_ROWS, 7, "read fault: file 1\n"),
    (&["week"], NO_ROWS, 2, USAGE),
    (&["week", ""], NO_ROWS, 2, USAGE),
    (&["week", "f", "f"], NO_ROWS, 2, USAGE),
    (&["week", "--rounds", "5", "f"], NO_ROWS, 2, USAGE),
    (&["week", "--trips=5", "f"], NO_ROWS, 2, USAGE),
];

fn is_refused<R: Threads + Sync>(rt: &R, alloc: Global, row: Refusal) -> Result<bool, Fail> {
    let (words, rows, code, line) = row;
    let end = end_over(rt, alloc, words, rows)?;
    Ok(is_so(&end, code, b"", line))
}

fn first_other_refusal<R: Threads + Sync>(
    rt: &R,
    alloc: Global,
    rows: &[Refusal],
) -> Result<Option<usize>, Fail> {
    for place in 0..rows.len() {
        if !is_refused(rt, alloc, rows[place])? {
            return Ok(Some(place));
        }
    }
    Ok(None)
}

fn first_other_of_refusals<R: Threads + Sync>(
    rt: &R,
    alloc: Global,
) -> Result<Option<usize>, Fail> {
    first_other_refusal(rt, alloc, REFUSALS.as_slice())
}

#[test]
fn rosters_are_refused(rt: HostRuntime) -> Result<(), Fail> {
    assert_eq!(rt; first_other_of_refusals(&rt, rt.alloc())?, None);
    Ok(())
}
