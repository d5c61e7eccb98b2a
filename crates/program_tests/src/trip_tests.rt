//! The words, the files and the command `trips`, over files and sinks in memory.

use plan_core::{MemFiles, NoGate};
use planner_runs::{
    TRIPS_WRITTEN, USAGE, WRITTEN_HEAD, end_into, end_of, has_written, is_so, joined, one_file,
    sink, three_files,
};
use std::alloc::Global;
use std::test::Fail;
use std::thread::Threads;

pub(crate) const CALENDAR: &str =
    "mod; DD.MM.YYYY; HH:MM:SS; free\nsrc; \"demo\"; \"01.01.2000\"; \"00:00:00\"\nchs; \"ISO8859-1\"\nver; \"1.4\"\nifv; \"1.4\"\ndve; \"1.4\"\nfft; \"\"\ntbl; BASIS_VER_GUELTIGKEIT\natr; VER_GUELTIGKEIT; BASIS_VERSION\nfrm; num[10.0]; num[10.0]\nrec; 20260101; 1\nend; 1\ntbl; FIRMENKALENDER\natr; BASIS_VERSION; BETRIEBSTAG; TAGESART_NR\nfrm; num[10.0]; num[10.0]; num[10.0]\nrec; 1; 20260302; 1\nend; 1\n";

pub(crate) const TRIPS_HEAD: &str =
    "tbl; REC_FRT\natr; BASIS_VERSION; FRT_FID; FRT_START; LI_NR; TAGESART_NR; FAHRTART_NR; FGR_NR; STR_LI_VAR; UM_UID\nfrm; num[10.0]; num[10.0]; num[10.0]; num[10.0]; num[10.0]; num[10.0]; num[10.0]; char[6]; num[10.0]\n";

pub(crate) const FIRST: &str = "rec; 1; 1; 28800; 1; 1; 1; 1; \"H\"; NULL\n";

const FIRST_EMPTY: &str = "rec; 1; 1; 28800; 1; 1; 2; 1; \"H\"; NULL\n";

pub(crate) const SECOND: &str = "rec; 1; 2; 33000; 1; 1; 1; 1; \"R\"; NULL\n";

const SECOND_LATE: &str = "rec; 1; 2; 172801; 1; 1; 1; 1; \"R\"; NULL\n";

const SECOND_TIMELESS: &str = "rec; 1; 2; ; 1; 1; 1; 1; \"R\"; NULL\n";

/// The rows of two files, the first and the second table of the calendar.
const VERSIONS_FILE: &str =
    "tbl; BASIS_VER_GUELTIGKEIT\natr; VER_GUELTIGKEIT; BASIS_VERSION\nfrm; num[10.0]; num[10.0]\nrec;   20260101 ;\t1\nend; 1\neof; 1\n";

const DAYS_FILE: &str =
    "tbl; FIRMENKALENDER\natr; BASIS_VERSION; BETRIEBSTAG; TAGESART_NR\nfrm; num[10.0]; num[10.0]; num[10.0]\nrec; 1; 20260302; 1\nend; 1\neof; 1\n";

const FIRST_BLANK: &str = "rec; 1; 1; 28800; 1; 1; 1; 1; \"H\"; \n";

const SECOND_BLANK: &str = "rec;1;2 ; 33000;1;1;1;1;\"R\";\n";

pub(crate) const DAY: [&str; 3] = ["trips", "20260302", "f"];

pub(crate) const BOTH: [&str; 5] = [CALENDAR, TRIPS_HEAD, FIRST, SECOND, "end; 2\neof; 3\n"];

pub(crate) const BOTH_WRITTEN: [&str; 2] = [WRITTEN_HEAD, TRIPS_WRITTEN];

/// Whether a file of these texts is answered by these ones, written with CR LF, and nothing is said on standard error.
fn is_listed<R: Threads + Sync>(
    rt: &R,
    alloc: Global,
    texts: &[&str],
    line_end: &[u8],
    written: &[&str],
) -> Result<bool, Fail> {
    let files = one_file(alloc, joined(alloc, texts, line_end)?, &[])?;
    let end = end_of(rt, alloc, &DAY, files)?;
    has_written(alloc, &end, written)
}

fn are_listed<R: Threads + Sync>(rt: &R, alloc: Global) -> Result<bool, Fail> {
    let one = [
        CALENDAR,
        TRIPS_HEAD,
        FIRST_EMPTY,
        SECOND,
        "end; 2\neof; 3\n",
    ];
    let one_written = [WRITTEN_HEAD, TRIPS_HEAD, SECOND, "end; 1\neof; 1\n"];
    Ok(
        is_listed(rt, alloc, &BOTH, b"\n", &BOTH_WRITTEN)?
            && is_listed(rt, alloc, &one, b"\n", &one_written)?
            && is_listed(rt, alloc, &BOTH, b"\r\n", &BOTH_WRITTEN)?,
    )
}

#[test]
fn the_rows_of_a_day_are_listed(rt: HostRuntime) -> Result<(), Fail> {
    assert!(rt; are_listed(&rt, rt.alloc())?);
    Ok(())
}

/// Three files of the tables of a day.
fn files_of_a_day(alloc: Global) -> Result<MemFiles, Fail> {
    let trips = [TRIPS_HEAD, FIRST_BLANK, SECOND_BLANK, "end; 2\neof; 1\n"];
    three_files(
        alloc,
        ["versions", "days", "trips"],
        joined(alloc, &[VERSIONS_FILE], b"\n")?,
        joined(alloc, &[DAYS_FILE], b"\r\n")?,
        joined(alloc, &trips, b"\n")?,
    )
}

fn are_read_from_three<R: Threads + Sync>(rt: &R, alloc: Global) -> Result<bool, Fail> {
    let words = ["trips", "20260302", "versions", "--", "days", "trips"];
    let end = end_of(rt, alloc, &words, files_of_a_day(alloc)?)?;
    has_written(alloc, &end, &BOTH_WRITTEN)
}

/// Whether a table that stands in two files is refused.
fn is_refused_twice<R: Threads + Sync>(rt: &R, alloc: Global) -> Result<bool, Fail> {
    let words = ["trips", "20260302", "versions", "days", "trips", "trips"];
    let end = end_of(rt, alloc, &words, files_of_a_day(alloc)?)?;
    Ok(is_so(&end, 3, b"", "table REC_FRT column  row 0: TableTwice\n"))
}

fn lie_in_several<R: Threads + Sync>(rt: &R, alloc: Global) -> Result<bool, Fail> {
    Ok(are_read_from_three(rt, alloc)? && is_refused_twice(rt, alloc)?)
}

#[test]
fn tables_may_lie_in_several_files(rt: HostRuntime) -> Result<(), Fail> {
    assert!(rt; lie_in_several(&rt, rt.alloc())?);
    Ok(())
}

/// Words, the number of the status that they end with, and the line.
type Row = (&'static [&'static str], u8, &'static str);

/// Whether a file of these texts is refused with this status number and this line, which is taken in pieces of 7 bytes, and nothing is
/// written.
fn is_refused<R: Threads + Sync>(
    rt: &R,
    alloc: Global,
    words: &[&str],
    texts: &[&str],
    code: u8,
    line: &str,
) -> Result<bool, Fail> {
    let files = one_file(alloc, joined(alloc, texts, b"\n")?, &[])?;
    let sinks = (sink(alloc, 10_000, &[])?, sink(alloc, 7, &[])?);
    let end = end_into(rt, alloc, words, files, &NoGate, sinks)?;
    Ok(is_so(&end, code, b"", line))
}

/// The first of some rows that ends otherwise over a file of these texts, where there is one.
fn first_other<R: Threads + Sync>(
    rt: &R,
    alloc: Global,
    texts: &[&str],
    rows: &[Row],
) -> Result<Option<usize>, Fail> {
    for place in 0..rows.len() {
        let (words, code, line) = rows[place];
        if !is_refused(rt, alloc, words, texts, code, line)? {
            return Ok(Some(place));
        }
    }
    Ok(None)
}

const WORDS: [Row; 25] = [
    (&["trips", "20260302"], 2, USAGE),
    (&["trips", "2026030a", "f"], 2, USAGE),
    (&["trips", "20260302", "-f"], 2, USAGE),
    (&["trips", "20260302", "--rounds", "5", "f"], 2, USAGE),
    (&["trips", "20260302", ""], 2, USAGE),
    (&["plan", "--rounds", "201", "20260302", "f"], 2, USAGE),
    (
        &["plan", "--lower=5", "20260302", "f", "--lower=5"],
        2,
        USAGE,
    ),
    (&["plan", "20260302", "f", "--rounds", "--"], 2, USAGE),
    (&["plan", "20260302", "f", "--workers="], 2, USAGE),
    (&["plan", "20260302", "f", "--flow=1"], 2, USAGE),
    (&["trips", "20260302", "--climb", "f"], 2, USAGE),
    (&["plan", "--climb=1", "20260302", "f"], 2, USAGE),
    (&["plan", "--climb", "20260302", "f", "--climb"], 2, USAGE),
    (
        &["plan", "--climb", "20260302", "--rounds", "5", "g"],
        7,
        "read fault: file 1\n",
    ),
    (
        &["plan", "--lower", "5", "20260302", "g", "--climb"],
        7,
        "read fault: file 1\n",
    ),
    (
        &["plan", "--workers", "064", "20260302", "--exchange=0", "g"],
        7,
        "read fault: file 1\n",
    ),
    (&["trips", "20260302", "--"], 2, USAGE),
    (&["--", "trips", "20260302", "f"], 2, USAGE),
    (&[], 2, USAGE),
    (&["trips", "20260302", "-"], 7, "read fault: file 1\n"),
    (
        &["trips", "20260302", "f", "--", "-f"],
        7,
        "read fault: file 2\n",
    ),
    (
        &["trips", "20260302", "--", "--"],
        7,
        "read fault: file 1\n",
    ),
    (&["trips", "20260301", "f"], 4, "day 20260301: NoDay\n"),
    (
        &["trips", "--", "00251231", "f"],
        4,
        "day 00251231: NoVersion\n",
    ),
    (
        &["trips", "20260230", "--", "f"],
        4,
        "day 20260230: NoDate\n",
    ),
];

fn first_other_words<R: Threads + Sync>(rt: &R, alloc: Global) -> Result<Option<usize>, Fail> {
    first_other(rt, alloc, &BOTH, WORDS.as_slice())
}

#[test]
fn the_words_have_a_grammar(rt: HostRuntime) -> Result<(), Fail> {
    assert_eq!(rt; first_other_words(&rt, rt.alloc())?, None);
    Ok(())
}

/// Whether so many files are refused with this number and line.
fn are_refused<R: Threads + Sync>(
    rt: &R,
    alloc: Global,
    files: usize,
    code: u8,
    line: &str,
) -> Result<bool, Fail> {
    let mut words = vec![in alloc; "trips", "20260302"]?;
    words.resize(files.saturating_add(2), "f")?;
    is_refused(rt, alloc, words.as_slice(), &BOTH, code, line)
}

/// Files are at most 64: of so many the tables are looked at.
fn are_few<R: Threads + Sync>(rt: &R, alloc: Global) -> Result<bool, Fail> {
    let twice = "table BASIS_VER_GUELTIGKEIT column  row 0: TableTwice\n";
    Ok(are_refused(rt, alloc, 64, 3, twice)? && are_refused(rt, alloc, 65, 2, USAGE)?)
}

#[test]
fn files_are_few(rt: HostRuntime) -> Result<(), Fail> {
    assert!(rt; are_few(&rt, rt.alloc())?);
    Ok(())
}

/// Whether the day of these texts is refused with this line.
fn has_fault<R: Threads + Sync>(
    rt: &R,
    alloc: Global,
    texts: &[&str],
    line: &str,
) -> Result<bool, Fail> {
    is_refused(rt, alloc, &DAY, texts, 3, line)
}

/// The faults of a table that is missing, a field without a value, one out of its range, and a count of rows that is none.
fn are_named<R: Threads + Sync>(rt: &R, alloc: Global) -> Result<bool, Fail> {
    let missing = [CALENDAR, "eof; 2\n"];
    let timeless = [
        CALENDAR,
        TRIPS_HEAD,
        FIRST,
        SECOND_TIMELESS,
        "end; 2\neof; 3\n",
    ];
    let late = [CALENDAR, TRIPS_HEAD, FIRST, SECOND_LATE, "end; 2\neof; 3\n"];
    let wrong_end = [CALENDAR, TRIPS_HEAD, FIRST, SECOND, "end; 3\neof; 3\n"];
    Ok(
        has_fault(
            rt,
            alloc,
            &missing,
            "table REC_FRT column  row 0: NoTable\n",
        )? && has_fault(
            rt,
            alloc,
            &timeless,
            "table REC_FRT column FRT_START row 2: NoValue\n",
        )? && has_fault(
            rt,
            alloc,
            &late,
            "table REC_FRT column FRT_START row 2: Range\n",
        )? && has_fault(rt, alloc, &wrong_end, "file 1 line 23: EndCount\n")?,
    )
}

#[test]
fn faults_of_the_input_are_named(rt: HostRuntime) -> Result<(), Fail> {
    assert!(rt; are_named(&rt, rt.alloc())?);
    Ok(())
}

/// A file that is wrong before one that is missing, and behind one.
const MISSING: [Row; 2] = [
    (
        &["trips", "20260302", "f", "missing"],
        3,
        "file 1 line 18: EofCount\n",
    ),
    (
        &["trips", "20260302", "missing", "f"],
        7,
        "read fault: file 1\n",
    ),
];

fn first_other_file<R: Threads + Sync>(rt: &R, alloc: Global) -> Result<Option<usize>, Fail> {
    first_other(rt, alloc, &[CALENDAR, "eof; 3\n"], MISSING.as_slice())
}

#[test]
fn the_first_wrong_file_is_named(rt: HostRuntime) -> Result<(), Fail> {
    assert_eq!(rt; first_other_file(&rt, rt.alloc())?, None);
    Ok(())
}
