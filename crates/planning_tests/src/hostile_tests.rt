//! Hostile use of the commands that read planning files: too many trips or bytes, bytes that are no text, reads and writes that fail.

use plan_core::{Bytes, NoGate};
use planner_run::{InputFault, Status};
use planner_runs::{
    Ended, NO_CHANGE, TRIPS_WRITTEN, UNENDED, WRITTEN_HEAD, demo, end_into, end_of, is_so, joined,
    one_file, plan_written, replaced, sink,
};
use std::alloc::Global;
use std::test::Fail;
use std::thread::Threads;
use vdv451_text::TextKind;

/// The rows of both trips, and how many they are.
const BOTH_ROWS: &str =
    "rec; 1; 1; 28800; 1; 1; 1; 1; \"H\"; NULL\nrec; 1; 2; 33000; 1; 1; 1; 1; \"R\"; NULL\nend; 2\n";

/// The digits of a number below 10,000.
fn digits(number: u32) -> [u8; 4] {
    let place = |unit: u32| b'0' + (number / unit % 10) as u8;
    [place(1_000), place(100), place(10), place(1)]
}

/// The network with 3,001 copies of its first trip, numbered from 1, in place of its two trips.
fn many_trips(alloc: Global) -> Result<Bytes, Fail> {
    let mut rows = Vec::new(alloc);
    for number in 1..3_002u32 {
        rows.extend_from_slice(b"rec; 1; ")?;
        rows.extend_from_slice(&digits(number))?;
        rows.extend_from_slice(b"; 28800; 1; 1; 1; 1; \"H\"; NULL\n")?;
    }
    rows.extend_from_slice(b"end; 3001\n")?;
    let text = demo(alloc, NO_CHANGE)?;
    replaced(alloc, text, BOTH_ROWS.as_bytes(), rows.as_slice())
}

/// Whether a command refuses these bytes with this line and writes nothing.
fn is_refused<R: Threads + Sync>(
    rt: &R,
    alloc: Global,
    command: &str,
    bytes: Bytes,
    line: &str,
) -> Result<bool, Fail> {
    let files = one_file(alloc, bytes, &[])?;
    let end = end_of(rt, alloc, &[command, "20260302", "f"], files)?;
    Ok(is_so(&end, 3, b"", line))
}

fn are_too_many<R: Threads + Sync>(rt: &R, alloc: Global) -> Result<bool, Fail> {
    let line = "trips: 3001\n";
    Ok(
        is_refused(rt, alloc, "trips", many_trips(alloc)?, line)?
            && is_refused(rt, alloc, "plan", many_trips(alloc)?, line)?,
    )
}

#[test]
fn a_day_has_at_most_3000_trips(rt: HostRuntime) -> Result<(), Fail> {
    assert!(rt; are_too_many(&rt, rt.alloc())?);
    Ok(())
}

/// So many blanks.
fn blanks(alloc: Global, count: usize) -> Result<Bytes, Fail> {
    Ok(Bytes::from_vec(vec![in alloc; b' '; count]?))
}

/// Whether one byte too many is refused, and one less is read.
fn is_too_large<R: Threads + Sync>(rt: &R, alloc: Global) -> Result<bool, Fail> {
    let large = "file 1 line 0: TooLarge\n";
    let unended = "file 1 line 2: Unended\n";
    Ok(
        is_refused(rt, alloc, "plan", blanks(alloc, 67_108_865)?, large)?
            && is_refused(rt, alloc, "plan", blanks(alloc, 67_108_864)?, unended)?,
    )
}

#[test]
fn files_have_at_most_67108864_bytes(rt: HostRuntime) -> Result<(), Fail> {
    assert!(rt; is_too_large(&rt, rt.alloc())?);
    Ok(())
}

/// Whether a command refuses the first bytes of a packed file.
fn is_packed_refused<R: Threads + Sync>(
    rt: &R,
    alloc: Global,
    command: &str,
) -> Result<bool, Fail> {
    let bytes = Bytes::from_vec(b"\x1f\x8b\x08".as_slice().to_vec(alloc)?);
    is_refused(rt, alloc, command, bytes, "file 1 line 1: Keyword\n")
}

fn are_packed_refused<R: Threads + Sync>(rt: &R, alloc: Global) -> Result<bool, Fail> {
    Ok(is_packed_refused(rt, alloc, "trips")? && is_packed_refused(rt, alloc, "plan")?)
}

#[test]
fn bytes_that_are_no_text_are_refused(rt: HostRuntime) -> Result<(), Fail> {
    assert!(rt; are_packed_refused(&rt, rt.alloc())?);
    Ok(())
}

/// How a command ends over the network, of which the read of this number fails.
fn end_at<R: Threads + Sync>(
    rt: &R,
    alloc: Global,
    command: &str,
    call: u64,
) -> Result<Ended, Fail> {
    let files = one_file(alloc, demo(alloc, NO_CHANGE)?, &[call])?;
    end_of(rt, alloc, &[command, "20260302", "f"], files)
}

/// Whether a read that fails is answered, and nothing is written.
fn is_answered<R: Threads + Sync>(
    rt: &R,
    alloc: Global,
    command: &str,
    call: u64,
) -> Result<bool, Fail> {
    let end = end_at(rt, alloc, command, call)?;
    Ok(is_so(&end, 7, b"", "read fault: file 1\n"))
}

/// Whether a command ends well and writes, of which a third read would fail.
fn reads_twice<R: Threads + Sync>(rt: &R, alloc: Global, command: &str) -> Result<bool, Fail> {
    let end = end_at(rt, alloc, command, 3)?;
    let is_written = !end.out.taken().is_empty();
    Ok(end.status.code() == 0 && (is_written && end.err.taken().is_empty()))
}

fn are_reads_answered<R: Threads + Sync>(
    rt: &R,
    alloc: Global,
    command: &str,
) -> Result<bool, Fail> {
    Ok(
        is_answered(rt, alloc, command, 1)?
            && is_answered(rt, alloc, command, 2)?
            && reads_twice(rt, alloc, command)?,
    )
}

fn are_answered<R: Threads + Sync>(rt: &R, alloc: Global) -> Result<bool, Fail> {
    Ok(are_reads_answered(rt, alloc, "trips")? && are_reads_answered(rt, alloc, "plan")?)
}

/// A file is read twice: its bytes, and its end.
#[test]
fn reads_that_fail_are_answered(rt: HostRuntime) -> Result<(), Fail> {
    assert!(rt; are_answered(&rt, rt.alloc())?);
    Ok(())
}

/// Whether bytes are so many pieces of 100 bytes, the initial part of a whole text.
fn is_front(whole: &[u8], taken: &[u8], pieces: u64) -> bool {
    taken.len() % 100 == 0 && taken.len() as u64 / 100 == pieces && whole.starts_with(taken)
}

/// How a command ends over the network, whose writes take 100 bytes each, and the one of this number fails.
fn end_in_writes<R: Threads + Sync>(
    rt: &R,
    alloc: Global,
    command: &str,
    call: u64,
) -> Result<Ended, Fail> {
    let files = one_file(alloc, demo(alloc, NO_CHANGE)?, &[])?;
    let sinks = (sink(alloc, 100, &[call])?, sink(alloc, 10_000, &[])?);
    end_into(
        rt,
        alloc,
        &[command, "20260302", "f"],
        files,
        &NoGate,
        sinks,
    )
}

/// Whether a command whose write of this number fails leaves the initial part of the whole text that was taken before.
fn leaves_front<R: Threads + Sync>(
    rt: &R,
    alloc: Global,
    command: &str,
    whole: &[u8],
    call: u64,
) -> Result<bool, Fail> {
    let end = end_in_writes(rt, alloc, command, call)?;
    let is_taken = is_front(whole, end.out.taken(), call.saturating_sub(1));
    Ok(end.status.code() == 8 && (is_taken && end.err.taken() == b"write fault\n".as_slice()))
}

/// Whether that is so for each write of a whole text.
fn leaves_each_front<R: Threads + Sync>(
    rt: &R,
    alloc: Global,
    command: &str,
    whole: &[u8],
) -> Result<bool, Fail> {
    let calls = whole.len().div_ceil(100) as u64;
    for call in 1..calls + 1 {
        if !leaves_front(rt, alloc, command, whole, call)? {
            return Ok(false);
        }
    }
    Ok(true)
}

fn trips_leave_fronts<R: Threads + Sync>(rt: &R, alloc: Global) -> Result<bool, Fail> {
    let whole = joined(alloc, &[WRITTEN_HEAD, TRIPS_WRITTEN], b"\r\n")?;
    leaves_each_front(rt, alloc, "trips", whole.as_slice())
}

fn plans_leave_fronts<R: Threads + Sync>(rt: &R, alloc: Global) -> Result<bool, Fail> {
    let whole = plan_written(alloc)?;
    leaves_each_front(rt, alloc, "plan", whole.as_slice())
}

fn leave_fronts<R: Threads + Sync>(rt: &R, alloc: Global) -> Result<bool, Fail> {
    Ok(trips_leave_fronts(rt, alloc)? && plans_leave_fronts(rt, alloc)?)
}

#[test]
fn a_write_that_fails_leaves_a_front(rt: HostRuntime) -> Result<(), Fail> {
    assert!(rt; leave_fronts(&rt, rt.alloc())?);
    Ok(())
}

/// Whether a text that lacks its last line is told.
fn is_unended(status: &Status) -> bool {
    match status {
        Status::Input(InputFault::Text { file, fault }) => {
            *file == 1 && (fault.line == 96 && fault.kind == TextKind::Unended)
        }
        _ => false,
    }
}

/// How a command ends over a text that lacks its last line, whose line cannot be written.
fn end_untold<R: Threads + Sync>(rt: &R, alloc: Global, command: &str) -> Result<Ended, Fail> {
    let files = one_file(alloc, demo(alloc, UNENDED)?, &[])?;
    let sinks = (sink(alloc, 10_000, &[])?, sink(alloc, 10_000, &[1])?);
    end_into(
        rt,
        alloc,
        &[command, "20260302", "f"],
        files,
        &NoGate,
        sinks,
    )
}

fn keeps_status<R: Threads + Sync>(rt: &R, alloc: Global, command: &str) -> Result<bool, Fail> {
    let end = end_untold(rt, alloc, command)?;
    Ok(end.err.taken().is_empty() && is_unended(&end.status))
}

fn keep_status<R: Threads + Sync>(rt: &R, alloc: Global) -> Result<bool, Fail> {
    Ok(keeps_status(rt, alloc, "trips")? && keeps_status(rt, alloc, "plan")?)
}

#[test]
fn a_line_that_fails_changes_no_status(rt: HostRuntime) -> Result<(), Fail> {
    assert!(rt; keep_status(&rt, rt.alloc())?);
    Ok(())
}
