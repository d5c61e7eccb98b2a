//! What the outside is asked for: reads, writes, the words of the program, and the code with which it ends.

ghost use Rattle.std.specs.Prelude.{◌≤◌, None, IfOk, length};

use crate::trip_tests::{BOTH, BOTH_WRITTEN, CALENDAR, DAY, FIRST, SECOND, TRIPS_HEAD};
use input_files::{ReadRefusal, read_whole};
use plan_core::{Bytes, Failed, Files, MemSink, NoGate, Sink};
use planner_run::run_program;
use planner_runs::{USAGE, joined, listed, ran, sink};
use std::alloc::Global;
use std::env::{Env, FillError};
use std::fs;
use std::process::ExitCode;
use std::rt::Files as Disk;
use std::test::Fail;
use std::thread::Threads;
use system_files::{DiskFiles, copy_front, words_of};

/// The bytes from a place on.
fn rest_of(bytes: &[u8], at: u64) -> &[u8] {
    if at >= bytes.len() as u64 {
        return &[];
    }
    &bytes[at as usize..]
}

/// Files that hold the same text under each name, give at most so many bytes with a read, and note each place and size that they are
/// asked for.
#[derive(Drop)]
struct NotedFiles {
    bytes: Bytes,
    most: usize,
    places: Vec<usize>,
    sizes: Vec<usize>,
}

impl NotedFiles {
    fn new(alloc: Global, bytes: Bytes, most: usize) -> NotedFiles {
        NotedFiles {
            bytes,
            most,
            places: Vec::new(alloc),
            sizes: Vec::new(alloc),
        }
    }
}

impl Files for NotedFiles {
    ghost held = { λ _ _. None };

    ghost faults = { λ _ _. 0 };

    fn read(&mut self, _name: &[u8], at: u64, buf: &mut [u8]) -> Result<usize, Failed> {
        let _ = self.places.push(at as usize);
        let _ = self.sizes.push(buf.len());
        let rest = rest_of(self.bytes.as_slice(), at);
        let count = rest.len().min(self.most).min(buf.len());
        copy_front(rest, count, buf);
        Ok(count)
    }
}

/// A sink that takes at most so many bytes with a write, and notes how many it is handed.
#[derive(Drop)]
struct NotedSink {
    most: usize,
    sizes: Vec<usize>,
}

impl Sink for NotedSink {
    ghost taken = { λ _. None };

    ghost faults = { λ _. 0 };

    fn write(&mut self, piece: &[u8]) -> Result<usize, Failed> {
        let _ = self.sizes.push(piece.len());
        Ok(piece.len().min(self.most.max(1)))
    }
}

/// A file of more than two pieces of 65,536 bytes.
fn long_text(alloc: Global) -> Result<Bytes, Fail> {
    let mut text = joined(alloc, &[CALENDAR], b"\n")?.into_vec();
    for _ in 0..3_000 {
        text.extend_from_slice(b"com; a remark that says nothing at all of the day\n")?;
    }
    let rest = joined(
        alloc,
        &[TRIPS_HEAD, FIRST, SECOND, "end; 2\neof; 3\n"],
        b"\n",
    )?;
    text.extend_from_slice(rest.as_slice())?;
    Ok(Bytes::from_vec(text))
}

/// The places at which a file of so many bytes is read, so many with each read.
fn places_of(alloc: Global, bytes: usize, step: usize) -> Result<Vec<usize>, Fail> {
    let step = step.max(1);
    let mut places = Vec::new(alloc);
    for read in 0..bytes.div_ceil(step) {
        places.push(read.saturating_mul(step))?;
    }
    places.push(bytes)?;
    Ok(places)
}

/// The number of the status with which the words of a day end, over files and a sink.
fn code_over<R: Threads + Sync, F: Files, O: Sink>(
    rt: &R,
    alloc: Global,
    words: &[&str],
    files: &mut F,
    out: &mut O,
) -> Result<u8, Fail> {
    let list = listed(alloc, words)?;
    let mut err = sink(alloc, 10_000, &[])?;
    Ok(ran(rt, alloc, list.as_slice(), files, out, &mut err, &NoGate).code())
}

/// Whether files were read at the places of so many bytes, so many with each read, and each time for 65,536 bytes.
fn are_read(alloc: Global, files: &NotedFiles, bytes: usize, step: usize) -> Result<bool, Fail> {
    let places = places_of(alloc, bytes, step)?;
    Ok(files.places == places && files.sizes.iter().all(|size| *size == 65_536))
}

/// Whether a file of more than two pieces that gives at most so many bytes with a read is read so many at a time.
fn is_read_by<R: Threads + Sync>(
    rt: &R,
    alloc: Global,
    most: usize,
    step: usize,
) -> Result<bool, Fail> {
    let mut files = NotedFiles::new(alloc, long_text(alloc)?, most);
    let bytes = files.bytes.len();
    let mut out = sink(alloc, 10_000, &[])?;
    let code = code_over(rt, alloc, &DAY, &mut files, &mut out)?;
    Ok(code == 0 && (bytes > 2 * 65_536 && are_read(alloc, &files, bytes, step)?))
}

fn is_read_in_pieces<R: Threads + Sync>(rt: &R, alloc: Global) -> Result<bool, Fail> {
    Ok(
        is_read_by(rt, alloc, 1_000_000, 65_536)?
            && is_read_by(rt, alloc, 65_536, 65_536)?
            && is_read_by(rt, alloc, 65_535, 65_535)?
            && is_read_by(rt, alloc, 10_000, 10_000)?,
    )
}

#[test]
fn a_file_is_read_in_pieces_without_gap_to_its_end(rt: HostRuntime) -> Result<(), Fail> {
    assert!(rt; is_read_in_pieces(&rt, rt.alloc())?);
    Ok(())
}

/// Whether these are the sizes of writes of which each takes so many bytes of a whole.
fn are_handed(sizes: &[usize], whole: usize, most: usize) -> bool {
    let mut left = whole;
    for size in sizes {
        if *size != left {
            return false;
        }
        left = left.saturating_sub(most);
    }
    sizes.len() == whole.div_ceil(most.max(1))
}

/// The sizes that a sink is handed which takes at most so many bytes with a write, where the day is listed.
fn sizes_of<R: Threads + Sync>(
    rt: &R,
    alloc: Global,
    most: usize,
) -> Result<Option<Vec<usize>>, Fail> {
    let mut files = NotedFiles::new(alloc, joined(alloc, &BOTH, b"\n")?, 1_000_000);
    let mut out = NotedSink {
        most,
        sizes: Vec::new(alloc),
    };
    let code = code_over(rt, alloc, &DAY, &mut files, &mut out)?;
    if code == 0 {
        Ok(Some(out.sizes))
    } else {
        Ok(None)
    }
}

/// How many bytes are written of the day.
fn whole_of(alloc: Global) -> Result<usize, Fail> {
    let whole = joined(alloc, &BOTH_WRITTEN, b"\r\n")?;
    Ok(whole.len())
}

fn is_handed_all<R: Threads + Sync>(rt: &R, alloc: Global, most: usize) -> Result<bool, Fail> {
    let whole = whole_of(alloc)?;
    match sizes_of(rt, alloc, most)? {
        Some(sizes) => Ok(are_handed(sizes.as_slice(), whole, most)),
        None => Ok(false),
    }
}

fn are_handed_all<R: Threads + Sync>(rt: &R, alloc: Global) -> Result<bool, Fail> {
    Ok(
        is_handed_all(rt, alloc, 1)?
            && is_handed_all(rt, alloc, 100)?
            && is_handed_all(rt, alloc, 10_000)?,
    )
}

#[test]
fn each_write_is_handed_all_that_is_not_yet_taken(rt: HostRuntime) -> Result<(), Fail> {
    assert!(rt; are_handed_all(&rt, rt.alloc())?);
    Ok(())
}

/// The words that a program is started with: its name, and the words behind it.
#[derive(Drop)]
struct Started<'w> {
    words: &'w [Bytes],
}

/// Copies a word into the initial part of a buffer.
fn copy_word(word: &[u8], buf: &mut [u8]) -> Result<usize, FillError>
    ensures { IfOk result (λ count. count ≤ length buf.new) }
{
    if word.len() > buf.len() {
        return Err(FillError::TooLong);
    }
    copy_front(word, word.len(), buf);
    Ok(word.len())
}

impl<'w> Env for Started<'w> {
    fn arg(&self, i: usize, buf: &mut [u8]) -> Result<usize, FillError> {
        match self.words.get(i) {
            Some(word) => copy_word(word.as_slice(), buf),
            None => Err(FillError::NotPresent),
        }
    }

    fn var(&self, _name: &str, _buf: &mut [u8]) -> Result<usize, FillError> {
        Err(FillError::NotPresent)
    }

    fn var_at(&self, _i: usize, _buf: &mut [u8]) -> Result<usize, FillError> {
        Err(FillError::NotPresent)
    }
}

/// A word of so many bytes.
fn long_word(alloc: Global, bytes: usize) -> Result<Bytes, Fail> {
    Ok(Bytes::from_vec(vec![in alloc; b'w'; bytes]?))
}

/// The name of the program, and words of some lengths.
fn long_words(alloc: Global) -> Result<Vec<Bytes>, Fail> {
    let mut words = listed(alloc, &["planner", "trips", ""])?;
    for bytes in [255, 256, 257, 5_000] {
        words.push(long_word(alloc, bytes)?)?;
    }
    Ok(words)
}

/// Whether all but the first of the words that the program is started with are told.
fn are_told(alloc: Global, words: &[Bytes]) -> Result<bool, Fail> {
    let started = Started { words };
    let told = words_of(&started, alloc)?;
    Ok(told.as_slice() == &words[words.len().min(1)..])
}

/// Whether that is so for each number of the first words.
fn are_all_told(alloc: Global) -> Result<bool, Fail> {
    let words = long_words(alloc)?;
    for count in 0..words.len() + 1 {
        if !are_told(alloc, &words[..count])? {
            return Ok(false);
        }
    }
    Ok(true)
}

#[test]
fn words_of_any_length_come_in_their_order(rt: HostRuntime) -> Result<(), Fail> {
    assert!(rt; are_all_told(rt.alloc())?);
    Ok(())
}

/// The code with which the program ends that is started with some words.
fn code_of<R: Threads + Sync + Disk>(
    rt: &R,
    alloc: Global,
    words: &[Bytes],
    err: &mut MemSink,
) -> Result<ExitCode, Fail> {
    let started = Started { words };
    let mut out = sink(alloc, 10_000, &[])?;
    Ok(run_program(rt, alloc, &started, &mut out, err))
}

/// Whether the program that is started with its name, some words and one word of 300 bytes ends with this code and this line.
fn is_ended<R: Threads + Sync + Disk>(
    rt: &R,
    alloc: Global,
    words: &[&str],
    code: u8,
    line: &str,
) -> Result<bool, Fail> {
    let mut list = listed(alloc, words)?;
    list.push(long_word(alloc, 300)?)?;
    let mut err = sink(alloc, 10_000, &[])?;
    let end = code_of(rt, alloc, list.as_slice(), &mut err)?;
    Ok(end == ExitCode::from(code) && err.taken() == line.as_bytes())
}

fn are_ended<R: Threads + Sync + Disk>(rt: &R, alloc: Global) -> Result<bool, Fail> {
    let fault = "read fault: file 1\n";
    let plan = ["planner", "plan", "--rounds=1", "20260302", "."];
    Ok(
        is_ended(rt, alloc, &["planner", "trips", "20260302"], 7, fault)?
            && is_ended(rt, alloc, &plan, 7, fault)?
            && is_ended(rt, alloc, &["planner", "trips"], 2, USAGE)?
            && is_ended(rt, alloc, &["planner"], 2, USAGE)?,
    )
}

#[test]
fn the_program_ends_with_the_code_of_its_status(rt: HostRuntime) -> Result<(), Fail> {
    assert!(rt; are_ended(&rt, rt.alloc())?);
    Ok(())
}

/// Whether a file is read whole as it was written, and one that is missing is a fault of its read.
fn are_whole<F: Files>(alloc: Global, files: &mut F, text: &[u8]) -> Result<bool, Fail> {
    let Ok(bytes) = read_whole(alloc, files, b"written.x10", 1_000_000) else {
        return Ok(false);
    };
    let missing = read_whole(alloc, files, b"missing.x10", 1_000_000);
    Ok(bytes.as_slice() == text && missing.err() == Some(ReadRefusal::Fault))
}

/// Whether `trips` over a file lists the day.
fn is_listed<R: Threads + Sync, F: Files>(
    rt: &R,
    alloc: Global,
    files: &mut F,
    name: &str,
) -> Result<bool, Fail> {
    let mut out = sink(alloc, 10_000, &[])?;
    let code = code_over(rt, alloc, &["trips", "20260302", name], files, &mut out)?;
    let want = joined(alloc, &BOTH_WRITTEN, b"\r\n")?;
    Ok(code == 0 && out.taken() == want.as_slice())
}

/// Whether `trips` over a file that is missing ends with a fault of its read, and writes nothing of the day.
fn is_missed<R: Threads + Sync, F: Files>(
    rt: &R,
    alloc: Global,
    files: &mut F,
    name: &str,
) -> Result<bool, Fail> {
    let mut out = sink(alloc, 10_000, &[])?;
    let code = code_over(rt, alloc, &["trips", "20260302", name], files, &mut out)?;
    Ok(code == 7 && out.taken().is_empty())
}

/// Whether all of that is so of the files of the operating system, one of which was written with this text.
fn are_disk_files_read<R: Threads + Sync + Disk>(
    rt: &R,
    alloc: Global,
    text: &[u8],
) -> Result<bool, Fail> {
    let mut files = DiskFiles::new(rt, alloc, 11)?;
    Ok(
        are_whole(alloc, &mut files, text)?
            && is_listed(rt, alloc, &mut files, "written.x10")?
            && is_missed(rt, alloc, &mut files, "missing.x10")?,
    )
}

/// The same, between the writing of the file and its removal.
fn is_disk_read<R: Threads + Sync + Disk>(rt: &R, alloc: Global) -> Result<bool, Fail> {
    let text = long_text(alloc)?;
    fs::write(rt, "written.x10", text.as_slice())?;
    let are_read = are_disk_files_read(rt, alloc, text.as_slice())?;
    fs::remove_file(rt, "written.x10")?;
    Ok(are_read)
}

/// A file that is written here is read whole, in pieces, and gives what is said of it; a name that is not there is a fault of its read.
#[test]
fn the_files_of_the_operating_system_are_read(rt: HostRuntime) -> Result<(), Fail> {
    assert!(rt; is_disk_read(&rt, rt.alloc())?);
    Ok(())
}
