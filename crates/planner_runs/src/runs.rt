//! Runs of the planner over files and sinks in memory, and what they ended with.
//!
//! What `run` promises stands in one function here, which hands none of it on: what is tried is what no contract says.

ghost use Rattle.std.specs.Prelude.{◌≡◌, IfOk};

use plan_core::{Bytes, Files, Gate, MemFile, MemFiles, MemSink, NoGate, Seq, Sink};
use planner_run::{Status, run};
use std::alloc::Global;
use std::test::Fail;
use std::thread::Threads;

/// The header of each text that the planner writes.
pub const WRITTEN_HEAD: &str =
    "mod; DD.MM.YYYY; HH:MM:SS; free\nsrc; \"planner\"; \"01.01.2000\"; \"00:00:00\"\nchs; \"ISO8859-1\"\nver; \"1.4\"\nifv; \"1.4\"\ndve; \"1.4\"\nfft; \"\"\n";

/// The line for words that are none of the planner's.
pub const USAGE: &str = "usage: planner trips|day|plan|certify|check|make|replan|week\n";

/// The lines of some texts after one another, with a line end of the caller's.
pub fn joined(alloc: Global, texts: &[&str], line_end: &[u8]) -> Result<Bytes, Fail> {
    let mut bytes = Vec::new(alloc);
    for text in texts {
        for byte in text.as_bytes() {
            if *byte == b'\n' {
                bytes.extend_from_slice(line_end)?;
            } else {
                bytes.push(*byte)?;
            }
        }
    }
    Ok(Bytes::from_vec(bytes))
}

/// A list of numbers.
pub fn numbers(alloc: Global, list: &[u64]) -> Result<Seq<u64>, Fail> {
    Ok(Seq::from_vec(list.to_vec(alloc)?))
}

/// A text under a name.
pub fn file(alloc: Global, name: &str, bytes: Bytes) -> Result<MemFile, Fail>
    ensures { IfOk result (λ file. file.faults ≡ 0) }
{
    Ok(MemFile {
        name: Bytes::from_vec(name.as_bytes().to_vec(alloc)?),
        bytes,
        faults: 0,
    })
}

/// No files.
pub fn no_files(alloc: Global) -> MemFiles {
    MemFiles::new(Seq::new(alloc), Seq::new(alloc))
}

/// The one file `f`, whose reads of the listed numbers fail.
pub fn one_file(alloc: Global, bytes: Bytes, fails: &[u64]) -> Result<MemFiles, Fail> {
    let fails = numbers(alloc, fails)?;
    let file = file(alloc, "f", bytes)?;
    Ok(MemFiles::new(Seq::from_vec(vec![in alloc; file]?), fails))
}

/// Three files with their names.
pub fn three_files(
    alloc: Global,
    names: [&str; 3],
    first: Bytes,
    second: Bytes,
    third: Bytes,
) -> Result<MemFiles, Fail> {
    let [one, two, three] = names;
    let files = vec![in alloc;
        file(alloc, one, first)?,
        file(alloc, two, second)?,
        file(alloc, three, third)?,
    ]?;
    Ok(MemFiles::new(Seq::from_vec(files), Seq::new(alloc)))
}

/// A sink that takes at most so many bytes with each write, and whose writes of the listed numbers fail.
pub fn sink(alloc: Global, most: u64, fails: &[u64]) -> Result<MemSink, Fail> {
    let fails = numbers(alloc, fails)?;
    Ok(MemSink::new(alloc, 10_000, most.max(1), fails)?)
}

/// A sink with room for the text of some hundred trips.
fn room(alloc: Global) -> Result<MemSink, Fail> {
    Ok(MemSink::new(alloc, 100_000, 100_000, Seq::new(alloc))?)
}

/// The words, each as its bytes.
pub fn listed(alloc: Global, words: &[&str]) -> Result<Vec<Bytes>, Fail> {
    let mut list = Vec::new(alloc);
    for word in words {
        list.push(Bytes::from_vec(word.as_bytes().to_vec(alloc)?))?;
    }
    Ok(list)
}

/// Runs the words.
pub fn ran<R: Threads + Sync, F: Files, O: Sink, E: Sink, G: Gate + Sync>(
    rt: &R,
    alloc: Global,
    words: &[Bytes],
    files: &mut F,
    out: &mut O,
    err: &mut E,
    gate: &G,
) -> Status {
    run(rt, alloc, words, files, out, err, gate)
}

/// How a run ended: its status, and the sinks behind it.
#[derive(Drop)]
pub struct Ended {
    /// The status.
    pub status: Status,
    /// What took the text.
    pub out: MemSink,
    /// What took the line of a refusal.
    pub err: MemSink,
}

/// How the words end over files, into two sinks.
pub fn end_into<R: Threads + Sync, G: Gate + Sync>(
    rt: &R,
    alloc: Global,
    words: &[&str],
    files: MemFiles,
    gate: &G,
    sinks: (MemSink, MemSink),
) -> Result<Ended, Fail> {
    let list = listed(alloc, words)?;
    let mut files = files;
    let (mut out, mut err) = sinks;
    let status = ran(
        rt,
        alloc,
        list.as_slice(),
        &mut files,
        &mut out,
        &mut err,
        gate,
    );
    Ok(Ended { status, out, err })
}

/// How the words end over files.
pub fn end_of<R: Threads + Sync>(
    rt: &R,
    alloc: Global,
    words: &[&str],
    files: MemFiles,
) -> Result<Ended, Fail> {
    let sinks = (sink(alloc, 10_000, &[])?, sink(alloc, 10_000, &[])?);
    end_into(rt, alloc, words, files, &NoGate, sinks)
}

/// How the words end over files, with room for a long text, and with a gate.
pub fn end_in_room<R: Threads + Sync, G: Gate + Sync>(
    rt: &R,
    alloc: Global,
    words: &[&str],
    files: MemFiles,
    gate: &G,
) -> Result<Ended, Fail> {
    let sinks = (room(alloc)?, sink(alloc, 10_000, &[])?);
    end_into(rt, alloc, words, files, gate, sinks)
}

/// Whether a run ended with this status number, wrote this text, and said this line.
pub fn is_so(end: &Ended, code: u8, text: &[u8], line: &str) -> bool {
    let is_told = end.err.taken() == line.as_bytes();
    end.status.code() == code && (is_told && end.out.taken() == text)
}

/// Whether a run wrote these texts, with CR LF, and said nothing.
pub fn has_written(alloc: Global, end: &Ended, texts: &[&str]) -> Result<bool, Fail> {
    let want = joined(alloc, texts, b"\r\n")?;
    Ok(is_so(end, 0, want.as_slice(), ""))
}

/// What a run wrote that ended well and said nothing.
pub fn text_of(alloc: Global, end: &Ended) -> Result<Bytes, Fail> {
    if end.status.code() != 0 || !end.err.taken().is_empty() {
        return Err("refused".into());
    }
    Ok(Bytes::from_vec(end.out.taken().to_vec(alloc)?))
}

/// The text that the words write where there are no files, and nothing on standard error.
pub fn written<R: Threads + Sync, G: Gate + Sync>(
    rt: &R,
    alloc: Global,
    words: &[&str],
    gate: &G,
) -> Result<Bytes, Fail> {
    let end = end_in_room(rt, alloc, words, no_files(alloc), gate)?;
    text_of(alloc, &end)
}

/// Whether a part stands in a text.
pub fn has_part(text: &[u8], part: &str) -> bool {
    text.windows(part.len().max(1))
        .any(|window| window == part.as_bytes())
}
