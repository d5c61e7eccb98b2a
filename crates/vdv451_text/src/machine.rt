//! Reading line by line.

ghost use Rattle.std.specs.Prelude.{◌≡◌, ◌≤◌, ◌<◌, ◌∷◌, ◌≢◌, ℕ, length, map, slice_index};
ghost use Rattle.vdv451_text.specs.Answers.{AnswersReading};
ghost use Rattle.vdv451_text.specs.Lines.{cut_at_feeds, lines_of, without_mark, without_return};
ghost use Rattle.vdv451_text.specs.Machine.{ended, read_from, start};

use crate::fault::{TextFault, TextKind};
use crate::state::State;
use crate::steps::stepped;
use crate::table::Table;
use plan_core::Seq;
use std::alloc::Global;

/// The index of the first LF, or the length where there is none.
fn feed_at(bytes: &[u8]) -> usize
    ensures within { result ≤ length bytes.now }
    ensures before { (k : ℕ) → k < result → slice_index bytes.now k ≢ 10 }
    ensures found { result < length bytes.now → slice_index bytes.now result ≡ 10 }
{
    for (i, byte) in bytes.iter().enumerate() {
        if *byte == b'\n' {
            return i;
        }
    }
    bytes.len()
}

/// A CR at the end belongs to the line end.
fn without_cr(line: &[u8]) -> &[u8]
    ensures { result.now ≡ without_return line.now }
{
    if line.is_empty() {
        return line;
    }
    let last = line.len() - 1;
    if line[last] == b'\r' {
        &line[..last]
    } else {
        line
    }
}

/// The first line, without its end, and the bytes after it.
fn first_line(bytes: &[u8]) -> (&[u8], &[u8])
    requires { 0 < length bytes.now }
    ensures cut { map without_return (cut_at_feeds bytes.now) ≡ result.0.now ∷ map without_return (cut_at_feeds result.1.now) }
    ensures shorter { length result.1.now < length bytes.now }
{
    let end = feed_at(bytes);
    if end < bytes.len() {
        (without_cr(&bytes[..end]), &bytes[end + 1..])
    } else {
        (without_cr(bytes), &bytes[end..])
    }
}

/// Without the three bytes that may stand before the first line.
fn past_mark(bytes: &[u8]) -> &[u8]
    ensures { result.now ≡ without_mark bytes.now }
{
    if bytes.starts_with(b"\xEF\xBB\xBF") {
        &bytes[3..]
    } else {
        bytes
    }
}

fn tables_at_end(state: State, place: u32) -> Result<Seq<Table>, TextFault>
    ensures { AnswersReading result (ended place state) }
{
    match state {
        State::Ended(tables) => Ok(tables),
        _ => Err(TextFault {
            line: place,
            kind: TextKind::Unended,
        }),
    }
}

/// What the lines give.
pub fn read_lines(alloc: Global, bytes: &[u8]) -> Result<Seq<Table>, TextFault>
    requires { length bytes.now ≤ 4294967294 }
    ensures { AnswersReading result (read_from 1 start (map without_return (cut_at_feeds bytes.now))) }
{
    let mut state = State::Open(false, Seq::new(alloc));
    let mut rest = bytes;
    let mut place = 1;
    while !rest.is_empty() {
        let (line, after) = first_line(rest);
        state = match stepped(alloc, state, line) {
            Ok(next) => next,
            Err(kind) => return Err(TextFault { line: place, kind }),
        };
        rest = after;
        place += 1;
    }
    tables_at_end(state, place)
}

/// What the whole text gives.
pub fn read_text(alloc: Global, bytes: &[u8]) -> Result<Seq<Table>, TextFault>
    requires { length bytes.now ≤ 4294967294 }
    ensures { AnswersReading result (read_from 1 start (lines_of bytes.now)) }
{
    read_lines(alloc, past_mark(bytes))
}
