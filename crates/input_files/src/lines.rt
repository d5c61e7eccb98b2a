//! A line on standard error, written part by part.

ghost use Rattle.std.specs.Prelude.{◌++◌, ℕ, List, Option, decimal};
ghost use Rattle.input_files.specs.Lines.{IsTelling, IsTold};

use crate::transfer::write_whole;
use itoa::Buffer;
use plan_core::Sink;

/// Writes a further part of a line, unless a part before it failed: a line of parts begins with `true`. It tells whether all parts so far
/// are there; so what a sink took is an initial part of the line, and where its last part is there, the whole.
pub fn write_part<E: Sink>(err: &mut E, is_whole: bool, part: &[u8]) -> bool
    ensures { (old : Option (List ℕ)) (faults : ℕ) (line rest : List ℕ) → IsTelling old (E.taken err.old) faults (E.faults err.old) line (part.now ++ rest) is_whole
        → IsTelling old (E.taken err.new) faults (E.faults err.new) line rest result }
{
    if !is_whole {
        return false;
    }
    match write_whole(err, part) {
        Ok(()) => true,
        Err(_) => false,
    }
}

/// Writes a further number of a line, in decimal digits, as [`write_part`] writes a part.
pub fn write_number<E: Sink>(err: &mut E, is_whole: bool, number: u64) -> bool
    ensures { (old : Option (List ℕ)) (faults : ℕ) (line rest : List ℕ) → IsTelling old (E.taken err.old) faults (E.faults err.old) line (decimal number ++ rest) is_whole
        → IsTelling old (E.taken err.new) faults (E.faults err.new) line rest result }
{
    let mut digits = Buffer::new();
    write_part(err, is_whole, digits.format(number).as_bytes())
}

/// Writes a line of one part. Where a write fails, the rest of it is left out.
pub fn write_line<E: Sink>(err: &mut E, line: &[u8])
    ensures { IsTold (E.taken err.old) (E.taken err.new) (E.faults err.old) (E.faults err.new) line.now }
{
    let _ = write_whole(err, line);
}
