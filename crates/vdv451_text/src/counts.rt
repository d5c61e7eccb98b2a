//! The counts of rows and of tables: `end` and `eof` lines.

ghost use Rattle.std.specs.Prelude.{◌≡◌, ◌==◌, IsTrue};
ghost use Rattle.std.specs.List.{list_all};
ghost use Rattle.std.specs.Option.{option_copied};
ghost use Rattle.std.specs.Str.Parse.{digits_value};
ghost use Rattle.vdv451_text.specs.Answers.{AnswersAs};
ghost use Rattle.vdv451_text.specs.Faults.{wrong_fields};
ghost use Rattle.vdv451_text.specs.Fields.{is_count as count_piece, bytes_of as piece_bytes};
ghost use Rattle.vdv451_text.specs.Lines.{Says, End, Eof, fields_of};
ghost use Rattle.vdv451_text.specs.Machine.{outcome};
ghost use Rattle.vdv451_text.specs.RowView.{count_of};

use crate::fault::TextKind;
use crate::few::{FieldKind, few_pieces, is_count};
use crate::number::is_value;
use crate::pieces::Piece;
use std::alloc::Global;

fn are_counts(pieces: &[Piece]) -> bool
    ensures { result ≡ list_all count_piece pieces.now }
{
    pieces.iter().all(is_count)
}

/// Whether the piece says this number.
fn says_number(piece: &Piece, number: usize) -> bool
    requires { IsTrue (count_piece piece.now) }
    ensures { result ≡ (digits_value 10 (piece_bytes piece.now) == number) }
{
    match piece {
        Piece::Bare(bytes) => is_value(bytes.as_slice(), number as u64),
        Piece::Quoted(_) => false,
    }
}

/// Whether the line has one count, and that is this number.
fn read_count(alloc: Global, rest: Option<&[u8]>, number: usize) -> Result<bool, TextKind>
    ensures { AnswersAs result (count_of number (fields_of (option_copied rest.entry))) }
{
    let pieces = few_pieces(alloc, FieldKind::Count, 1, rest)?;
    if !are_counts(pieces.as_slice()) {
        return Err(TextKind::Field);
    }
    match pieces.as_slice() {
        [only] => Ok(says_number(only, number)),
        _ => Err(TextKind::Count),
    }
}

/// An `end` line counts the rows of its table.
pub fn check_end(alloc: Global, rest: Option<&[u8]>, rows: usize) -> Result<(), TextKind>
    ensures { AnswersAs result (outcome (wrong_fields 0 rows 0 (Says End (option_copied rest.entry)) (fields_of (option_copied rest.entry))) tt) }
{
    if read_count(alloc, rest, rows)? {
        Ok(())
    } else {
        Err(TextKind::EndCount)
    }
}

/// An `eof` line counts the tables of the file.
pub fn check_eof(alloc: Global, rest: Option<&[u8]>, tables: usize) -> Result<(), TextKind>
    ensures { AnswersAs result (outcome (wrong_fields 0 0 tables (Says Eof (option_copied rest.entry)) (fields_of (option_copied rest.entry))) tt) }
{
    if read_count(alloc, rest, tables)? {
        Ok(())
    } else {
        Err(TextKind::EofCount)
    }
}
