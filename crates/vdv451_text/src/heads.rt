//! The head of a table: `tbl`, `atr` and `frm` lines.

ghost use Rattle.std.specs.Prelude.{◌≡◌, ◌&&◌, length, map, nat_le};
ghost use Rattle.std.specs.List.{list_all};
ghost use Rattle.std.specs.Option.{option_copied};
ghost use Rattle.std.specs.Str.{str_to_ascii_uppercase};
ghost use Rattle.vdv451_text.specs.Answers.{AnswersAs};
ghost use Rattle.vdv451_text.specs.Faults.{wrong_fields};
ghost use Rattle.vdv451_text.specs.Fields.{bytes_of as piece_bytes, is_format, is_name, without_void as drop_void, at_most_one_void as drop_one_void};
ghost use Rattle.vdv451_text.specs.Lines.{Says, Tbl, Atr, Frm, fields_of};
ghost use Rattle.vdv451_text.specs.Machine.{capital, formats_on, heads, name_on, names_on, outcome};

use crate::fault::TextKind;
use crate::few::{FieldKind, bytes_of, few_pieces, is_void};
use crate::pieces::{Piece, copied};
use crate::plain::{is_a_format, is_a_name};
use crate::table::Head;
use plan_core::{Bytes, Seq};
use std::alloc::Global;

fn are_names(pieces: &[Piece]) -> bool
    ensures { result ≡ list_all (λ piece. is_name (piece_bytes piece)) pieces.now }
{
    pieces.iter().all(|piece| is_a_name(bytes_of(piece)))
}

fn are_formats(pieces: &[Piece]) -> bool
    ensures { result ≡ list_all (λ piece. is_format (piece_bytes piece)) pieces.now }
{
    pieces.iter().all(|piece| is_a_format(bytes_of(piece)))
}

/// Without a last field with nothing in it.
fn without_void(pieces: &[Piece]) -> &[Piece]
    ensures { result.now ≡ drop_void pieces.now }
{
    match pieces {
        [front @ .., last] => { if is_void(last) { front } else { pieces } }
        [] => pieces,
    }
}

/// A last field with nothing in it is dropped where it is one too many.
fn at_most_one_void<'a>(names: &[Bytes], pieces: &'a [Piece]) -> &'a [Piece]
    ensures { result.now ≡ drop_one_void (length names.now) pieces.now }
{
    if pieces.len() == names.len() + 1 {
        without_void(pieces)
    } else {
        pieces
    }
}

/// In capitals.
fn in_capitals(alloc: Global, bytes: &[u8]) -> Result<Bytes, TextKind>
    ensures { AnswersAs result (Ok (str_to_ascii_uppercase bytes.now)) }
{
    let mut name = Vec::with_capacity(alloc, bytes.len())?;
    for byte in bytes {
        name.push(byte.to_ascii_uppercase())?;
    }
    Ok(Bytes::from_vec(name))
}

fn all_in_capitals(alloc: Global, pieces: &[Piece]) -> Result<Seq<Bytes>, TextKind>
    ensures { AnswersAs result (Ok (map capital pieces.now)) }
{
    let mut names = Vec::with_capacity(alloc, pieces.len())?;
    for piece in pieces {
        names.push(in_capitals(alloc, bytes_of(piece))?)?;
    }
    Ok(Seq::from_vec(names))
}

/// The name on a `tbl` line.
pub fn read_name(alloc: Global, rest: Option<&[u8]>) -> Result<Bytes, TextKind>
    ensures { let line = Says Tbl (option_copied rest.entry) in AnswersAs result (outcome (wrong_fields 0 0 0 line (fields_of (option_copied rest.entry))) (name_on line)) }
{
    let pieces = few_pieces(alloc, FieldKind::Name, 1, rest)?;
    if !are_names(pieces.as_slice()) {
        return Err(TextKind::Field);
    }
    match pieces.as_slice() {
        [only] => in_capitals(alloc, bytes_of(only)),
        _ => Err(TextKind::Count),
    }
}

/// A table has 1 to 200 columns.
fn is_column_number(number: usize) -> bool
    ensures { result ≡ (nat_le 1 number && nat_le number 200) }
{
    1 <= number && number <= 200
}

/// The names on an `atr` line.
pub fn read_names(alloc: Global, rest: Option<&[u8]>) -> Result<Seq<Bytes>, TextKind>
    ensures { let line = Says Atr (option_copied rest.entry) in AnswersAs result (outcome (wrong_fields 0 0 0 line (fields_of (option_copied rest.entry))) (names_on line)) }
{
    let pieces = few_pieces(alloc, FieldKind::ColumnName, 201, rest)?;
    let kept = without_void(pieces.as_slice());
    if !are_names(kept) {
        return Err(TextKind::Field);
    }
    if !is_column_number(kept.len()) {
        return Err(TextKind::Count);
    }
    all_in_capitals(alloc, kept)
}

/// A column for each name, with its format.
fn make_heads(alloc: Global, names: &[Bytes], formats: &[Piece]) -> Result<Seq<Head>, TextKind>
    requires { length names.now ≡ length formats.now }
    ensures { AnswersAs result (Ok (heads names.now (map piece_bytes formats.now))) }
{
    let mut columns = Vec::with_capacity(alloc, names.len())?;
    for (i, name) in names.iter().enumerate() {
        columns.push(Head {
            name: copied(alloc, name.as_slice())?,
            format: copied(alloc, bytes_of(&formats[i]))?,
        })?;
    }
    Ok(Seq::from_vec(columns))
}

/// The columns, with the formats on a `frm` line.
pub fn read_heads(
    alloc: Global,
    names: &[Bytes],
    rest: Option<&[u8]>,
) -> Result<Seq<Head>, TextKind>
    ensures { let line = Says Frm (option_copied rest.entry) in AnswersAs result (outcome (wrong_fields (length names.now) 0 0 line (fields_of (option_copied rest.entry))) (heads names.now (formats_on (length names.now) line))) }
{
    let pieces = few_pieces(alloc, FieldKind::Format, names.len() + 1, rest)?;
    let kept = at_most_one_void(names, pieces.as_slice());
    if !are_formats(kept) {
        return Err(TextKind::Field);
    }
    if kept.len() != names.len() {
        return Err(TextKind::Count);
    }
    make_heads(alloc, names, kept)
}
