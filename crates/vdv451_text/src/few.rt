//! The fields of a line on which few may stand: however many do, only so many are kept.

ghost use Rattle.std.specs.Prelude.{◌≡◌, IfOk};
ghost use Rattle.std.specs.List.{list_all};
ghost use Rattle.std.specs.Option.{option_copied};
ghost use Rattle.vdv451_text.specs.Answers.{AnswersAs, AnswersKind};
ghost use Rattle.vdv451_text.specs.FewFields.{checked, crowd_behind, crowd_of, few_of, fits as fits_as, may_end as may_end_line, may_stand as may_stand_on};
ghost use Rattle.vdv451_text.specs.Fields.{bytes_of as piece_bytes, is_count as count_piece, is_void as void_piece};
ghost use Rattle.vdv451_text.specs.Lines.{fields_of, piece_of};

use crate::fault::TextKind;
use crate::number::are_digits;
use crate::pieces::{Piece, first_field, make_piece, trimmed};
use crate::plain::{is_a_format, is_a_name};
use plan_core::Seq;
use std::alloc::Global;

/// What the fields of a line are.
#[derive(Clone, Copy)]
pub enum FieldKind {
    /// A name, on `tbl`.
    Name,
    /// A name, on `atr`, where a last field may have nothing in it.
    ColumnName,
    /// A format.
    Format,
    /// A count of rows or tables.
    Count,
    /// A value.
    Value,
}

/// The bytes of a bare field, the text of a quoted one.
pub fn bytes_of(piece: &Piece) -> &[u8]
    ensures { result.now ≡ piece_bytes piece.now }
{
    match piece {
        Piece::Bare(bytes) => bytes.as_slice(),
        Piece::Quoted(text) => text.as_slice(),
    }
}

/// Nothing but blanks between separators.
pub fn is_void(piece: &Piece) -> bool
    ensures { result ≡ void_piece piece.now }
{
    match piece {
        Piece::Bare(bytes) => bytes.is_empty(),
        Piece::Quoted(_) => false,
    }
}

/// 1 to 18 bare digits.
pub fn is_count(piece: &Piece) -> bool
    ensures { result ≡ count_piece piece.now }
{
    match piece {
        Piece::Bare(bytes) => are_digits(bytes.as_slice()) && bytes.len() <= 18,
        Piece::Quoted(_) => false,
    }
}

fn may_stand(kind: FieldKind, piece: &Piece) -> bool
    ensures { result ≡ may_stand_on kind piece.now }
{
    match kind {
        FieldKind::Name | FieldKind::ColumnName => is_a_name(bytes_of(piece)),
        FieldKind::Format => is_a_format(bytes_of(piece)),
        FieldKind::Count => is_count(piece),
        FieldKind::Value => true,
    }
}

/// The same of the last field.
fn may_end(kind: FieldKind, piece: &Piece) -> bool
    ensures { result ≡ may_end_line kind piece.now }
{
    match kind {
        FieldKind::ColumnName => is_void(piece) || is_a_name(bytes_of(piece)),
        _ => may_stand(kind, piece),
    }
}

fn all_may_stand(kind: FieldKind, pieces: &[Piece]) -> bool
    ensures { result ≡ list_all (may_stand_on kind) pieces.now }
{
    pieces.iter().all(|piece| may_stand(kind, piece))
}

/// The same, of the last field or of another.
fn fits(kind: FieldKind, is_last: bool, piece: &Piece) -> bool
    ensures { result ≡ fits_as kind is_last piece.now }
{
    if is_last {
        may_end(kind, piece)
    } else {
        may_stand(kind, piece)
    }
}

/// One of too many fields.
fn check_field(alloc: Global, kind: FieldKind, part: &[u8], is_last: bool) -> Result<(), TextKind>
    ensures { AnswersAs result (checked kind is_last (piece_of part.now)) }
{
    let piece = make_piece(alloc, part)?;
    if fits(kind, is_last, &piece) {
        Ok(())
    } else {
        Err(TextKind::Field)
    }
}

/// What is wrong with too many fields: one of them, or else their number.
fn crowd_fault(alloc: Global, kind: FieldKind, rest: Option<&[u8]>) -> TextKind
    ensures { AnswersKind result (crowd_of kind (fields_of (option_copied rest.entry))) }
{
    let mut rest = rest;
    while let Some(bytes) = rest {
        let (part, after) = first_field(bytes);
        if let Err(fault) = check_field(alloc, kind, trimmed(part), after.is_none()) {
            return fault;
        }
        rest = after;
    }
    TextKind::Count
}

/// The same, behind these fields.
fn crowd_fault_behind(
    alloc: Global,
    kind: FieldKind,
    pieces: &[Piece],
    rest: Option<&[u8]>,
) -> TextKind
    ensures { AnswersKind result (crowd_behind kind pieces.now (fields_of (option_copied rest.entry))) }
{
    if all_may_stand(kind, pieces) {
        crowd_fault(alloc, kind, rest)
    } else {
        TextKind::Field
    }
}

/// All fields of a line on which at most so many count.
pub fn few_pieces(
    alloc: Global,
    kind: FieldKind,
    most: usize,
    rest: Option<&[u8]>,
) -> Result<Seq<Piece>, TextKind>
    ensures few { AnswersAs result (few_of kind most (fields_of (option_copied rest.entry))) }
    ensures all { IfOk result (λ pieces. fields_of (option_copied rest.entry) ≡ Some pieces) }
{
    let mut pieces = Vec::new(alloc);
    let mut rest = rest;
    while let Some(bytes) = rest {
        if pieces.len() >= most {
            return Err(crowd_fault_behind(alloc, kind, &pieces, rest));
        }
        let (part, after) = first_field(bytes);
        pieces.push(make_piece(alloc, trimmed(part))?)?;
        rest = after;
    }
    Ok(Seq::from_vec(pieces))
}
