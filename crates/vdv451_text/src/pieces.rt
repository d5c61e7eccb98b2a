//! The fields of a line, one after another.

ghost use Rattle.std.specs.Prelude.{◌≡◌, ◌<◌, false, reverse};
ghost use Rattle.std.specs.Option.{option_copied, option_map};
ghost use Rattle.vdv451_text.specs.Answers.{AnswersAs};
ghost use Rattle.vdv451_text.specs.FieldView.{size_left, with_piece, field_or_fault, text_after};
ghost use Rattle.vdv451_text.specs.Fields.{value_of, bare_value as value_of_bare};
ghost use Rattle.vdv451_text.specs.Lines.{fields_of, piece_of, trimmed as trimmed_by_definition, without_front_blanks};

use crate::fault::TextKind;
use crate::fields::{field_end, past_blanks};
use crate::number::spelled_number;
use crate::plain::{begins_with_quote, is_blank, is_null, is_number_format};
use crate::table::{Field, FieldBytes};
use plan_core::Bytes;
use std::alloc::Global;

/// A field as it stands between separators, without the blanks round it: bare, or the text between quotes.
#[derive(Drop)]
pub enum Piece {
    Bare(Bytes),
    Quoted(Bytes),
}

/// The first field, and what stands behind its separator, where it has one.
pub fn first_field(bytes: &[u8]) -> (&[u8], Option<&[u8]>)
    ensures fields { fields_of (Some bytes.now) ≡ with_piece (piece_of (trimmed_by_definition result.0.now)) (fields_of (option_copied result.1)) }
    ensures shorter { size_left (option_copied result.1) < size_left (Some bytes.now) }
{
    let end = field_end(bytes);
    if end < bytes.len() {
        (&bytes[..end], Some(&bytes[end + 1..]))
    } else {
        (bytes, None)
    }
}

fn before_blanks(bytes: &[u8]) -> &[u8]
    ensures { result.now ≡ reverse (without_front_blanks (reverse bytes.now)) }
{
    let mut end = bytes.len();
    while end > 0 && is_blank(bytes[end - 1]) {
        end -= 1;
    }
    &bytes[..end]
}

/// Without the blanks at both ends.
pub fn trimmed(bytes: &[u8]) -> &[u8]
    ensures { result.now ≡ trimmed_by_definition bytes.now }
{
    before_blanks(past_blanks(bytes))
}

/// The text behind an opening quote, which a quote closes at the very end. An inner quote is doubled.
fn closed_text(alloc: Global, bytes: &[u8]) -> Result<Bytes, TextKind>
    ensures { AnswersAs result (field_or_fault (text_after false bytes.now)) }
{
    let mut text = Vec::with_capacity(alloc, bytes.len())?;
    let mut is_behind_quote = false;
    for byte in bytes {
        let is_quote = *byte == b'"';
        if is_quote == is_behind_quote {
            text.push(*byte)?;
            is_behind_quote = false;
        } else if is_quote {
            is_behind_quote = true;
        } else {
            return Err(TextKind::Field);
        }
    }
    if is_behind_quote {
        Ok(Bytes::from_vec(text))
    } else {
        Err(TextKind::Field)
    }
}

/// The same bytes, as their own.
pub fn copied(alloc: Global, bytes: &[u8]) -> Result<Bytes, TextKind>
    ensures { AnswersAs result (Ok bytes.now) }
{
    Ok(Bytes::from_vec(Vec::from_slice(alloc, bytes)?))
}

/// The field between separators, without the blanks round it.
pub fn make_piece(alloc: Global, bytes: &[u8]) -> Result<Piece, TextKind>
    ensures { AnswersAs result (field_or_fault (piece_of bytes.now)) }
{
    if begins_with_quote(bytes) {
        Ok(Piece::Quoted(closed_text(alloc, &bytes[1..])?))
    } else {
        Ok(Piece::Bare(copied(alloc, bytes)?))
    }
}

fn text_field(alloc: Global, text: Bytes) -> Result<Field, TextKind>
    ensures { AnswersAs result (Ok (Field.Text text)) }
{
    Ok(Field::Text(FieldBytes::new(alloc, text)?))
}

fn raw_field(alloc: Global, bytes: Bytes) -> Result<Field, TextKind>
    ensures { AnswersAs result (Ok (Field.Raw bytes)) }
{
    Ok(Field::Raw(FieldBytes::new(alloc, bytes)?))
}

/// The value of bare bytes.
fn bare_value(alloc: Global, format: &[u8], bytes: &[u8]) -> Result<Field, TextKind>
    ensures { AnswersAs result (Ok (value_of_bare format.now bytes.now)) }
{
    if bytes.is_empty() || is_null(bytes) {
        return Ok(Field::Empty);
    }
    if is_number_format(format)
        && let Some(number) = spelled_number(bytes)
    {
        return Ok(Field::Num(number));
    }
    raw_field(alloc, copied(alloc, bytes)?)
}

/// The value of the field between separators, without the blanks round it, in a column of this format.
pub fn value(alloc: Global, format: &[u8], bytes: &[u8]) -> Result<Field, TextKind>
    ensures { AnswersAs result (field_or_fault (option_map (value_of format.now) (piece_of bytes.now))) }
{
    if begins_with_quote(bytes) {
        text_field(alloc, closed_text(alloc, &bytes[1..])?)
    } else {
        bare_value(alloc, format, bytes)
    }
}
