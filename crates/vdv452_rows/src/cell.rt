//! The value of a field in a column.

ghost use Rattle.std.specs.Prelude.{◌≡◌, ℤ, Option, IfOk};
ghost use Rattle.std.specs.Option.{option_and_then};
ghost use Rattle.vdv452_rows.specs.Cells as cells;

use crate::schema::{Column, Domain};
use plan_core::{Bytes, Memory};
use std::alloc::Global;
use vdv451_text::{Field, spelled_number};

/// What a row has in a column.
#[derive(Drop, PartialEq, Eq, Hash)]
pub enum Cell {
    /// No value: an empty field, a missing column, or a column that is not looked at.
    Nothing,
    /// A number of at most 32 bits.
    Number(u32),
    /// A number of a column that has more than 32 bits.
    Long(u64),
    /// A text.
    Word(Bytes),
}

/// A copy of some bytes. `Memory` is the only error.
pub fn bytes_of(alloc: Global, bytes: &[u8]) -> Result<Bytes, Memory>
    ensures { IfOk result (λ copy. copy ≡ bytes.now) }
{
    Ok(Bytes::from_vec(Vec::from_slice(alloc, bytes)?))
}

/// The whole number that a field spells: a number, or a text or bare bytes that spell one (VDV 451 allows both). None where it spells none.
pub fn whole_number(field: &Field) -> Option<i64>
    ensures { result ≡ cells.whole_number field.now }
{
    match field {
        Field::Num(number) => Some(*number),
        Field::Text(text) => spelled_number(text.as_slice()),
        Field::Raw(bytes) => spelled_number(bytes.as_slice()),
        Field::Empty => None,
    }
}

fn number_up_to(most: u32, number: i64) -> Option<Cell>
    ensures { result ≡ cells.number_up_to most number }
{
    if number < 0 || number > i64::from(most) {
        return None;
    }
    Some(Cell::Number(number as u32))
}

fn long_up_to(most: u64, number: i64) -> Option<Cell>
    ensures { result ≡ cells.long_up_to most number }
{
    if number < 0 || number as u64 > most {
        return None;
    }
    Some(Cell::Long(number as u64))
}

fn word(alloc: Global, field: &Field) -> Result<Option<Cell>, Memory>
    ensures { IfOk result (λ cell. cell ≡ cells.word field.now) }
{
    match field {
        Field::Num(number) => {
            let digits = number.to_string(alloc)?;
            Ok(Some(Cell::Word(bytes_of(alloc, digits.as_bytes())?)))
        }
        Field::Text(text) => Ok(Some(Cell::Word(bytes_of(alloc, text.as_slice())?))),
        Field::Raw(bytes) => Ok(Some(Cell::Word(bytes_of(alloc, bytes.as_slice())?))),
        Field::Empty => Ok(None),
    }
}

fn value_in(alloc: Global, domain: Domain, field: &Field) -> Result<Option<Cell>, Memory>
    ensures { IfOk result (λ cell. cell ≡ cells.value_in domain field.now) }
{
    match domain {
        Domain::UpTo(most) => match whole_number(field) {
            Some(number) => Ok(number_up_to(most, number)),
            None => Ok(None),
        },
        Domain::LongUpTo(most) => match whole_number(field) {
            Some(number) => Ok(long_up_to(most, number)),
            None => Ok(None),
        },
        Domain::AnyWord => word(alloc, field),
        Domain::Unseen => Ok(Some(Cell::Nothing)),
    }
}

pub(crate) fn is_empty_field(field: &Field) -> bool
    ensures { result ≡ cells.is_empty_field field.now }
{
    match field {
        Field::Empty => true,
        Field::Num(_) => false,
        Field::Text(_) => false,
        Field::Raw(_) => false,
    }
}

/// The value of a field in a column, where it is right there.
pub(crate) fn cell_of(alloc: Global, column: &Column, field: &Field) -> Result<Option<Cell>, Memory>
    ensures { IfOk result (λ cell. cell ≡ cells.cell_of column.now field.now) }
{
    if !is_empty_field(field) {
        return value_in(alloc, column.domain, field);
    }
    if column.may_be_empty {
        Ok(Some(Cell::Nothing))
    } else {
        Ok(None)
    }
}
