//! The numbers that the fields of a row spell, each in its range.

ghost use Rattle.std.specs.Prelude.{◌≡◌, ◌≤◌, ◌<◌, IfSome};
ghost use Rattle.number_tables.specs.Outlines as spec;

use vdv451_text::{Field, Head};
use vdv452_rows::{column_place, whole_number};

/// The number that a row spells at a place, from 0. None where the row is shorter, and where its field spells no number.
pub fn number_at(row: &[Field], place: usize) -> Option<i64>
    ensures { result ≡ spec.number_at row.now place }
{
    whole_number(row.get(place)?)
}

/// The number that a row spells in a column, the first of its name. None where there is no such column or field, and where the field spells
/// no number.
pub fn number_in(heads: &[Head], row: &[Field], name: &[u8]) -> Option<i64>
    ensures { result ≡ spec.number_in heads.now row.now name.now }
{
    let place = column_place(heads, name)?;
    number_at(row, place)
}

/// A number from 0 to a greatest one. None where it is another.
pub fn up_to(most: u64, number: Option<i64>) -> Option<u64>
    ensures value { result ≡ spec.up_to most number }
    ensures bound { IfSome result (λ n. n ≤ most) }
{
    let number = number?;
    if number < 0 || number as u64 > most {
        return None;
    }
    Some(number as u64)
}

/// A number from 0 to a greatest one of 32 bits. None where it is another.
pub fn word_up_to(most: u32, number: Option<i64>) -> Option<u32>
    ensures value { result ≡ spec.up_to most number }
    ensures bound { IfSome result (λ n. n ≤ most) }
{
    let number = number?;
    if number < 0 || number > i64::from(most) {
        return None;
    }
    Some(number as u32)
}

/// A number of 32 bits. None where it is another.
pub fn word(number: Option<i64>) -> Option<u32>
    ensures { result ≡ spec.word number }
{
    word_up_to(4_294_967_295, number)
}

/// A number from 1 to a greatest one, counted from 0. None where it is another.
pub fn counted(most: u32, number: Option<i64>) -> Option<u32>
    ensures value { result ≡ spec.counted most number }
    ensures bound { IfSome result (λ n. n < most) }
{
    let number = number?;
    if number <= 0 || number > i64::from(most) {
        return None;
    }
    Some(number as u32 - 1)
}
