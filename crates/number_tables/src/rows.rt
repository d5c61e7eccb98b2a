//! Rows of whole numbers.

ghost use Rattle.std.specs.Prelude.{◌≡◌, IfOk};
ghost use Rattle.number_tables.specs.Numbers.{AreFieldNumbers, IsFieldNumber, number_field as field_of, number_row as row_of};

use plan_core::{Memory, Seq};
use std::alloc::Global;
use vdv451_text::Field;

/// The field of a number, or of none.
fn number_field(number: Option<u64>) -> Field
    requires { IsFieldNumber number }
    ensures { result ≡ field_of number }
{
    match number {
        Some(number) => Field::Num(number as i64),
        None => Field::Empty,
    }
}

/// A row of fields: for each number, from 0 to 2^63 - 1, a number, and for each None an empty field.
///
/// # Errors
///
/// `Memory` where memory runs out, and for nothing else.
pub fn number_row(alloc: Global, numbers: &[Option<u64>]) -> Result<Seq<Field>, Memory>
    requires { AreFieldNumbers numbers.now }
    ensures { IfOk result (λ row. row ≡ row_of numbers.now) }
{
    let mut row = Seq::new(alloc);
    for number in numbers {
        row.push(number_field(*number))?;
    }
    Ok(row)
}
