//! Rows of whole numbers that may be below 0.

ghost use Rattle.std.specs.Prelude.{◌≡◌, IfOk};
ghost use Rattle.number_tables.specs.Signed.{signed_field as field_of, signed_row as row_of};

use plan_core::{Memory, Seq};
use std::alloc::Global;
use vdv451_text::Field;

/// The field of a number, or of none.
fn signed_field(number: Option<i64>) -> Field
    ensures { result ≡ field_of number }
{
    match number {
        Some(number) => Field::Num(number),
        None => Field::Empty,
    }
}

/// A row of fields: for each number a number, and for each None an empty field. It goes into a table of `number_table`.
///
/// # Errors
///
/// `Memory` where memory runs out, and for nothing else.
pub fn signed_row(alloc: Global, numbers: &[Option<i64>]) -> Result<Seq<Field>, Memory>
    ensures { IfOk result (λ row. row ≡ row_of numbers.now) }
{
    let mut row = Seq::new(alloc);
    for number in numbers {
        row.push(signed_field(*number))?;
    }
    Ok(row)
}
