//! Rows of numbers and names of variants.

ghost use Rattle.std.specs.Prelude.{◌≡◌, ◌<◌, ◌^◌, ◌++◌, ◌∷◌, [], All, IfOk, OnOk};
ghost use Rattle.day_maker.specs.Made.{field_of, fields_of, variant_name as variant_name_of};
ghost use Rattle.day_maker.specs.Limits.{AreSmall, IsSmall};

use plan_core::{Bytes, Memory, Seq};
use std::alloc::Global;
use vdv451_text::{Field, FieldBytes};

/// What a row has in a column.
#[derive(Clone, Copy, Debug)]
pub enum Cell {
    /// A whole number.
    Number(u64),
    /// The variant that goes out, or the one that comes back.
    Variant(bool),
    /// Nothing.
    Nothing,
}

/// The name of a variant.
fn variant_name(out: bool) -> &'static [u8]
    ensures { result.now ≡ variant_name_of out }
{
    if out { b"H" } else { b"R" }
}

/// The field of a cell.
fn field(alloc: Global, cell: Cell) -> Result<Field, Memory>
    requires { IsSmall cell }
    ensures { IfOk result (λ field. field ≡ field_of cell) }
{
    match cell {
        Cell::Number(number) => Ok(Field::Num(number as i64)),
        Cell::Variant(out) => {
            let bytes = Vec::from_slice(alloc, variant_name(out))?;
            Ok(Field::Text(FieldBytes::new(alloc, Bytes::from_vec(bytes))?))
        }
        Cell::Nothing => Ok(Field::Empty),
    }
}

/// The row of some cells.
fn fields(alloc: Global, cells: &[Cell]) -> Result<Seq<Field>, Memory>
    requires { AreSmall cells.now }
    ensures { IfOk result (λ row. row ≡ fields_of cells.now) }
{
    let mut row = Seq::new(alloc);
    for cell in cells {
        row.push(field(alloc, *cell)?)?;
    }
    Ok(row)
}

/// Puts the row of some cells behind others.
pub(crate) fn add(alloc: Global, rows: &mut Seq<Seq<Field>>, cells: &[Cell]) -> Result<(), Memory>
    requires { AreSmall cells.now }
    ensures { OnOk result (rows.new ≡ rows.old ++ fields_of cells.now ∷ []) }
{
    rows.push(fields(alloc, cells)?)
}
