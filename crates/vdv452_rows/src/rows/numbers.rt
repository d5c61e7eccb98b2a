//! Rows of numbers alone, as the tables of this project have them.

ghost use Rattle.std.specs.Prelude.{◌≡◌};
ghost use Rattle.vdv452_rows.specs.TypedRows as typed_rows;
ghost use Rattle.vdv452_rows.specs.Values as values;

use super::TypedRow;
use crate::cell::Cell;
use plan_core::{Memory, Seq};
use std::alloc::Global;

fn number_of(cell: &Cell) -> u32
    ensures { result ≡ values.number_of cell.now }
{
    match cell {
        Cell::Number(number) => *number,
        _ => 0,
    }
}

impl TypedRow for Seq<u32> {
    ghost row_of = { typed_rows.number_row };

    fn from_cells(alloc: Global, cells: &[Cell], _place: u32) -> Result<Seq<u32>, Memory> {
        Ok(Seq::from_vec(cells.iter().map(number_of).collect(alloc)?))
    }
}
