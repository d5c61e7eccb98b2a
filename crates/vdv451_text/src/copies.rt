//! Copies of rows and of columns.

ghost use Rattle.std.specs.Prelude.{◌≡◌, IfOk};

use crate::table::{Field, Head};
use plan_core::{Memory, Seq};
use std::alloc::Global;

/// A row's fields once more. `Memory` is the only error.
pub fn copied_row(alloc: Global, row: &[Field]) -> Result<Seq<Field>, Memory>
    ensures { IfOk result (λ copy. copy ≡ row.now) }
{
    let mut copy = Seq::new(alloc);
    for field in row {
        copy.push(field.clone()?)?;
    }
    Ok(copy)
}

/// The columns of a table once more. `Memory` is the only error.
pub fn copied_columns(alloc: Global, columns: &[Head]) -> Result<Seq<Head>, Memory>
    ensures { IfOk result (λ copy. copy ≡ columns.now) }
{
    let mut copy = Seq::new(alloc);
    for column in columns {
        copy.push(column.clone()?)?;
    }
    Ok(copy)
}
