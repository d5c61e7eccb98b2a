//! The rows of a table: a `rec` line.

ghost use Rattle.std.specs.Prelude.{◌≡◌};
ghost use Rattle.std.specs.Option.{option_copied};
ghost use Rattle.vdv451_text.specs.Answers.{AnswersAs};
ghost use Rattle.vdv451_text.specs.Lines.{fields_of};
ghost use Rattle.vdv451_text.specs.RowView.{row_end, row_of};

use crate::fault::TextKind;
use crate::few::{FieldKind, few_pieces, is_void};
use crate::pieces::{first_field, trimmed, value};
use crate::table::{Field, Head};
use plan_core::Seq;
use std::alloc::Global;

/// Behind the last column stands nothing, or one field with nothing in it.
fn end_row(alloc: Global, rest: Option<&[u8]>) -> Result<(), TextKind>
    ensures { AnswersAs result (row_end (fields_of (option_copied rest.entry))) }
{
    let further = few_pieces(alloc, FieldKind::Value, 1, rest)?;
    match further.as_slice() {
        [] => Ok(()),
        [only] if is_void(only) => Ok(()),
        _ => Err(TextKind::Count),
    }
}

/// The values of a `rec` line, one for each column.
pub fn read_row(
    alloc: Global,
    columns: &[Head],
    rest: Option<&[u8]>,
) -> Result<Seq<Field>, TextKind>
    ensures { AnswersAs result (row_of columns.now (fields_of (option_copied rest.entry))) }
{
    let mut row = Vec::with_capacity(alloc, columns.len())?;
    let mut rest = rest;
    for column in columns {
        let Some(bytes) = rest else {
            return Err(TextKind::Count);
        };
        let (part, after) = first_field(bytes);
        row.push(value(alloc, column.format.as_slice(), trimmed(part))?)?;
        rest = after;
    }
    end_row(alloc, rest)?;
    Ok(Seq::from_vec(row))
}
