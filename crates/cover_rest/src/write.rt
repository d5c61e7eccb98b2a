//! Plans of a rest, written out.

ghost use Rattle.std.specs.Prelude.{◌≡◌, ◌++◌, IfOk, OnOk};
ghost use Rattle.cover_rest.specs.Rest as spec;

use crate::stand::body;
use cover_core::{Column, Items, Plan};
use plan_core::{Memory, Seq};
use std::alloc::Global;

/// Puts what the items of a list stand for last.
fn write(bodies: &[Seq<u32>], list: &[u32], items: &mut Vec<u32>) -> Result<(), Memory>
    ensures { OnOk result (items.new.items ≡ items.old.items ++ spec.written bodies.now list.now) }
{
    for item in list {
        items.extend_from_slice(body(bodies, *item))?;
    }
    Ok(())
}

/// A column of the rest, written out.
fn written_column(alloc: Global, bodies: &[Seq<u32>], column: &Column) -> Result<Column, Memory>
    ensures { IfOk result (λ written. written ≡ spec.written_column bodies.now column.now) }
{
    let mut items = Vec::new(alloc);
    write(bodies, column.items.as_slice(), &mut items)?;
    let items = Items::from_slice(alloc, items.as_slice())?;
    Ok(Column {
        class: column.class,
        worth: column.worth,
        items,
    })
}

/// A plan of the rest, written out: its columns in the same order, each with what its items stand for in their place, and with its class
/// and worth. What an item stands for is found at its place in `bodies`; an item past their end stands for nothing. `Memory` is the only
/// error. It takes time in proportion to what is written.
pub fn written_out(alloc: Global, bodies: &[Seq<u32>], plan: &Plan) -> Result<Plan, Memory>
    ensures { IfOk result (λ written. written.columns ≡ spec.written_plan bodies.now plan.now.columns) }
{
    let mut columns = Seq::new(alloc);
    for column in plan.columns.as_slice() {
        columns.push(written_column(alloc, bodies, column)?)?;
    }
    Ok(Plan { columns })
}
