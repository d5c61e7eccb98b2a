//! Lists, columns and what they begin with.

ghost use Rattle.std.specs.Prelude.{◌≡◌, IfOk};

use cover_core::{Column, Items};
use cover_rest::Begun;
use plan_core::{Memory, Seq};
use std::alloc::Global;

/// A list of numbers.
pub fn list(alloc: Global, items: &[u32]) -> Result<Seq<u32>, Memory>
    ensures { IfOk result (λ list. list ≡ items.now) }
{
    Ok(Seq::from_vec(Vec::from_slice(alloc, items)?))
}

/// What a column of a class begins with.
pub fn begun(alloc: Global, class: u32, items: &[u32], finished: bool) -> Result<Begun, Memory>
    ensures { IfOk result (λ begun. begun ≡ record { class = class; items = items.now; finished = finished }) }
{
    Ok(Begun {
        class,
        items: list(alloc, items)?,
        finished,
    })
}

/// A column.
pub fn column(alloc: Global, class: u32, worth: u64, items: &[u32]) -> Result<Column, Memory>
    ensures { IfOk result (λ column. column ≡ record { class = class; worth = worth; items = items.now }) }
{
    Ok(Column {
        class,
        worth,
        items: Items::from_slice(alloc, items)?,
    })
}
