//! Columns and prices of the examples.

ghost use Rattle.std.specs.Prelude.{◌≡◌, IfOk};

use cover_core::{Column, Items, Prices};
use plan_core::{Memory, Price, Seq};
use std::alloc::Global;

/// A column.
pub(crate) fn column(alloc: Global, class: u32, worth: u64, list: &[u32]) -> Result<Column, Memory>
    ensures class { IfOk result (λ column. column.class ≡ class) }
    ensures worth { IfOk result (λ column. column.worth ≡ worth) }
    ensures items { IfOk result (λ column. column.items ≡ list.now) }
{
    let items = Items::from_slice(alloc, list)?;
    Ok(Column {
        class,
        worth,
        items,
    })
}

/// Prices.
pub(crate) fn prices(alloc: Global, list: &[Price]) -> Result<Prices, Memory>
    ensures { IfOk result (λ prices. prices.items ≡ list.now) }
{
    let items = Seq::new(alloc).with_items(list)?;
    Ok(Prices { items })
}
