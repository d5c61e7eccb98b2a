//! Plans of five items.

ghost use Rattle.std.specs.Prelude.{◌≡◌, IfOk};
ghost use Rattle.exchange_tests.specs.Given.{column, settled, tied, loose, mixed, spread, dear, crossed};

use cover_core::{Column, Items, Plan};
use plan_core::{Memory, Seq};
use std::alloc::Global;

/// A column.
fn column(alloc: Global, class: u32, worth: u64, list: &[u32]) -> Result<Column, Memory>
    ensures { IfOk result (λ made. made ≡ column class worth list.now) }
{
    let items = Items::from_slice(alloc, list)?;
    Ok(Column {
        class,
        worth,
        items,
    })
}

/// A plan of which no step lowers the cost.
pub(crate) fn settled_example(alloc: Global) -> Result<Plan, Memory>
    ensures { IfOk result (λ plan. plan.columns ≡ settled) }
{
    let first = column(alloc, 0, 11, [0, 1].as_slice())?;
    let second = column(alloc, 0, 6, [2, 3, 4].as_slice())?;
    Ok(Plan {
        columns: Seq::from_vec(vec![in alloc; first, second]?),
    })
}

/// A plan of which two swaps and a cut lower the cost by 1.
pub(crate) fn tied_example(alloc: Global) -> Result<Plan, Memory>
    ensures { IfOk result (λ plan. plan.columns ≡ tied) }
{
    let first = column(alloc, 0, 10, [0].as_slice())?;
    let second = column(alloc, 1, 7, [1, 2, 3].as_slice())?;
    let third = column(alloc, 0, 10, [4].as_slice())?;
    Ok(Plan {
        columns: Seq::from_vec(vec![in alloc; first, second, third]?),
    })
}

/// A plan of which five swaps may be made.
pub(crate) fn loose_example(alloc: Global) -> Result<Plan, Memory>
    ensures { IfOk result (λ plan. plan.columns ≡ loose) }
{
    let first = column(alloc, 0, 10, [0].as_slice())?;
    let second = column(alloc, 1, 10, [1].as_slice())?;
    let third = column(alloc, 0, 14, [2, 4].as_slice())?;
    let fourth = column(alloc, 0, 10, [3].as_slice())?;
    Ok(Plan {
        columns: Seq::from_vec(vec![in alloc; first, second, third, fourth]?),
    })
}

/// A plan of which four swaps and then a cut may be made: after the first swap its first column is empty, after the second the second one.
pub(crate) fn mixed_example(alloc: Global) -> Result<Plan, Memory>
    ensures { IfOk result (λ plan. plan.columns ≡ mixed) }
{
    let first = column(alloc, 0, 10, [0].as_slice())?;
    let second = column(alloc, 0, 14, [2, 4].as_slice())?;
    let third = column(alloc, 1, 10, [1].as_slice())?;
    let fourth = column(alloc, 0, 10, [3].as_slice())?;
    Ok(Plan {
        columns: Seq::from_vec(vec![in alloc; first, second, third, fourth]?),
    })
}

/// A plan of which three swaps may be made, the second while a third column stands by.
pub(crate) fn spread_example(alloc: Global) -> Result<Plan, Memory>
    ensures { IfOk result (λ plan. plan.columns ≡ spread) }
{
    let first = column(alloc, 1, 10, [1].as_slice())?;
    let second = column(alloc, 0, 10, [0].as_slice())?;
    let third = column(alloc, 0, 14, [2, 4].as_slice())?;
    let fourth = column(alloc, 0, 10, [3].as_slice())?;
    Ok(Plan {
        columns: Seq::from_vec(vec![in alloc; first, second, third, fourth]?),
    })
}

/// A plan of which a cut lowers the cost where class 0 has a place left.
pub(crate) fn dear_example(alloc: Global) -> Result<Plan, Memory>
    ensures { IfOk result (λ plan. plan.columns ≡ dear) }
{
    let first = column(alloc, 0, 11, [0, 1].as_slice())?;
    let second = column(alloc, 1, 7, [2, 3, 4].as_slice())?;
    Ok(Plan {
        columns: Seq::from_vec(vec![in alloc; first, second]?),
    })
}

/// A plan of which two swaps of the same columns lower the cost by 3.
pub(crate) fn crossed_example(alloc: Global) -> Result<Plan, Memory>
    ensures { IfOk result (λ plan. plan.columns ≡ crossed) }
{
    let first = column(alloc, 0, 12, [0, 2, 4].as_slice())?;
    let second = column(alloc, 1, 15, [1, 3].as_slice())?;
    Ok(Plan {
        columns: Seq::from_vec(vec![in alloc; first, second]?),
    })
}
