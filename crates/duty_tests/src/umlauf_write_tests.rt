//! Blocks put in printed order.

use cover_core::{Column, Items, Plan};
use plan_core::Seq;
use std::alloc::Global;
use std::test::Fail;
use umlauf_write::in_printed_order;

/// A block of pool 0 with these trips.
fn block(alloc: Global, worth: u64, trips: &[u32]) -> Result<Column, Fail> {
    let items = Items::from_slice(alloc, trips)?;
    Ok(Column {
        class: 0,
        worth,
        items,
    })
}

/// Blocks of which the first begins with trip 2, the second with trip 4 and the third with trip 0.
fn plan(alloc: Global) -> Result<Plan, Fail> {
    let mut columns = Seq::new(alloc);
    columns.push(block(alloc, 1, &[2, 6])?)?;
    columns.push(block(alloc, 2, &[4])?)?;
    columns.push(block(alloc, 3, &[0, 1, 9])?)?;
    Ok(Plan { columns })
}

/// The worths of the first three blocks, in their order.
fn worths(columns: &[Column]) -> Option<[u64; 3]> {
    match columns {
        [first, second, third] => Some([first.worth, second.worth, third.worth]),
        _ => None,
    }
}

/// The worths of the blocks in printed order.
fn printed_worths(alloc: Global) -> Result<Option<[u64; 3]>, Fail> {
    let plan = in_printed_order(plan(alloc)?)?;
    Ok(worths(plan.columns.as_slice()))
}

#[test]
fn blocks_are_printed_by_their_first_trips(rt: HostRuntime) -> Result<(), Fail> {
    assert!(rt; printed_worths(rt.alloc())? == Some([3, 1, 2]));
    Ok(())
}
