//! Heads of six items: one of class 1 with the items 1 and 3, which may go on, and a finished one of class 0 with the item 2.

use crate::begun_columns::{begun, column};
use cover_core::{Column, Plan};
use cover_rest::{Begun, bodies, is_rest_list, written_out};
use plan_core::{Memory, Seq};
use std::alloc::Global;
use std::test::Fail;

/// The two heads.
fn heads(alloc: Global) -> Result<[Begun; 2], Memory> {
    let first = begun(alloc, 1, &[1, 3], false)?;
    let second = begun(alloc, 0, &[2], true)?;
    Ok([first, second])
}

/// Whether lists are these.
fn are_lists(lists: &[Seq<u32>], wanted: &[&[u32]]) -> bool {
    if lists.len() != wanted.len() {
        return false;
    }
    for place in 0..lists.len() {
        if lists[place].as_slice() != wanted[place] {
            return false;
        }
    }
    true
}

/// Whether the items of the rest stand for these lists.
fn stand_for(
    alloc: Global,
    heads: &[Begun],
    count: u32,
    wanted: &[&[u32]],
) -> Result<bool, Memory> {
    let bodies = bodies(alloc, heads, count)?;
    Ok(are_lists(bodies.as_slice(), wanted))
}

/// First the heads, and then the items in no head, by number; with no heads each item stands alone.
fn items_stand_for_lists(alloc: Global) -> Result<bool, Memory> {
    let heads = heads(alloc)?;
    Ok(
        stand_for(alloc, &heads, 6, &[&[1, 3], &[2], &[0], &[4], &[5]])?
            && stand_for(alloc, &[], 2, &[&[0], &[1]])?,
    )
}

#[test]
fn items_of_the_rest(rt: HostRuntime) -> Result<(), Fail> {
    assert!(rt; items_stand_for_lists(rt.alloc())?);
    Ok(())
}

/// Lists of the rest: with and without a head, a head that is not first, a second head, a finished head that goes on, a wrong class.
fn lists_are_told(heads: &[Begun]) -> bool {
    let rows: [(u32, &[u32], bool, bool); 16] = [
        (1, &[0], false, true),
        (1, &[0, 3, 4], false, true),
        (0, &[1], false, true),
        (0, &[2, 3], true, true),
        (1, &[4], true, true),
        (0, &[2, 3], false, false),
        (0, &[0], true, false),
        (1, &[1], true, false),
        (0, &[1, 3], true, false),
        (1, &[0, 1], true, false),
        (1, &[3, 0], true, false),
        (1, &[0, 4, 3], true, false),
        (1, &[3, 3], true, false),
        (1, &[0, 5], true, false),
        (1, &[5], true, false),
        (1, &[], true, false),
    ];
    for (class, items, begins, is_list) in rows {
        if is_rest_list(heads, 5, class, items, begins) != is_list {
            return false;
        }
    }
    true
}

fn lists_of_heads_are_told(alloc: Global) -> Result<bool, Memory> {
    let heads = heads(alloc)?;
    Ok(lists_are_told(&heads))
}

#[test]
fn lists_of_the_rest(rt: HostRuntime) -> Result<(), Fail> {
    assert!(rt; lists_of_heads_are_told(rt.alloc())?);
    Ok(())
}

/// A plan of the rest, written out.
fn plan_of_rest(alloc: Global) -> Result<Plan, Memory> {
    let heads = heads(alloc)?;
    let rest = bodies(alloc, &heads, 6)?;
    let mut columns = Seq::new(alloc);
    columns.push(column(alloc, 1, 13, &[0, 3])?)?;
    columns.push(column(alloc, 0, 11, &[1])?)?;
    columns.push(column(alloc, 0, 12, &[2, 4])?)?;
    written_out(alloc, rest.as_slice(), &Plan { columns })
}

fn is_column(column: &Column, class: u32, worth: u64, items: &[u32]) -> bool {
    column.class == class && column.worth == worth && column.items.as_slice() == items
}

/// The columns keep their order, classes and worths.
fn are_written(columns: &[Column]) -> bool {
    match columns {
        [first, second, third] => {
            is_column(first, 1, 13, &[1, 3, 4])
                && is_column(second, 0, 11, &[2])
                && is_column(third, 0, 12, &[0, 5])
        }
        _ => false,
    }
}

fn is_written(alloc: Global) -> Result<bool, Memory> {
    let plan = plan_of_rest(alloc)?;
    Ok(are_written(plan.columns.as_slice()))
}

#[test]
fn a_plan_written_out(rt: HostRuntime) -> Result<(), Fail> {
    assert!(rt; is_written(rt.alloc())?);
    Ok(())
}
