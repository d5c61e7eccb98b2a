//! Lists over a small problem, with their verdicts by hand.

ghost use Rattle.std.specs.Prelude.{◌≡◌, ◌≤◌, length, IfOk};

use crate::made_columns::column;
use crate::three_items::Three;
use cover_core::Column;
use plan_check::{
    ItemTimes, PlanVerdict, check_plan, first_times, first_unlawful, lists_are_judged,
    plan_is_shown, plans_are_found,
};
use plan_core::Memory;
use std::alloc::Global;
use std::test::Fail;

/// A list of a class, with a worth that nobody asks for.
fn list(alloc: Global, class: u32, items: &[u32]) -> Result<Column, Memory>
    ensures { IfOk result (λ list. list.items ≡ items.now) }
{
    column(alloc, class, 77, items)
}

/// A verdict as numbers: what it is, its place and its count, or the worths of a plan.
fn spell(out: &mut Vec<u64>, verdict: &PlanVerdict) -> Result<(), Memory> {
    match verdict {
        PlanVerdict::Lawful(plan) => {
            for column in plan.columns.as_slice() {
                out.push(column.worth)?;
            }
        }
        PlanVerdict::Times { item, count } => {
            out.push(1000 + *item as u64)?;
            out.push(*count as u64)?;
        }
        PlanVerdict::Unlawful { place } => out.push(2000 + *place as u64)?,
        PlanVerdict::Over { class, used } => {
            out.push(3000 + *class as u64)?;
            out.push(*used as u64)?;
        }
    }
    Ok(())
}

/// Whether two lists have a verdict.
fn has(
    alloc: Global,
    first: (u32, &[u32]),
    second: (u32, &[u32]),
    verdict: &[u64],
) -> Result<bool, Memory>
    requires first { length first.1.now ≤ 3 }
    requires second { length second.1.now ≤ 3 }
{
    let one = list(alloc, first.0, first.1)?;
    let two = list(alloc, second.0, second.1)?;
    let lists = [one, two];
    let mut out = Vec::new(alloc);
    spell(&mut out, &check_plan(alloc, &Three, &lists)?)?;
    Ok(out.as_slice() == verdict)
}

#[test]
fn verdicts_of_lists(rt: HostRuntime) -> Result<(), Fail> {
    plan_is_shown::<Three>();
    plans_are_found::<Three>();
    lists_are_judged::<Three>();
    let alloc = rt.alloc();
    // a plan, with the worths of the problem
    assert!(rt;
        has(
            alloc,
            (0, [0].as_slice()),
            (0, [1, 2].as_slice()),
            [3, 5].as_slice()
        )?
    );
    assert!(rt;
        has(
            alloc,
            (1, [1].as_slice()),
            (0, [0, 2].as_slice()),
            [5, 5].as_slice()
        )?
    );
    // an item twice, and one that is in no list, before all else
    assert!(rt;
        has(
            alloc,
            (9, [1, 1].as_slice()),
            (0, [0, 2].as_slice()),
            [1001, 2].as_slice()
        )?
    );
    assert!(rt;
        has(
            alloc,
            (0, [1].as_slice()),
            (0, [0].as_slice()),
            [1002, 0].as_slice()
        )?
    );
    // a list without a worth: by its items, by its class, by an item that is not there
    assert!(rt;
        has(
            alloc,
            (0, [0, 1].as_slice()),
            (1, [2].as_slice()),
            [2001].as_slice()
        )?
    );
    assert!(rt;
        has(
            alloc,
            (2, [0].as_slice()),
            (0, [1, 2].as_slice()),
            [2000].as_slice()
        )?
    );
    assert!(rt;
        has(
            alloc,
            (0, [0, 3].as_slice()),
            (0, [1, 2].as_slice()),
            [2000].as_slice()
        )?
    );
    // a class of one place with two lists
    assert!(rt;
        has(
            alloc,
            (1, [0].as_slice()),
            (1, [1, 2].as_slice()),
            [3001, 2].as_slice()
        )?
    );
    Ok(())
}

/// The first of so many items that does not stand in exactly one of two lists, once.
fn item_of(
    alloc: Global,
    items: u32,
    first: &[u32],
    second: &[u32],
) -> Result<Option<ItemTimes>, Memory>
    requires first { length first.now ≤ 3 }
    requires second { length second.now ≤ 3 }
{
    let one = list(alloc, 9, first)?;
    let two = list(alloc, 9, second)?;
    let lists = [one, two];
    first_times(alloc, items, &lists)
}

/// The place of the first of two lists that is no column of its class.
fn place_of(
    alloc: Global,
    first: (u32, &[u32]),
    second: (u32, &[u32]),
) -> Result<Option<u32>, Memory> {
    let one = list(alloc, first.0, first.1)?;
    let two = list(alloc, second.0, second.1)?;
    let lists = [one, two];
    Ok(first_unlawful(&Three, &lists))
}

#[test]
fn first_items_and_lists(rt: HostRuntime) -> Result<(), Fail> {
    let alloc = rt.alloc();
    // each of three stands once, and what is no item is passed over
    assert!(rt; item_of(alloc, 3, [0].as_slice(), [1, 2, 7].as_slice())?.is_none());
    assert!(rt;
        item_of(alloc, 3, [1, 1].as_slice(), [0, 2].as_slice())?
            == Some(ItemTimes { item: 1, count: 2 })
    );
    assert!(rt;
        item_of(alloc, 3, [1].as_slice(), [2].as_slice())? == Some(ItemTimes { item: 0, count: 0 })
    );
    // two columns of a class of one place, without item 0 and with item 1 twice
    assert!(rt; place_of(alloc, (1, [1].as_slice()), (1, [1, 2].as_slice()))?.is_none());
    // a list without a worth: by its class, by its items
    assert!(rt; place_of(alloc, (2, [0].as_slice()), (0, [2].as_slice()))? == Some(0));
    assert!(rt; place_of(alloc, (0, [0].as_slice()), (0, [2].as_slice()))? == Some(1));
    Ok(())
}
