//! Columns that are put into a pool, and their places by value, worked by hand.

ghost use Rattle.std.specs.Prelude.{◌≤◌, OnOk};
ghost use Rattle.plan_core.specs.Limits.{most_worth};
ghost use Rattle.cover_core.specs.Cover.{AllBelow, Rises};
ghost use Rattle.cover_core.specs.Fitting.{AreFit};

use crate::made_columns::{column, prices};
use column_pool::Pool;
use plan_core::{Memory, Price};
use std::alloc::Global;
use std::test::Fail;

/// Whether a column is added once; one of another class or another list is another column.
fn each_is_added_once(alloc: Global) -> Result<bool, Memory> {
    let mut pool = Pool::new(alloc);
    if pool.len() != 0 {
        return Ok(false);
    }
    let list = [0, 1, 2, 3, 4, 5, 6, 7, 8];
    let long = list.as_slice();
    let short = &list[..8];
    for (class, items, is_new) in [
        (0, long, true),
        (0, long, false),
        (1, long, true),
        (0, short, true),
        (1, long, false),
    ] {
        if pool.add(column(alloc, class, 1, items)?)? != is_new {
            return Ok(false);
        }
    }
    Ok(pool.len() == 3 && pool.as_slice().len() == 3 && pool.get(1).class == 1)
}

#[test]
fn additions(rt: HostRuntime) -> Result<(), Fail> {
    assert!(rt; each_is_added_once(rt.alloc())?);
    Ok(())
}

/// Adds a column of class 0 to columns that may be valued at three prices, as this one may.
fn add_fit(alloc: Global, pool: &mut Pool, worth: u64, list: &[u32]) -> Result<bool, Memory>
    requires fit { AreFit 3 32 pool.old }
    requires rises { Rises list.now }
    requires items { AllBelow 3 list.now }
    requires cheap { worth ≤ most_worth }
    ensures { OnOk result (AreFit 3 32 pool.new) }
{
    let column = column(alloc, 0, worth, list)?;
    pool.add(column)
}

/// Whether places are by value, and of equal values by place.
fn places_are_by_value(alloc: Global) -> Result<bool, Memory> {
    let start = [Price(2000), Price(2000), Price(-500)];
    let prices = prices(alloc, start.as_slice())?;
    let mut pool = Pool::new(alloc);
    let third = add_fit(alloc, &mut pool, 1, [2].as_slice())?;
    let second = add_fit(alloc, &mut pool, 1, [1].as_slice())?;
    let both = add_fit(alloc, &mut pool, 1, [0, 1].as_slice())?;
    let first = add_fit(alloc, &mut pool, 1, [0].as_slice())?;
    let places = pool.sorted_by_value(&prices)?;
    Ok(third && second && both && first && places.as_slice() == [2, 1, 3, 0].as_slice())
}

#[test]
fn order_by_value(rt: HostRuntime) -> Result<(), Fail> {
    assert!(rt; places_are_by_value(rt.alloc())?);
    Ok(())
}
