//! Prices that columns lower where their classes ask for a place, worked by hand.

ghost use Rattle.std.specs.Prelude.{◌≢◌, ◌<◌, ◌≤◌, [], IfOk};
ghost use Rattle.plan_core.specs.Limits.{most_worth};
ghost use Rattle.cover_core.specs.Cover.{AllBelow, Rises};
ghost use Rattle.cover_core.specs.Fitting.{AreFit};
ghost use Rattle.class_lowering.specs.Lowering.{HaveItems};

use crate::made_columns::{column, prices};
use class_lowering::{lower_by, lower_in_order};
use column_pool::Pool;
use cover_core::Prices;
use plan_core::{Memory, Price};
use std::alloc::Global;
use std::test::Fail;

/// A pool over three items and two classes, with one column more.
fn with_column(
    alloc: Global,
    pool: Pool,
    class: u32,
    worth: u64,
    list: &[u32],
) -> Result<Pool, Memory>
    requires fit { AreFit 3 2 pool }
    requires some { HaveItems pool }
    requires class { class < 2 }
    requires cheap { worth ≤ most_worth }
    requires rises { Rises list.now }
    requires items { AllBelow 3 list.now }
    requires there { list.now ≢ [] }
    ensures fit { IfOk result (AreFit 3 2) }
    ensures some { IfOk result HaveItems }
{
    let column = column(alloc, class, worth, list)?;
    let mut pool = pool;
    pool.add(column)?;
    Ok(pool)
}

/// Whether a loss is borne in equal parts, rounded up: 1,201 is 601 for each of two items. What the class asks is no loss.
fn columns_lower(alloc: Global) -> Result<bool, Memory> {
    let both = column(alloc, 0, 1, [0, 1].as_slice())?;
    for (asked, first, second) in [(0, 899, 100), (1, 900, 101), (1201, 1500, 701)] {
        let start = [Price(1500), Price(701), Price(-200)];
        let mut prices = prices(alloc, start.as_slice())?;
        lower_by(&mut prices, &both, asked);
        let wanted = [Price(first), Price(second), Price(-200)];
        if prices.items.as_slice() != wanted.as_slice() {
            return Ok(false);
        }
    }
    Ok(true)
}

#[test]
fn losses_of_a_column(rt: HostRuntime) -> Result<(), Fail> {
    assert!(rt; columns_lower(rt.alloc())?);
    Ok(())
}

/// Prices 5,000, 5,000 and 1,000 after a pool whose second class asks 101.
fn lowered_by_pool(alloc: Global) -> Result<Prices, Memory> {
    let pool = with_column(alloc, Pool::new(alloc), 0, 4, [0, 1].as_slice())?;
    let pool = with_column(alloc, pool, 1, 1, [0].as_slice())?;
    let pool = with_column(alloc, pool, 0, 1, [2].as_slice())?;
    let pool = with_column(alloc, pool, 1, 2, [1, 2].as_slice())?;
    let start = [Price(5000), Price(5000), Price(1000)];
    let mut prices = prices(alloc, start.as_slice())?;
    lower_in_order(&mut prices, &pool, [0, 101].as_slice())?;
    Ok(prices)
}

/// Of values -6,000, -4,000, 0 and -4,000 the first takes 3,000 from items 0 and 1, and the second and the last are left with losses of
/// 899 each.
#[test]
fn losses_of_a_pool(rt: HostRuntime) -> Result<(), Fail> {
    let prices = lowered_by_pool(rt.alloc())?;
    assert_eq!(rt;
        prices.items.as_slice(),
        [Price(1101), Price(1550), Price(550)].as_slice()
    );
    Ok(())
}
