//! Start prices, step sizes, price steps and lowered prices, worked by hand.

ghost use Rattle.std.specs.Prelude.{◌≡◌, ◌≢◌, ◌≤◌, [], length};
ghost use Rattle.plan_core.specs.Limits.{most_price, most_worth};
ghost use Rattle.cover_core.specs.Cover.{AllBelow, Rises};
ghost use Rattle.cover_core.specs.FirstLeast.{AllWithin};

use crate::made_columns::{column, prices};
use crate::three_items::Three;
use cover_core::{
    Column, Prices, backward_order, best_is_first_least, least_is_paid, plan_sizes, weak_duality,
};
use cover_master::{lower, start_prices, step_size, turn};
use plan_core::{Memory, Price};
use std::alloc::Global;
use std::test::Fail;

/// The laws hold of this problem, and each item starts at a thousand times its least worth alone.
#[test]
fn starts(rt: HostRuntime) -> Result<(), Fail> {
    weak_duality::<Three>();
    least_is_paid::<Three>();
    plan_sizes::<Three>();
    best_is_first_least::<Three>();
    backward_order();
    let prices = start_prices(rt.alloc(), &Three)?;
    assert_eq!(rt;
        prices.items.as_slice(),
        [Price(3000), Price(4000), Price(0)].as_slice()
    );
    Ok(())
}

/// The greatest start price by one more than the round, at least 1.
#[test]
fn step_sizes(rt: HostRuntime) {
    assert_eq!(rt; step_size(2500000, 1), 1250000);
    assert_eq!(rt; step_size(2500000, 2), 833333);
    assert_eq!(rt; step_size(0, 1), 1);
    assert_eq!(rt; step_size(10000000000000, 200), 49751243781);
}

/// Whether each price rises by the size of a price step with an empty pool.
fn empty_pool_raises(alloc: Global) -> Result<bool, Memory> {
    let empty: Vec<Column> = Vec::new(alloc);
    let low = prices(alloc, [Price(1000), Price(10000000000000)].as_slice())?;
    let raised = turn(alloc, empty.as_slice(), &low, [1].as_slice(), 500)?;
    let wanted = [Price(1500), Price(10000000000000)];
    Ok(raised.items.as_slice() == wanted.as_slice())
}

/// Two prices of 2,000 after a price step over a column of item 1 and one of item 0, both worth 1, in a class with so many places.
fn prices_after_step(alloc: Global, places: u32) -> Result<Prices, Memory> {
    let equal = prices(alloc, [Price(2000), Price(2000)].as_slice())?;
    let pool = vec![in alloc;
        column(alloc, 0, 1, [1].as_slice())?,
        column(alloc, 0, 1, [0].as_slice())?,
    ]?;
    turn(alloc, pool.as_slice(), &equal, [places].as_slice(), 500)
}

/// Of columns of equal value the first by place is chosen, and both where there are places for both.
#[test]
fn turns(rt: HostRuntime) -> Result<(), Fail> {
    assert!(rt; empty_pool_raises(rt.alloc())?);
    for (places, first) in [(1, 2500), (2, 2000)] {
        let turned = prices_after_step(rt.alloc(), places)?;
        assert_eq!(rt;
            turned.items.as_slice(),
            [Price(first), Price(2000)].as_slice()
        );
    }
    Ok(())
}

/// Whether a column of class 0 lowers three prices to others.
fn is_lowered(
    alloc: Global,
    given: [Price; 3],
    worth: u64,
    list: &[u32],
    wanted: [Price; 3],
) -> Result<bool, Memory>
    requires moderate { AllWithin most_price given }
    requires three { length given ≡ 3 }
    requires cheap { worth ≤ most_worth }
    requires some { list.now ≢ [] }
    requires rises { Rises list.now }
    requires items { AllBelow 3 list.now }
{
    let mut prices = prices(alloc, given.as_slice())?;
    let column = column(alloc, 0, worth, list)?;
    lower(&mut prices, &column);
    Ok(prices.items.as_slice() == wanted.as_slice())
}

/// A loss of 1,201 is 601 for each of two items; a column without a loss lowers nothing; a price stays in range.
#[test]
fn lowerings(rt: HostRuntime) -> Result<(), Fail> {
    let alloc = rt.alloc();
    let high = [Price(1500), Price(701), Price(-200)];
    let low = [Price(899), Price(100), Price(-200)];
    assert!(rt; is_lowered(alloc, high, 1, [0, 1].as_slice(), low)?);
    assert!(rt; is_lowered(alloc, low, 1, [0, 1].as_slice(), low)?);
    let wide = [
        Price(10000000000000),
        Price(-9999999999995),
        Price(10000000000000),
    ];
    let narrow = [
        Price(6666666666665),
        Price(-10000000000000),
        Price(6666666666665),
    ];
    assert!(rt; is_lowered(alloc, wide, 0, [0, 1, 2].as_slice(), narrow)?);
    Ok(())
}
