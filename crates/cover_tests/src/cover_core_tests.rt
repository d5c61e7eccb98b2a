//! Values of columns, lists of items and costs of plans, worked by hand.

use crate::made_columns::{column, prices};
use cover_core::{Items, Plan, plan_cost, value};
use plan_core::{Memory, Price, Seq};
use std::alloc::Global;
use std::test::Fail;

/// The values of two columns at prices 1,500, 700 and -200.
fn values(alloc: Global) -> Result<(i64, i64), Memory> {
    let start = [Price(1500), Price(700), Price(-200)];
    let prices = prices(alloc, start.as_slice())?;
    let both = column(alloc, 0, 3, [0, 2].as_slice())?;
    let one = column(alloc, 0, 0, [1].as_slice())?;
    Ok((value(&both, &prices), value(&one, &prices)))
}

/// A column worth 3 over items of prices 1,500 and -200 has the value 3,000 - 1,500 + 200.
#[test]
fn values_of_columns(rt: HostRuntime) -> Result<(), Fail> {
    assert_eq!(rt; values(rt.alloc())?, (1700, -700));
    Ok(())
}

/// A list of items is the slice that it was made from, also past the eight that lie in the column.
#[test]
fn items_of_columns(rt: HostRuntime) -> Result<(), Fail> {
    for list in [
        [].as_slice(),
        [7].as_slice(),
        [0, 1, 2, 3, 4, 5, 6, 7, 2999].as_slice(),
    ] {
        let items = Items::from_slice(rt.alloc(), list)?;
        assert_eq!(rt; items.as_slice(), list);
    }
    Ok(())
}

/// What no column costs, and what two columns cost.
fn costs(alloc: Global) -> Result<(u64, u64), Memory> {
    let none = Plan {
        columns: Seq::new(alloc),
    };
    let first = column(alloc, 0, 4000000000, [0].as_slice())?;
    let second = column(alloc, 0, 17, [1].as_slice())?;
    let plan = Plan {
        columns: Seq::from_vec(vec![in alloc; first, second]?),
    };
    Ok((plan_cost(&none), plan_cost(&plan)))
}

/// A plan costs the sum of its worths, and no columns cost nothing.
#[test]
fn costs_of_plans(rt: HostRuntime) -> Result<(), Fail> {
    assert_eq!(rt; costs(rt.alloc())?, (0, 4000000017));
    Ok(())
}
