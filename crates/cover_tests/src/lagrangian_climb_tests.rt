//! Climbs whose outcomes a second program gave.

ghost use Rattle.std.specs.Prelude.{◌≡◌, ◌<◌, ◌≤◌, ◌+◌, ◌≤ℤ◌, pos, length, IfOk};
ghost use Rattle.plan_core.specs.Limits.{most_worth};
ghost use Rattle.cover_core.specs.Cover.{AllBelow, Rises};
ghost use Rattle.cover_core.specs.Fitting.{AreFit};
ghost use Rattle.lagrangian_climb.specs.Climbs.{IsPriced};

use crate::made_columns::{column, prices};
use cover_core::{Column, Prices};
use lagrangian_climb::{Climbed, Rest, Span, climb};
use plan_core::{Memory, Price, Seq};
use std::alloc::Global;
use std::test::Fail;

/// One column more.
fn add(
    alloc: Global,
    pool: Seq<Column>,
    class: u32,
    worth: u64,
    list: &[u32],
) -> Result<Seq<Column>, Memory>
    requires fit { AreFit 3 2 pool }
    requires class { class < 2 }
    requires cheap { worth ≤ most_worth }
    requires rises { Rises list.now }
    requires items { AllBelow 3 list.now }
    ensures fit { IfOk result (AreFit 3 2) }
    ensures len { IfOk result (λ new. length new ≡ length pool + 1) }
{
    let column = column(alloc, class, worth, list)?;
    let mut pool = pool;
    pool.push(column)?;
    Ok(pool)
}

/// Each of three items alone, in each of two classes.
fn single_columns(alloc: Global) -> Result<Seq<Column>, Memory>
    ensures fit { IfOk result (AreFit 3 2) }
    ensures len { IfOk result (λ new. length new ≡ 6) }
{
    let pool = add(alloc, Seq::new(alloc), 0, 4, [0].as_slice())?;
    let pool = add(alloc, pool, 0, 5, [1].as_slice())?;
    let pool = add(alloc, pool, 0, 6, [2].as_slice())?;
    let pool = add(alloc, pool, 1, 5, [0].as_slice())?;
    let pool = add(alloc, pool, 1, 5, [1].as_slice())?;
    add(alloc, pool, 1, 7, [2].as_slice())
}

/// Nine columns over three items in two classes.
fn columns(alloc: Global) -> Result<Seq<Column>, Memory>
    ensures fit { IfOk result (AreFit 3 2) }
    ensures len { IfOk result (λ new. length new ≡ 9) }
{
    let pool = single_columns(alloc)?;
    let pool = add(alloc, pool, 0, 7, [0, 1].as_slice())?;
    let pool = add(alloc, pool, 1, 8, [1, 2].as_slice())?;
    add(alloc, pool, 0, 9, [0, 2].as_slice())
}

/// Three prices.
fn three_prices(alloc: Global, first: i64, second: i64, third: i64) -> Result<Prices, Memory>
    requires first_low { pos 0 ≤ℤ first }
    requires first_high { first ≤ℤ pos 10000 }
    requires second_low { pos 0 ≤ℤ second }
    requires second_high { second ≤ℤ pos 10000 }
    requires third_low { pos 0 ≤ℤ third }
    requires third_high { third ≤ℤ pos 10000 }
    ensures { IfOk result (IsPriced 3) }
{
    let list = [Price(first), Price(second), Price(third)];
    prices(alloc, list.as_slice())
}

/// A climb over the nine columns.
fn climb_result(
    alloc: Global,
    start: Prices,
    fixed: [bool; 3],
    caps: [u32; 2],
    aim: i64,
    pace: u32,
) -> Result<Climbed, Memory>
    requires start { IsPriced 3 start }
    requires pace { pace ≤ 512 }
{
    let pool = columns(alloc)?;
    let fixed = Seq::new(alloc).with_items(fixed.as_slice())?;
    let caps = Seq::new(alloc).with_items(caps.as_slice())?;
    let rest = Rest { fixed, caps, aim };
    let spans = [
        Span {
            low: -4000,
            high: 10000,
        },
        Span {
            low: -5000,
            high: 10000,
        },
        Span {
            low: -6000,
            high: 14000,
        },
    ];
    climb(
        alloc,
        pool.as_slice(),
        &start,
        &rest,
        spans.as_slice(),
        pace,
    )
}

/// Whether a climb has a bound and a pace, these prices of items and of classes, and chose each column as often.
fn is_climb(
    climbed: &Climbed,
    numbers: (i128, u32),
    prices: [i64; 3],
    class_prices: [i64; 2],
    counts: [u32; 9],
) -> bool {
    let prices = [Price(prices[0]), Price(prices[1]), Price(prices[2])];
    (climbed.peak.bound, climbed.peak.pace) == numbers
        && climbed.peak.prices.items.as_slice() == prices.as_slice()
        && climbed.peak.class_prices.as_slice() == class_prices.as_slice()
        && climbed.counts.as_slice() == counts.as_slice()
}

/// An item is fixed, and its class has one place less.
#[test]
fn climb_of_a_rest(rt: HostRuntime) -> Result<(), Fail> {
    let start = three_prices(rt.alloc(), 9000, 9000, 9000)?;
    let climbed = climb_result(rt.alloc(), start, [false, true, false], [1, 1], 8000, 300)?;
    let counts = [0, 0, 0, 1, 0, 99, 0, 0, 100];
    assert!(rt;
        is_climb(
            &climbed,
            (8090, 300),
            [5017, 9000, 7910],
            [1910, 17],
            counts
        )
    );
    Ok(())
}

/// Three places, and a pace that falls.
#[test]
fn climb_of_all(rt: HostRuntime) -> Result<(), Fail> {
    let start = three_prices(rt.alloc(), 2000, 6000, 3100)?;
    let climbed = climb_result(rt.alloc(), start, [false, false, false], [2, 1], 13000, 512)?;
    let counts = [17, 13, 13, 13, 1, 0, 27, 42, 31];
    assert!(rt; is_climb(&climbed, (11308, 151), [4524, 2901, 4832], [356, 0], counts));
    Ok(())
}

/// A small pace that does not fall.
#[test]
fn slow_climb(rt: HostRuntime) -> Result<(), Fail> {
    let start = three_prices(rt.alloc(), 9000, 8000, 4000)?;
    let climbed = climb_result(rt.alloc(), start, [false, false, false], [1, 1], 13000, 40)?;
    let counts = [1, 0, 0, 14, 0, 0, 27, 23, 10];
    assert!(rt; is_climb(&climbed, (11964, 40), [4920, 3036, 4975], [920, 0], counts));
    Ok(())
}
