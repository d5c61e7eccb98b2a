//! Pools that are rounded to plans, worked by hand.

ghost use Rattle.std.specs.Prelude.{◌≡◌, ◌<◌, ◌≤ℤ◌, pos, length, IfOk, OnOk};
ghost use Rattle.plan_core.specs.Limits.{most_price};
ghost use Rattle.cover_core.specs.Cover.{AllBelow};
ghost use Rattle.cover_core.specs.Plans.{AreColumns};
ghost use Rattle.cover_core.specs.FirstLeast.{AreCheap, AllWithin};
ghost use Rattle.exchange_tests.specs.Five.{five};

use crate::five_items::{Five, spell};
use column_pool::Pool;
use cover_core::{Column, Columns, Items, Prices};
use plan_core::{Memory, Price, Seq};
use plan_round::{RoundFault, round, rounds_to_plan};
use std::alloc::Global;
use std::test::Fail;

/// Adds a column with its worth.
fn add(
    alloc: Global,
    given: &Five,
    pool: &mut Pool,
    class: u32,
    list: &[u32],
) -> Result<bool, Memory>
    requires class { class < 2 }
    requires items { AllBelow 5 list.now }
    requires pool { AreColumns (five given.now.places given.now.bar) pool.old }
    requires cheap { AreCheap pool.old }
    ensures pool { OnOk result (AreColumns (five given.now.places given.now.bar) pool.new) }
    ensures cheap { OnOk result (AreCheap pool.new) }
{
    match given.worth(class, list) {
        None => Ok(false),
        Some(worth) => {
            let items = Items::from_slice(alloc, list)?;
            pool.add(Column {
                class,
                worth,
                items,
            })
        }
    }
}

/// What a pool is rounded to, as numbers: those of the plan, or 200 and the item in front of those of the part.
fn rounding_as_numbers(
    alloc: Global,
    given: &Five,
    pool: &Pool,
    prices: &Prices,
) -> Result<Vec<u64>, Memory>
    requires pool { AreColumns (five given.now.places given.now.bar) pool.now }
    requires cheap { AreCheap pool.now }
    requires prices { length prices.now.items ≡ 5 }
    requires moderate { AllWithin most_price prices.now.items }
{
    let mut out = Vec::new(alloc);
    match round(alloc, given, pool, prices) {
        Ok(plan) => {
            spell(&mut out, plan.columns.as_slice())?;
        }
        Err(RoundFault::NotPlaced { item, partial }) => {
            out.push(200)?;
            out.push(item as u64)?;
            spell(&mut out, partial.columns.as_slice())?;
        }
        Err(RoundFault::Memory) => return Err(Memory),
    }
    Ok(out)
}

/// Prices.
fn prices(alloc: Global, list: &[Price]) -> Result<Prices, Memory>
    ensures { IfOk result (λ prices. prices.items ≡ list.now) }
{
    let items = Seq::new(alloc).with_items(list)?;
    Ok(Prices { items })
}

/// What an empty pool is rounded to at equal prices, as numbers.
fn insertion_as_numbers(alloc: Global, places: u8, bar: u32) -> Result<Vec<u64>, Memory> {
    let given = Five { places, bar };
    let prices = prices(alloc, [Price(2000); 5].as_slice())?;
    let empty = Pool::new(alloc);
    rounding_as_numbers(alloc, &given, &empty, &prices)
}

/// With an empty pool each item is put in: 0 and 3 into new columns, and the others behind them; with a single place in each class item 3
/// goes into a new column of the second class. A first item without any worth is left beside an empty part.
#[test]
fn insertion_alone(rt: HostRuntime) -> Result<(), Fail> {
    rounds_to_plan::<Five>();
    for (places, bar, wanted) in [
        (3, 0, [0, 6, 0, 1, 2, 99, 0, 11, 3, 4, 99].as_slice()),
        (1, 0, [0, 6, 0, 1, 2, 99, 1, 12, 3, 4, 99].as_slice()),
        (3, 1, [200, 0].as_slice()),
    ] {
        let found = insertion_as_numbers(rt.alloc(), places, bar)?;
        assert_eq!(rt; found.as_slice(), wanted);
    }
    Ok(())
}

/// Whether a column of item 2 and one of item 0 are put into a pool, and what it is rounded to, as numbers, at prices of 2,000 but for the
/// first.
fn two_rounded(alloc: Global, first: i64) -> Result<(bool, Vec<u64>), Memory>
    requires low { pos 0 ≤ℤ first }
    requires high { first ≤ℤ pos 10000 }
{
    let wide = Five { places: 3, bar: 0 };
    let list = [
        Price(first),
        Price(2000),
        Price(2000),
        Price(2000),
        Price(2000),
    ];
    let prices = prices(alloc, list.as_slice())?;
    let mut pool = Pool::new(alloc);
    let one = add(alloc, &wide, &mut pool, 0, [2].as_slice())?;
    let other = add(alloc, &wide, &mut pool, 0, [0].as_slice())?;
    let found = rounding_as_numbers(alloc, &wide, &pool, &prices)?;
    Ok((one && other, found))
}

/// Of columns of equal value the first by place is taken first, and item 1 goes into the first column at a tie; item 4 goes into a
/// column where a new one raises the cost as much. With a higher price for item 0 its column is taken first.
#[test]
fn ties(rt: HostRuntime) -> Result<(), Fail> {
    for (first, wanted) in [
        (2000, [0, 6, 1, 2, 3, 99, 0, 20, 0, 4, 99].as_slice()),
        (2001, [0, 9, 0, 1, 3, 99, 0, 14, 2, 4, 99].as_slice()),
    ] {
        let (added, found) = two_rounded(rt.alloc(), first)?;
        assert!(rt; added && found.as_slice() == wanted, "{first}");
    }
    Ok(())
}

/// Adds columns of class 0: items 2, 3, and 1 with 2.
fn add_first(alloc: Global, given: &Five, pool: &mut Pool) -> Result<(), Memory>
    requires pool { AreColumns (five given.now.places given.now.bar) pool.old }
    requires cheap { AreCheap pool.old }
    ensures pool { OnOk result (AreColumns (five given.now.places given.now.bar) pool.new) }
    ensures cheap { OnOk result (AreCheap pool.new) }
{
    let _two = add(alloc, given, pool, 0, [2].as_slice())?;
    let _three = add(alloc, given, pool, 0, [3].as_slice())?;
    let _both = add(alloc, given, pool, 0, [1, 2].as_slice())?;
    Ok(())
}

/// Whether a column is not taken where its class is full or one of its items is not free, and item 4 is left where both classes are full.
fn full_classes_take_none(alloc: Global) -> Result<bool, Memory> {
    let narrow = Five { places: 1, bar: 0 };
    let list = [Price(0), Price(500), Price(1000), Price(500), Price(0)];
    let prices = prices(alloc, list.as_slice())?;
    let mut pool = Pool::new(alloc);
    add_first(alloc, &narrow, &mut pool)?;
    let both = add(alloc, &narrow, &mut pool, 1, [2, 3].as_slice())?;
    let first = add(alloc, &narrow, &mut pool, 1, [0].as_slice())?;
    let found = rounding_as_numbers(alloc, &narrow, &pool, &prices)?;
    let wanted = [200, 4, 0, 6, 1, 2, 3, 99, 1, 10, 0, 99];
    Ok(both && first && found.as_slice() == wanted.as_slice())
}

#[test]
fn full_classes(rt: HostRuntime) -> Result<(), Fail> {
    assert!(rt; full_classes_take_none(rt.alloc())?);
    Ok(())
}

/// Whether an item that has no worth alone is left where no column takes it.
fn worthless_item_is_left(alloc: Global) -> Result<bool, Memory> {
    let high = Five { places: 1, bar: 4 };
    let prices = prices(alloc, [Price(2000); 5].as_slice())?;
    let mut pool = Pool::new(alloc);
    let first = add(alloc, &high, &mut pool, 0, [0, 1].as_slice())?;
    let second = add(alloc, &high, &mut pool, 1, [1, 2].as_slice())?;
    let found = rounding_as_numbers(alloc, &high, &pool, &prices)?;
    Ok(first && second && found.as_slice() == [200, 3, 0, 6, 0, 1, 2, 99].as_slice())
}

#[test]
fn no_worth_alone(rt: HostRuntime) -> Result<(), Fail> {
    assert!(rt; worthless_item_is_left(rt.alloc())?);
    Ok(())
}
