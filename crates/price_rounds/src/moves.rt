//! How columns move prices, and how a pool gets them.

ghost use Rattle.std.specs.Prelude.{◌≡◌, ◌≢◌, ◌≤◌, ◌≤ℤ◌, pos, List, length, IfOk, OnOk};
ghost use Rattle.plan_core.specs.Limits.{most_price};
ghost use Rattle.cover_core.specs.Cover.{Problem};
ghost use Rattle.cover_core.specs.FirstLeast.{AllWithin};
ghost use Rattle.cover_core.specs.Fitting.{AreFit};
ghost use Rattle.worker_price.specs.Work.{ArePricesFor};
ghost use Rattle.price_rounds.specs.Rounds.{greatest_of, lowered_in_order, pool_with, turned_often};
ghost use Rattle.price_rounds.specs.Steps.{IsSized, AreReady};

use column_pool::Pool;
use cover_core::{Column, Columns, Prices};
use cover_master::{lower, turn};
use plan_core::{Memory, Price, Seq};
use std::alloc::Global;

/// The caps of all classes of a problem, by class; there are at most 3,000 items and 32 classes.
///
/// # Errors
///
/// [`Memory`] where it is refused.
pub fn caps_of<C: Columns>(alloc: Global, columns: &C) -> Result<Seq<u32>, Memory>
    ensures caps { IfOk result (λ caps. caps ≡ (C.problem columns.now).caps) }
    ensures sized { IsSized (C.problem columns.now) }
{
    let _items = columns.items();
    let mut caps = Seq::new(alloc);
    for class in 0..columns.classes() {
        caps.push(columns.cap(class))?;
    }
    Ok(caps)
}

/// The greatest price, at least 0.
pub(crate) fn greatest(prices: &[Price]) -> i64
    requires { AllWithin most_price prices.now }
    ensures value { result ≡ greatest_of prices.now }
    ensures low { pos 0 ≤ℤ result }
    ensures high { result ≤ℤ pos most_price }
{
    let mut greatest = 0;
    for price in prices {
        greatest = price.0.max(greatest);
    }
    greatest
}

/// Adds columns of a problem to a pool, one after another; a column that the pool has is not added.
///
/// # Errors
///
/// [`Memory`] where it is refused.
pub fn add_all<C: Columns>(
    pool: &mut Pool,
    columns: Seq<Column>,
    _columns: &C,
) -> Result<(), Memory>
    requires pool { AreReady (C.problem _columns.now) pool.old }
    requires columns { AreReady (C.problem _columns.now) columns }
    ensures pool { OnOk result (pool.new ≡ pool_with pool.old columns) }
    ensures ready { OnOk result (AreReady (C.problem _columns.now) pool.new) }
{
    for column in columns.into_vec() {
        pool.add(column)?;
    }
    Ok(())
}

/// The prices after the price steps of a round.
pub(crate) fn turn_often<C: Columns>(
    alloc: Global,
    columns: &C,
    pool: &Pool,
    prices: Prices,
    caps: &[u32],
    size: i64,
) -> Result<Prices, Memory>
    requires sized { IsSized (C.problem columns.now) }
    requires caps { caps.now ≡ (C.problem columns.now).caps }
    requires pool { AreReady (C.problem columns.now) pool.now }
    requires prices { ArePricesFor (C.problem columns.now) prices.items }
    requires size_low { pos 0 ≤ℤ size }
    requires size_high { size ≤ℤ pos most_price }
    ensures turned { IfOk result (λ new. new.items ≡ turned_often 16 pool.now (C.problem columns.now).caps size prices.items) }
    ensures ready { IfOk result (λ new. ArePricesFor (C.problem columns.now) new.items) }
{
    let mut prices = prices;
    for _turn in 0..16u32 {
        prices = turn(alloc, pool.as_slice(), &prices, caps, size)?;
    }
    Ok(prices)
}

/// Lowers prices by columns, one after another.
pub(crate) fn lower_all<C: Columns>(prices: &mut Prices, columns: &[Column], _columns: &C)
    requires sized { IsSized (C.problem _columns.now) }
    requires columns { AreReady (C.problem _columns.now) columns.now }
    requires prices { ArePricesFor (C.problem _columns.now) prices.old.items }
    ensures lowered { prices.new.items ≡ lowered_in_order columns.now prices.old.items }
    ensures ready { ArePricesFor (C.problem _columns.now) prices.new.items }
{
    for column in columns {
        lower(prices, column);
    }
}
