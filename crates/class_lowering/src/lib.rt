//! Prices (dual values) are lowered by the columns of a pool, in the order of their reduced costs, where classes ask for their places.
//!
//! A class with no place left for a column of a value below 0 *asks* for a place: minus the value of the first column that found none (its
//! class price, in the words of linear programming). A column has a *loss* where its value and what its class asks are together below 0.
//! Columns go by value and place; each that has a loss at the prices reached by then takes it from the prices of its items, in equal
//! shares that are rounded up. So what is priced at the new prices is mostly not what the pool has already: where no price came to the end
//! of its range, the column has no loss any more.
//!
//! Prices, values, losses and what classes ask are in thousandths of a cost unit. What both calls do to prices is proved exactly
//! (`specs/Lowering.antt`). It is the lowering of `cover_master` with class prices; Held, Wolfe and Crowder (1974) and the textbook
//! chapters on dual ascent for set partitioning have relatives of it.
#![tactic(auto)]

ghost use Rattle.std.specs.Prelude.{◌≡◌, ◌≢◌, ◌<◌, ◌≤◌, ◌≤ℤ◌, [], pos, length, OnOk, OnErr};
ghost use Rattle.plan_core.specs.Limits.{most_items, most_price, most_worth};
ghost use Rattle.cover_core.specs.Cover.{AllBelow, Rises};
ghost use Rattle.cover_core.specs.FirstLeast.{AllWithin};
ghost use Rattle.cover_core.specs.Fitting.{AreFit};
ghost use Rattle.cover_core.specs.Plans.{number_at};
ghost use Rattle.lagrangian_climb.specs.Choices.{AreAsked};
ghost use Rattle.class_lowering.specs.Lowering.{HaveItems, IsLowered, lowered_prices};

use column_pool::Pool;
use cover_core::{Column, Prices, value};
use cover_master::{lower_items, share};
use plan_core::Memory;

/// Lowers prices by all columns of a pool, by value and place at the old prices, each at the prices reached by then. There are at most
/// 3,000 items and 32 classes; prices are from -10,000,000,000,000 to 10,000,000,000,000, and so they stay; each class asks from 0 to
/// 30,000,000,000,000,000. Each column has items, which rise and are there, and is worth at most 4,000,000,000. Time is that of a sort by
/// value and of one walk through all items of all columns.
///
/// # Errors
///
/// [`Memory`] where it is refused: then no price has changed.
pub fn lower_in_order(prices: &mut Prices, pool: &Pool, asked: &[i64]) -> Result<(), Memory>
    requires few { length prices.old.items ≤ most_items }
    requires moderate { AllWithin most_price prices.old.items }
    requires classes { length asked.now ≤ 32 }
    requires asked { AreAsked asked.now }
    requires fit { AreFit (length prices.old.items) (length asked.now) pool.now }
    requires some { HaveItems pool.now }
    ensures lowered { OnOk result (IsLowered pool.now asked.now prices.old.items prices.new.items) }
    ensures moderate { AllWithin most_price prices.new.items }
    ensures len { length prices.new.items ≡ length prices.old.items }
    ensures memory { OnErr result (prices.new.items ≡ prices.old.items) }
{
    let places = pool.sorted_by_value(prices)?;
    let columns = pool.as_slice();
    for place in places.as_slice() {
        let column = &columns[*place as usize];
        lower_by(prices, column, asked_at(asked, column.class));
    }
    Ok(())
}

/// What a class asks.
fn asked_at(asked: &[i64], class: u32) -> i64
    requires inside { class < length asked.now }
    requires asked { AreAsked asked.now }
    ensures value { result ≡ number_at asked.now class }
    ensures low { pos 0 ≤ℤ result }
    ensures high { result ≤ℤ pos 30000000000000000 }
{
    asked[class as usize]
}

/// Lowers the prices of a column's items where it has a loss, its class asking so much: each by the loss divided by the number of items,
/// rounded up. No other price changes. There are at most 3,000 prices from -10,000,000,000,000 to 10,000,000,000,000, and so they stay.
/// The column's list is not empty and rises, its items are there, and it is worth at most 4,000,000,000; its class asks from 0 to
/// 30,000,000,000,000,000.
pub fn lower_by(prices: &mut Prices, column: &Column, asked: i64)
    requires few { length prices.old.items ≤ most_items }
    requires moderate { AllWithin most_price prices.old.items }
    requires some { column.now.items ≢ [] }
    requires rises { Rises column.now.items }
    requires items { AllBelow (length prices.old.items) column.now.items }
    requires cheap { column.now.worth ≤ most_worth }
    requires low { pos 0 ≤ℤ asked }
    requires high { asked ≤ℤ pos 30000000000000000 }
    ensures lowered { prices.new.items ≡ lowered_prices prices.old.items column.now asked }
    ensures moderate { AllWithin most_price prices.new.items }
    ensures len { length prices.new.items ≡ length prices.old.items }
{
    let value = value(column, prices) + asked;
    if value < 0 {
        let items = column.items.as_slice();
        lower_items(&mut prices.items, items, share(value, items.len()));
    }
}
