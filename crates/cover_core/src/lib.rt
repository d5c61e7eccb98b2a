//! Set partitioning, of which block and duty planning are instances: items (trips, or pieces of work), classes with caps (depots, or
//! groups of drivers), lists of items that have a worth, prices, and plans. Nothing here knows of buses but the marks, plain rows by which
//! a certificate tells of open blocks and duties.
//!
//! A *column* is a class with a list of items and what it is worth. A *plan* is a list of columns in which each item stands exactly
//! once and no class has more columns than its cap; it costs the sum of its worths. *Prices*, one for each item and in thousandths of
//! a cost unit, give each column its *value* (the reduced cost of linear programming). The laws say why a bound that is made of prices
//! is a bound on every plan.
#![tactic(auto)]

ghost use Rattle.std.specs.Prelude.{◌≡◌, ◌<◌, ◌≤◌, length, slice_index, ◌*◌, IfOk, IfSome};
ghost use Rattle.plan_core.specs.Limits.{most_items, most_price, most_worth, most_places};
ghost use Rattle.cover_core.specs.Cover.{Problem, AllBelow, Rises};
ghost use Rattle.cover_core.specs.Plans.{HasListedColumns, cost, price_at};
ghost use Rattle.cover_core.specs.Ranges.{HasFewPlaces, HasModestWorths};
ghost use Rattle.cover_core.specs.FirstLeast.{value, AreCheap, AllWithin};
ghost use Rattle.cover_core.specs.Best.{best_of, within};

mod column_keys;
mod item_prices;
mod items;
mod laws;
mod marks;
mod tally;

pub use column_keys::{ColumnKey, sort_keys};
pub use item_prices::{price, price_at, price_or_zero};
pub use items::Items;
pub use laws::{backward_order, best_is_first_least, least_is_paid, plan_sizes, weak_duality};
pub use marks::{BlockCover, BlockMark, Cover, CoverFault, Gap, Mark};
use plan_core::{Memory, Price, Seq};
use std::alloc::Global;
pub use tally::add_items;

/// A list of items of a class, and what it is worth.
#[derive(Drop)]
pub struct Column {
    /// The class, from 0.
    pub class: u32,
    /// What the list is worth as a column of the class, in cost units.
    pub worth: u64,
    /// The items, which rise by number.
    pub items: Items,
}

/// One price for each item.
#[derive(Drop)]
pub struct Prices {
    /// The prices by the items' numbers, in thousandths of a cost unit.
    pub items: Seq<Price>,
}

/// A plan, or a part of one.
#[derive(Drop)]
pub struct Plan {
    /// Its columns.
    pub columns: Seq<Column>,
}

/// What a list is worth to a pass of the planner.
#[derive(Clone, Copy, Debug, PartialEq, Eq)]
pub enum Worth {
    /// 1, whatever the list: plans are compared by their number of columns.
    Count,
    /// Its cost.
    Cost,
}

/// The items and classes of a problem, and what lists of items are worth.
pub trait Columns {
    ghost problem: { Self → Problem };

    /// How many items there are: at most 3,000.
    fn items(&self) -> u32
        ensures value { result ≡ (problem self.now).items }
        ensures few { result ≤ most_items };

    /// How many classes there are: at most 32. No class may have more than 10,000 columns, and no list is worth more than 4,000,000,000 cost
    /// units in a class. Both are said here of all classes at once, since whoever goes through a plan's columns or caps asks for the number
    /// of classes anyway.
    fn classes(&self) -> u32
        ensures value { result ≡ length (problem self.now).caps }
        ensures few { result ≤ 32 }
        ensures places { HasFewPlaces (problem self.now) }
        ensures worths { HasModestWorths (problem self.now) };

    /// How many columns of a class a plan may have: at most 10,000.
    fn cap(&self, class: u32) -> u32
        requires { class < length (problem self.now).caps }
        ensures value { result ≡ slice_index (problem self.now).caps class }
        ensures few { result ≤ most_places };

    /// What a list is worth as a column of a class, where it is one: at most 4,000,000,000 cost units.
    fn worth(&self, class: u32, list: &[u32]) -> Option<u64>
        requires class { class < length (problem self.now).caps }
        requires items { AllBelow (problem self.now).items list.now }
        ensures value { result ≡ (problem self.now).worth class list.now }
        ensures bound { IfSome result (λ worth. worth ≤ most_worth) };

    /// The law of columns: a list with a worth is not empty and rises, and its items are there.
    ghost listed: { (s : Self) → HasListedColumns (problem s) };
}

/// Finds the columns of least value.
pub trait Pricer: Columns {
    /// The first least of all lists of the class that have a worth and whose first item is one of 16 * group to 16 * group + 15: the
    /// column of least value, and of several with that value the one whose list comes first when lists are compared from their last
    /// items backwards. None where there is no such list or the value is above the limit. `Memory` is the only error.
    fn best(
        &self,
        alloc: Global,
        class: u32,
        prices: &Prices,
        group: u32,
        limit: i64,
    ) -> Result<Option<Column>, Memory>
        requires class { class < length (Self.problem self.now).caps }
        requires prices { length prices.now.items ≡ (Self.problem self.now).items }
        requires moderate { AllWithin most_price prices.now.items }
        requires group { 16 * group < (Self.problem self.now).items }
        ensures best { IfOk result (λ answer. answer ≡ within limit prices.now.items (best_of (Self.problem self.now) prices.now.items class group)) }
        ensures bound { IfOk result (λ answer. IfSome answer (λ column. column.worth ≤ most_worth)) };
}

/// What a plan costs, in cost units.
pub fn plan_cost(plan: &Plan) -> u64
    requires few { length plan.now.columns ≤ most_items }
    requires cheap { AreCheap plan.now.columns }
    ensures { result ≡ cost plan.now.columns }
{
    let mut sum = 0;
    for column in plan.columns.as_slice() {
        sum += column.worth;
    }
    sum
}

/// The value of a column, in thousandths of a cost unit: a thousand times its worth, less the prices of its items.
pub fn value(column: &Column, prices: &Prices) -> i64
    requires few { length prices.now.items ≤ most_items }
    requires moderate { AllWithin most_price prices.now.items }
    requires rises { Rises column.now.items }
    requires items { AllBelow (length prices.now.items) column.now.items }
    requires cheap { column.now.worth ≤ most_worth }
    ensures { result ≡ value prices.now.items column.now }
{
    let mut rest = 1000 * column.worth as i64;
    for item in column.items.as_slice() {
        rest -= own_price(prices, *item);
    }
    rest
}

/// The price of an item of a column.
fn own_price(prices: &Prices, item: u32) -> i64
    requires { item < length prices.now.items }
    ensures { result ≡ price_at prices.now.items item }
{
    prices.items.as_slice()[item as usize].0
}
