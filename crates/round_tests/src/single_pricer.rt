//! A pricer of many items, each a list by itself.

ghost use Rattle.std.specs.Prelude.{◌≡◌, ◌≤◌, ◌<◌, ◌+◌, ◌*◌, ◌≤ℤ◌, pos, neg_ℤ, [], ◌∷◌, length, Some, IfOk};
ghost use Rattle.plan_core.specs.Limits.{most_items, most_price, most_worth};
ghost use Rattle.cover_core.specs.Cover.{Rises, AllBelow};
ghost use Rattle.cover_core.specs.Best.{within};
ghost use Rattle.cover_core.specs.FirstLeast.{AllWithin};

use cover_core::{
    Column, Columns, Items, Pricer, Prices, backward_order, best_is_first_least, value,
};
use plan_core::{Memory, Price, Seq};
use std::alloc::Global;

/// Items of which the first of each group is a list by itself, and no other list has a worth: in two classes, in class 0 of worth 1
/// and in class 1 of worth 2.
#[derive(Drop)]
pub(crate) struct Singles {
    pub(crate) items: u32,
    ghost few: { items ≤ most_items },
}

impl Singles {
    /// So many items, at most 3,000.
    pub(crate) fn new(items: u32) -> Singles
        requires { items ≤ most_items }
        ensures { result.items ≡ items }
    {
        Singles { items }
    }
}

impl Columns for Singles {
    ghost use Rattle.round_tests.specs.Singles.{singles, singles_listed};

    ghost problem = { λ s. singles s.items };

    ghost listed = { λ s. singles_listed s.items };

    fn items(&self) -> u32 {
        self.items
    }

    fn classes(&self) -> u32 {
        2
    }

    fn cap(&self, _class: u32) -> u32 {
        1
    }

    fn worth(&self, class: u32, list: &[u32]) -> Option<u64> {
        match list {
            [item] if *item < self.items && *item % 16 == 0 => Some(u64::from(class) + 1),
            _ => None,
        }
    }
}

impl Pricer for Singles {
    fn best(
        &self,
        alloc: Global,
        class: u32,
        prices: &Prices,
        group: u32,
        limit: i64,
    ) -> Result<Option<Column>, Memory> {
        best_is_first_least::<Singles>();
        backward_order();
        let column = only_column(alloc, class, group)?;
        Ok(column_within(column, prices, limit))
    }
}

/// The one column of a class and group.
fn only_column(alloc: Global, class: u32, group: u32) -> Result<Column, Memory>
    requires { 16 * group < most_items }
    ensures class { IfOk result (λ column. column.class ≡ class) }
    ensures worth { IfOk result (λ column. column.worth ≡ class + 1) }
    ensures items { IfOk result (λ column. column.items ≡ 16 * group ∷ []) }
{
    let items = Items::from_slice(alloc, [16 * group].as_slice())?;
    Ok(Column {
        class,
        worth: u64::from(class) + 1,
        items,
    })
}

/// A column where its value is within a limit.
fn column_within(column: Column, prices: &Prices, limit: i64) -> Option<Column>
    requires few { length prices.now.items ≤ most_items }
    requires moderate { AllWithin most_price prices.now.items }
    requires rises { Rises column.items }
    requires items { AllBelow (length prices.now.items) column.items }
    requires cheap { column.worth ≤ most_worth }
    ensures { result ≡ within limit prices.now.items (Some column) }
{
    match value(&column, prices) <= limit {
        true => Some(column),
        false => None,
    }
}

/// The price of an item: that of its place for the first of a group, and 0 for any other.
fn price_of(item: u32, firsts: &[u32]) -> Price
    ensures low { neg_ℤ (pos most_price) ≤ℤ result.0 }
    ensures high { result.0 ≤ℤ pos most_price }
{
    let place = (item / 16) as usize;
    if item % 16 == 0 && place < firsts.len() {
        Price(i64::from(firsts[place]))
    } else {
        Price(0)
    }
}

/// Prices of so many items, from those of the first items of the groups.
pub(crate) fn prices(alloc: Global, items: u32, firsts: &[u32]) -> Result<Prices, Memory>
    ensures len { IfOk result (λ prices. length prices.items ≡ items) }
    ensures moderate { IfOk result (λ prices. AllWithin most_price prices.items) }
{
    let mut list = Seq::new(alloc);
    for item in 0..items {
        list.push(price_of(item, firsts))?;
    }
    Ok(Prices { items: list })
}
