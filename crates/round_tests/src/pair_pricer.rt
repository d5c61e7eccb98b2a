//! A pricer of two items.

ghost use Rattle.std.specs.Prelude.{◌≡◌, ◌<◌, ◌≤◌, [], ◌∷◌, IfOk, IfSome, Some, length, true, false};
ghost use Rattle.std.proofs.Props.{props};
ghost use Rattle.std.specs.Ordering.{is_gt};
ghost use Rattle.plan_core.specs.Limits.{most_items, most_price, most_worth, most_places};
ghost use Rattle.cover_core.specs.Best.{within, earlier};
ghost use Rattle.cover_core.specs.Cover.{AllBelow, Rises};
ghost use Rattle.cover_core.specs.FirstLeast.{AllWithin, backward_cmp};
ghost use Rattle.round_tests.specs.Pair.{MayBeValued, best_alone as best_alone_of, best_column as best_column_of, column as column_of};

use cover_core::{Column, Columns, Items, Pricer, Prices, value};
use plan_core::Memory;
use std::alloc::Global;

/// Two items in one class: each alone has a worth, and both together may have one.
#[derive(Drop)]
pub(crate) struct Pair {
    pub(crate) alone: u64,
    pub(crate) both: Option<u64>,
    pub(crate) places: u32,
    ghost moderate: { alone ≤ most_worth },
    ghost together: { IfSome both (λ worth. worth ≤ most_worth) } by { Prim.hlevel props },
    ghost few: { places ≤ most_places },
}

impl Columns for Pair {
    ghost use Rattle.round_tests.specs.Pair.{pair, pair-listed};

    ghost problem = { λ s. pair s.alone s.both s.places };

    ghost listed = { λ s. pair-listed s.alone s.both s.places };

    fn items(&self) -> u32 {
        2
    }

    fn classes(&self) -> u32 {
        // Its worths and places are in their ranges: the pair says so.
        let _places = self.places;
        1
    }

    fn cap(&self, _class: u32) -> u32 {
        self.places
    }

    fn worth(&self, _class: u32, list: &[u32]) -> Option<u64> {
        match list {
            [x] if *x < 2 => Some(self.alone),
            [x, y] if *x == 0 && *y == 1 => self.both,
            _ => None,
        }
    }
}

/// A column of class 0.
fn column(alloc: Global, worth: u64, list: &[u32]) -> Result<Column, Memory>
    ensures { IfOk result (λ made. made ≡ column_of worth list.now) }
{
    let items = Items::from_slice(alloc, list)?;
    Ok(Column {
        class: 0,
        worth,
        items,
    })
}

/// The earlier of two columns, the first of which comes first by its list.
fn first_of(first: Column, other: Column, prices: &Prices) -> Column
    requires few { length prices.now.items ≤ most_items }
    requires moderate { AllWithin most_price prices.now.items }
    requires first { MayBeValued (length prices.now.items) first }
    requires other { MayBeValued (length prices.now.items) other }
    requires order { is_gt (backward_cmp first.items other.items) ≡ false }
    ensures { result ≡ earlier prices.now.items first other }
{
    if value(&other, prices) < value(&first, prices) {
        other
    } else {
        first
    }
}

/// The earlier of two columns, the second of which comes first by its list.
fn second_of(first: Column, other: Column, prices: &Prices) -> Column
    requires few { length prices.now.items ≤ most_items }
    requires moderate { AllWithin most_price prices.now.items }
    requires first { MayBeValued (length prices.now.items) first }
    requires other { MayBeValued (length prices.now.items) other }
    requires order { is_gt (backward_cmp first.items other.items) ≡ true }
    ensures { result ≡ earlier prices.now.items first other }
{
    if value(&first, prices) < value(&other, prices) {
        first
    } else {
        other
    }
}

/// The earliest column of one item.
fn best_alone(alloc: Global, alone: u64, prices: &Prices) -> Result<Column, Memory>
    requires two { length prices.now.items ≡ 2 }
    requires moderate { AllWithin most_price prices.now.items }
    requires cheap { alone ≤ most_worth }
    ensures { IfOk result (λ best. best ≡ best_alone_of prices.now.items alone) }
{
    let first = column(alloc, alone, [0].as_slice())?;
    let other = column(alloc, alone, [1].as_slice())?;
    Ok(first_of(first, other, prices))
}

/// The earliest column of all.
fn best_column(
    alloc: Global,
    alone: u64,
    both: Option<u64>,
    prices: &Prices,
) -> Result<Column, Memory>
    requires two { length prices.now.items ≡ 2 }
    requires moderate { AllWithin most_price prices.now.items }
    requires cheap { alone ≤ most_worth }
    requires together { IfSome both (λ worth. worth ≤ most_worth) }
    ensures { IfOk result (λ best. best ≡ best_column_of prices.now.items alone both) }
{
    let single = best_alone(alloc, alone, prices)?;
    match both {
        None => Ok(single),
        Some(worth) => {
            let joint = column(alloc, worth, [0, 1].as_slice())?;
            Ok(second_of(joint, single, prices))
        }
    }
}

/// A column where its value is within a limit.
fn column_within(column: Column, prices: &Prices, limit: i64) -> Option<Column>
    requires few { length prices.now.items ≤ most_items }
    requires moderate { AllWithin most_price prices.now.items }
    requires valued { MayBeValued (length prices.now.items) column }
    ensures within { result ≡ within limit prices.now.items (Some column) }
    ensures bound { IfSome result (λ found. found.worth ≤ most_worth) }
{
    match value(&column, prices) <= limit {
        true => Some(column),
        false => None,
    }
}

impl Pricer for Pair {
    fn best(
        &self,
        alloc: Global,
        _class: u32,
        prices: &Prices,
        _group: u32,
        limit: i64,
    ) -> Result<Option<Column>, Memory> {
        let best = best_column(alloc, self.alone, self.both, prices)?;
        Ok(column_within(best, prices, limit))
    }
}
