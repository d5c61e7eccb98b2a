//! The places of columns in the order of their values.

ghost use Rattle.std.specs.Prelude.{◌≡◌, ◌≤◌, length, map, IfOk, OnOk};
ghost use Rattle.std.specs.List.Sorted.{IsPermutation, IsSortedBy};
ghost use Rattle.plan_core.specs.Limits.{most_items, most_price};
ghost use Rattle.cover_core.specs.FirstLeast.{AllWithin};
ghost use Rattle.cover_core.specs.Fitting.{AreFit};
ghost use Rattle.column_pool.specs.Pools.{IsByValue};
ghost use Rattle.column_pool.specs.Keys.{keys_of, key_cmp, is_before, place_of};

use crate::key::Key;
use cover_core::{Column, Prices, value};
use plan_core::{Memory, Seq};
use std::alloc::Global;
use std::cmp::Ordering;

/// Orders columns by value and place.
fn compare(x: &Key, y: &Key) -> Ordering
    ensures { result ≡ key_cmp x.now y.now }
{
    x.value.cmp(&y.value).then(x.place.cmp(&y.place))
}

/// The value and the place of each column.
fn keys(alloc: Global, pool: &[Column], prices: &Prices) -> Result<Vec<Key>, Memory>
    requires pool { length pool.now ≤ 200000 }
    requires few { length prices.now.items ≤ most_items }
    requires moderate { AllWithin most_price prices.now.items }
    requires fit { AreFit (length prices.now.items) 32 pool.now }
    ensures { IfOk result (λ keys. keys.items ≡ keys_of prices.now.items pool.now) }
{
    let mut keys = Vec::new(alloc);
    for (place, column) in pool.iter().enumerate() {
        let key = Key {
            value: value(column, prices),
            place: place as u32,
        };
        match keys.push(key) {
            Ok(()) => {}
            Err(_) => return Err(Memory),
        }
    }
    Ok(keys)
}

/// Brings them into order.
fn sort(keys: &mut Vec<Key>) -> Result<(), Memory>
    ensures permutation { IsPermutation keys.old.items keys.new.items }
    ensures sorted { OnOk result (IsSortedBy is_before keys.new.items) }
{
    match keys.sort_by(
        |x: &Key, y: &Key| -> Ordering
            ensures { result ≡ key_cmp x.now y.now }
        { compare(x, y) },
    ) {
        Ok(()) => Ok(()),
        Err(_) => Err(Memory),
    }
}

/// The places of keys.
fn places(alloc: Global, keys: &[Key]) -> Result<Seq<u32>, Memory>
    ensures { IfOk result (λ places. places ≡ map place_of keys.now) }
{
    let mut places = Seq::new(alloc);
    for key in keys {
        places.push(key.place)?;
    }
    Ok(places)
}

/// The places of all columns by value, and of those of equal value by place.
pub fn places_by_value(alloc: Global, pool: &[Column], prices: &Prices) -> Result<Seq<u32>, Memory>
    requires pool { length pool.now ≤ 200000 }
    requires few { length prices.now.items ≤ most_items }
    requires moderate { AllWithin most_price prices.now.items }
    requires fit { AreFit (length prices.now.items) 32 pool.now }
    ensures { IfOk result (λ places. IsByValue prices.now.items pool.now places) }
{
    let mut keys = keys(alloc, pool, prices)?;
    sort(&mut keys)?;
    places(alloc, keys.as_slice())
}
