//! Price steps: prices rise where the chosen columns cover too little, and fall where they cover too much.
#![tactic(auto)]

ghost use Rattle.std.specs.Prelude.{◌≡◌, ℕ, ◌<◌, ◌≤◌, ◌+◌, ◌≤ℤ◌, ◌+ℤ◌, ◌-ℤ◌, ◌*ℤ◌, ℤ, pos, neg_ℤ, nat_lt, cond, length, filter, IfOk, slice_index, slice_set, vec_len};
ghost use Rattle.std.specs.List.Sorted.{IsSortedBy};
ghost use Rattle.plan_core.specs.Limits.{most_items, most_price};
ghost use Rattle.cover_core.specs.FirstLeast.{AllWithin};
ghost use Rattle.cover_core.specs.Cover.{AllBelow};
ghost use Rattle.cover_core.specs.Plans.{times, price_at};
ghost use Rattle.cover_core.specs.Parts.{column_at};
ghost use Rattle.cover_master.specs.Method.{keys_of, times_chosen, moved_price, turned_prices, clamped};
ghost use Rattle.cover_core.specs.Fitting.{AreFit};
ghost use Rattle.cover_master.specs.Candidates.{AreCandidates};
ghost use Rattle.cover_core.specs.ColumnKeys.{is_before};
ghost use Rattle.cover_master.specs.Fitting.{is_gain};

use crate::clamps::clamp;
use crate::selection::{candidates, limits};
use cover_core::{Column, ColumnKey, Prices, add_items, sort_keys, value};
use plan_core::{Memory, Price, Seq, zeros};
use std::alloc::Global;

/// The columns of value below 0.
fn gains(alloc: Global, pool: &[Column], prices: &Prices) -> Result<Vec<ColumnKey>, Memory>
    requires pool { length pool.now ≤ 200000 }
    requires few { length prices.now.items ≤ most_items }
    requires moderate { AllWithin most_price prices.now.items }
    requires fit { AreFit (length prices.now.items) 32 pool.now }
    ensures { IfOk result (λ keys. keys.items ≡ filter is_gain (keys_of prices.now.items pool.now)) }
{
    let mut keys = Vec::new(alloc);
    for (place, column) in pool.iter().enumerate() {
        let key = ColumnKey {
            class: column.class,
            value: value(column, prices),
            place: place as u32,
        };
        if key.value < 0 {
            match keys.push(key) {
                Ok(()) => {}
                Err(_) => return Err(Memory),
            }
        }
    }
    Ok(keys)
}

/// By how much a price step moves the price of an item that so many chosen columns have.
fn change(size: i64, times: u32) -> i64
    requires size_low { pos 0 ≤ℤ size }
    requires size_high { size ≤ℤ pos most_price }
    requires times { times ≤ 200000 }
    ensures value { result ≡ size *ℤ (pos 1 -ℤ pos times) }
    ensures low { neg_ℤ (pos 2000000000000000000) ≤ℤ result }
    ensures high { result ≤ℤ pos 2000000000000000000 }
{
    size * (1 - times as i64)
}

/// The price of such an item after the price step.
fn price_after_step(price: i64, size: i64, times: u32) -> i64
    requires low { neg_ℤ (pos most_price) ≤ℤ price }
    requires high { price ≤ℤ pos most_price }
    requires size_low { pos 0 ≤ℤ size }
    requires size_high { size ≤ℤ pos most_price }
    requires times { times ≤ 200000 }
    ensures { result ≡ clamped (price +ℤ (size *ℤ (pos 1 -ℤ pos times))) }
{
    let sum = price + change(size, times);
    clamp(sum)
}

/// Counts one more column in its class, and its items where the class had a place left for it.
fn add_column(
    pool: &[Column],
    caps: &[u32],
    key: ColumnKey,
    cover: &mut Seq<u32>,
    counts: &mut Seq<u32>,
)
    requires class { key.class < length caps.now }
    requires place { key.place < length pool.now }
    requires fit { AreFit (length cover.old) (length caps.now) pool.now }
    requires few { length cover.old ≤ most_items }
    requires counts { length counts.old ≡ length caps.now }
    requires small { (i : ℕ) → slice_index cover.old i ≤ 1000000 }
    requires low { (i : ℕ) → slice_index counts.old i ≤ 1000000 }
    ensures counted { counts.new ≡ slice_set counts.old key.class (slice_index counts.old key.class + 1) }
    ensures covered { (i : ℕ) → slice_index cover.new i ≡ slice_index cover.old i + cond (nat_lt (slice_index counts.old key.class) (slice_index caps.now key.class)) (times i (column_at pool.now key.place).items) 0 }
    ensures len { length cover.new ≡ length cover.old }
{
    let class = key.class as usize;
    let count = counts.as_slice()[class];
    if count < caps[class] {
        add_items(cover, pool[key.place as usize].items.as_slice());
    }
    counts.set(class, count + 1);
}

/// How often each item stands in chosen columns.
fn cover(
    alloc: Global,
    pool: &[Column],
    prices: &Prices,
    caps: &[u32],
    keys: &[ColumnKey],
) -> Result<Seq<u32>, Memory>
    requires pool { length pool.now ≤ 200000 }
    requires few { length prices.now.items ≤ most_items }
    requires fit { AreFit (length prices.now.items) (length caps.now) pool.now }
    requires all { AreCandidates prices.now.items pool.now caps.now keys.now }
    requires sorted { IsSortedBy is_before keys.now }
    ensures len { IfOk result (λ v. length v ≡ length prices.now.items) }
    ensures times { IfOk result (λ v. (i : ℕ) → slice_index v i ≡ times_chosen pool.now prices.now.items caps.now i) }
    ensures few { IfOk result (λ v. (i : ℕ) → slice_index v i ≤ 200000) }
{
    let mut cover = zeros(alloc, prices.items.len())?;
    let mut counts = zeros(alloc, caps.len())?;
    for key in keys {
        add_column(pool, caps, *key, &mut cover, &mut counts);
    }
    Ok(cover)
}

/// The prices after a price step of a size, from 0 to 10,000,000,000,000. Chosen are, of each class, the first cap columns of the pool by
/// value and then by place, of those whose value is below 0. Each item's price rises by the size times one less the number of chosen
/// columns that have the item. All values are those before the price step. The pool has at most 200,000 columns, each of which rises, has
/// items that there are, is worth at most 4,000,000,000 and is of a class that there is. `Memory` is the only error.
pub fn turn(
    alloc: Global,
    pool: &[Column],
    prices: &Prices,
    caps: &[u32],
    size: i64,
) -> Result<Prices, Memory>
    requires pool { length pool.now ≤ 200000 }
    requires few { length prices.now.items ≤ most_items }
    requires moderate { AllWithin most_price prices.now.items }
    requires classes { length caps.now ≤ 32 }
    requires fit { AreFit (length prices.now.items) (length caps.now) pool.now }
    requires size_low { pos 0 ≤ℤ size }
    requires size_high { size ≤ℤ pos most_price }
    ensures turned { IfOk result (λ new. new.items ≡ turned_prices pool.now prices.now.items caps.now size) }
    ensures moderate { IfOk result (λ new. AllWithin most_price new.items) }
{
    let gains = gains(alloc, pool, prices)?;
    let limits = limits(alloc, gains.as_slice(), caps)?;
    let mut keys = candidates(alloc, gains.as_slice(), limits.as_slice())?;
    sort_keys(&mut keys)?;
    let cover = cover(alloc, pool, prices, caps, keys.as_slice())?;
    let items = moved_prices(alloc, prices, cover.as_slice(), size)?;
    Ok(Prices { items })
}

/// The prices of all items after a price step, where cover tells how many chosen columns have each item.
fn moved_prices(
    alloc: Global,
    prices: &Prices,
    cover: &[u32],
    size: i64,
) -> Result<Seq<Price>, Memory>
    requires moderate { AllWithin most_price prices.now.items }
    requires len { length cover.now ≡ length prices.now.items }
    requires few { (i : ℕ) → slice_index cover.now i ≤ 200000 }
    requires size_low { pos 0 ≤ℤ size }
    requires size_high { size ≤ℤ pos most_price }
    ensures len { IfOk result (λ new. length new ≡ length prices.now.items) }
    ensures moved { IfOk result (λ new. (item : ℕ) → item < length prices.now.items → price_at new item ≡ moved_price prices.now.items size cover.now item) }
{
    let mut new = Seq::new(alloc);
    for (item, price) in prices.items.as_slice().iter().enumerate() {
        new.push(Price(price_after_step(price.0, size, cover[item])))?;
    }
    Ok(new)
}
