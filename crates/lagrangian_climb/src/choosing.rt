//! Which columns are chosen at some prices.

ghost use Rattle.std.specs.Prelude.{◌≡◌, ℤ, ◌≤◌, ◌<◌, ◌+◌, ◌*◌, ◌≤ℤ◌, ◌<ℤ◌, ◌+ℤ◌, pos, neg_ℤ, [], ◌∷◌, ◌++◌, length, cond, IfOk, OnOk, slice_index, slice_set};
ghost use Rattle.plan_core.specs.Limits.{most_items, most_price};
ghost use Rattle.cover_core.specs.Cover.{AllBelow};
ghost use Rattle.cover_core.specs.FirstLeast.{AllWithin};
ghost use Rattle.cover_core.specs.Fitting.{AreFit};
ghost use Rattle.lagrangian_climb.specs.Choices.{gains_at, seen, has_room, is_next, AreZeroCounts, AreZeroNumbers, IsChoice, IsChosen, IsSoundChoice};

use crate::playing::in_play;
use cover_core::{Column, ColumnKey, Prices, sort_keys, value};
use plan_core::{Memory, Seq, zeros};
use std::alloc::Global;

/// The columns that are chosen at some prices, and what classes ask for a place.
#[derive(Drop)]
pub struct Choice {
    /// The places of the chosen columns in the pool, by class, value and place.
    pub places: Seq<u32>,
    /// What each class asks for a place, in thousandths of a cost unit: minus the value of the first column that found none, or 0.
    pub class_prices: Seq<i64>,
    /// The sum of the chosen columns' values, in thousandths of a cost unit.
    pub sum: i128,
}

/// Of the columns at some places those of value below 0, in the order of the places.
fn gains(
    alloc: Global,
    pool: &[Column],
    places: &[u32],
    prices: &Prices,
) -> Result<Vec<ColumnKey>, Memory>
    requires few { length prices.now.items ≤ most_items }
    requires moderate { AllWithin most_price prices.now.items }
    requires fit { AreFit (length prices.now.items) 32 pool.now }
    requires places { AllBelow (length pool.now) places.now }
    ensures { IfOk result (λ keys. keys.items ≡ gains_at prices.now.items pool.now places.now) }
{
    let mut keys = Vec::new(alloc);
    for place in places {
        let column = &pool[*place as usize];
        let value = value(column, prices);
        if value < 0 {
            let key = ColumnKey {
                class: column.class,
                value,
                place: *place,
            };
            match keys.push(key) {
                Ok(()) => {}
                Err(_) => return Err(Memory),
            }
        }
    }
    Ok(keys)
}

/// What one more column in order adds: it is chosen where its class has a place left, and the next one says what the class asks.
fn walk(
    choice: &mut Choice,
    counts: &mut Seq<u32>,
    caps: &[u32],
    key: ColumnKey,
) -> Result<(), Memory>
    requires class { key.class < length caps.now }
    requires low { neg_ℤ (pos 30000000000000000) ≤ℤ key.value }
    requires below { key.value <ℤ pos 0 }
    requires counts { length counts.old ≡ length caps.now }
    requires class_prices { length choice.old.class_prices ≡ length caps.now }
    requires few { slice_index counts.old key.class ≤ 1000000 }
    requires sum_low { neg_ℤ (pos 10000000000000000000000) ≤ℤ choice.old.sum }
    requires sum_high { choice.old.sum ≤ℤ pos 0 }
    ensures counts { OnOk result (counts.new ≡ seen counts.old key) }
    ensures places { OnOk result (choice.new.places ≡ cond (has_room caps.now counts.old key) (choice.old.places ++ key.place ∷ []) choice.old.places) }
    ensures sum { OnOk result (choice.new.sum ≡ choice.old.sum +ℤ cond (has_room caps.now counts.old key) key.value (pos 0)) }
    ensures class_prices { OnOk result (choice.new.class_prices ≡ cond (is_next caps.now counts.old key) (slice_set choice.old.class_prices key.class (neg_ℤ key.value)) choice.old.class_prices) }
{
    let class = key.class as usize;
    let count = counts.as_slice()[class];
    let cap = caps[class];
    counts.set(class, count + 1);
    if count < cap {
        choice.sum += key.value as i128;
        choice.places.push(key.place)?;
    }
    if count == cap {
        choice.class_prices.set(class, -key.value);
    }
    Ok(())
}

/// A count of 0 for each of so many.
pub(crate) fn zero_counts(alloc: Global, len: usize) -> Result<Seq<u32>, Memory>
    ensures { IfOk result (AreZeroCounts len) }
{
    zeros(alloc, len)
}

/// A number of 0 for each of so many.
pub(crate) fn zero_numbers(alloc: Global, len: usize) -> Result<Seq<i64>, Memory>
    ensures { IfOk result (AreZeroNumbers len) }
{
    let mut numbers = Seq::new(alloc);
    for _place in 0..len {
        numbers.push(0)?;
    }
    Ok(numbers)
}

/// What is chosen of the columns at some places of a pool, each of which stands there once, and what each class asks for a place.
pub(crate) fn choose_of(
    alloc: Global,
    pool: &[Column],
    places: &[u32],
    caps: &[u32],
    prices: &Prices,
) -> Result<Choice, Memory>
    requires pool { length pool.now ≤ 200000 }
    requires few { length prices.now.items ≤ most_items }
    requires moderate { AllWithin most_price prices.now.items }
    requires classes { length caps.now ≤ 32 }
    requires fit { AreFit (length prices.now.items) (length caps.now) pool.now }
    requires places { AllBelow (length pool.now) places.now }
    requires count { length places.now ≤ length pool.now }
    ensures choice { IfOk result (IsChosen (gains_at prices.now.items pool.now places.now) caps.now) }
    ensures sound { IfOk result (IsSoundChoice (length caps.now) (length pool.now)) }
{
    let mut keys = gains(alloc, pool, places, prices)?;
    sort_keys(&mut keys)?;
    let mut counts = zero_counts(alloc, caps.len())?;
    let mut choice = Choice {
        places: Seq::new(alloc),
        class_prices: zero_numbers(alloc, caps.len())?,
        sum: 0,
    };
    for key in keys.as_slice() {
        walk(&mut choice, &mut counts, caps, *key)?;
    }
    Ok(choice)
}

/// The columns that are chosen of a pool at some prices, and what each class asks for a place.
///
/// A column is in play where its class has a place and none of its items is fixed. Of the columns in play whose values are below 0 each
/// class takes as many as it has places, those of least value, and of equal values those that lie earlier in the pool. It asks minus the
/// value of the next one, and 0 where there is none. With the sum of the free items' prices, `sum` makes the Lagrangian of the pool. Time
/// is in the order of n log n for n columns in play of value below 0.
///
/// The pool has at most 200,000 columns; there are at most 3,000 items, each with a price from -10,000,000,000,000 to 10,000,000,000,000
/// thousandths of a cost unit and a word whether it is fixed, and at most 32 classes; `caps` has the places that each has left. Each
/// column's list rises, of items and a class that are there, and is worth at most 4,000,000,000 cost units.
///
/// # Errors
///
/// [`Memory`] where it is refused; nothing else fails.
pub fn choose(
    alloc: Global,
    pool: &[Column],
    fixed: &[bool],
    caps: &[u32],
    prices: &Prices,
) -> Result<Choice, Memory>
    requires pool { length pool.now ≤ 200000 }
    requires few { length prices.now.items ≤ most_items }
    requires moderate { AllWithin most_price prices.now.items }
    requires fixed { length fixed.now ≡ length prices.now.items }
    requires classes { length caps.now ≤ 32 }
    requires fit { AreFit (length prices.now.items) (length caps.now) pool.now }
    ensures choice { IfOk result (IsChoice fixed.now caps.now prices.now.items pool.now) }
    ensures sound { IfOk result (IsSoundChoice (length caps.now) (length pool.now)) }
{
    let places = in_play(alloc, pool, fixed, caps)?;
    choose_of(alloc, pool, places.as_slice(), caps, prices)
}
