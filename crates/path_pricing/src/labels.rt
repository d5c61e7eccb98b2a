//! The labels of the open blocks of a pool whose first trips are a range.

ghost use Rattle.std.specs.Prelude.{◌≡◌, ◌≤◌, ◌+ℤ◌, ◌-ℤ◌, ◌≤ℤ◌, ◌<ℤ◌, neg_ℤ, pos, false, All, Some, cond, int_le, length, slice_get};
ghost use Rattle.plan_core.specs.Limits.{most_items, most_price};
ghost use Rattle.cover_core.specs.FirstLeast.{AllWithin};
ghost use Rattle.cover_core.specs.Plans.{number_at};
ghost use Rattle.plan_params.specs.Limits.{IsPool};
ghost use Rattle.day_model.specs.Ranges.{IsDaily};
ghost use Rattle.label_search.specs.Limits.{is_low, passed};
ghost use Rattle.depot_network.specs.Open.{closed_open, extended_open, first_open, is_as_good};
ghost use Rattle.path_pricing.specs.Blocks.{AreBoundsFrom, AllWithin-prop, IsInRange, block_labels, floor_of};
ghost use Rattle.path_pricing.specs.Laws.{labels_hide, labels_kept, labels_safe, labels_stepwise, labels_valued};

use cover_core::price;
use depot_network::{OpenBlock, PoolNet};
use label_dive::Floors;
use label_search::{Labels, rest};
use plan_core::Price;
use plan_params::Pool;

/// The labels of the open blocks of a pool whose first trip is one from a first one on and before an end, at some prices.
#[derive(Drop)]
pub struct BlockLabels<'a> {
    pub net: &'a PoolNet<'a>,
    pub class: u32,
    pub pool: Pool,
    pub prices: &'a [Price],
    /// For each trip from the first one on a number that no continuation behind it adds less than.
    pub rests: &'a [i64],
    /// The first trip with which blocks may begin.
    pub first: u32,
    /// Blocks begin with an earlier trip than this one.
    pub end: u32,
    ghost there: { slice_get net.now.day.params.pools class ≡ Some pool },
    ghost ranges: { IsPool pool },
    ghost few: { length net.now.day.trips ≤ most_items },
    ghost daily: { All IsDaily net.now.day.trips },
    ghost moderate: { AllWithin most_price prices.now } by { AllWithin-prop most_price prices.now },
    ghost bounds: { AreBoundsFrom net.now.day net.now.counts prices.now pool rests.now first },
}

/// The sum of two numbers.
fn sum(a: i64, b: i64) -> i128
    ensures value { result ≡ a +ℤ b }
    ensures low { neg_ℤ (pos 18446744073709551616) ≤ℤ result }
    ensures high { result ≤ℤ pos 18446744073709551616 }
{
    a as i128 + b as i128
}

/// A number less another one.
fn difference(a: i64, b: i64) -> i128
    ensures value { result ≡ a -ℤ b }
    ensures low { neg_ℤ (pos 18446744073709551616) ≤ℤ result }
    ensures high { result ≤ℤ pos 18446744073709551616 }
{
    a as i128 - b as i128
}

/// A value with a cost and a rest, less a price.
fn total(value: i64, cost: i64, price: i64, rest: i64) -> i128
    ensures { result ≡ value +ℤ cost -ℤ price +ℤ rest }
{
    let held = sum(value, cost);
    let taken = difference(rest, price);
    held + taken
}

/// Whether that is at most the limit.
fn is_within(value: i64, cost: i64, price: i64, rest: i64, limit: i64) -> bool
    ensures value { result ≡ int_le (value +ℤ cost -ℤ price +ℤ rest) limit }
    ensures high { result ≡ false → limit <ℤ (value +ℤ cost -ℤ price +ℤ rest) }
{
    total(value, cost, price, rest) <= limit as i128
}

/// The greatest value that is at most the limit with a cost and a rest, less a price.
fn most_within(cost: i64, price: i64, rest: i64, limit: i64) -> i64
    ensures { result <ℤ pos 9223372036854775807 → limit ≤ℤ (result +ℤ cost -ℤ price +ℤ rest) }
{
    nearest_number(limit as i128 - total(0, cost, price, rest))
}

/// The number of 64 bits that is nearest to a number.
fn nearest_number(number: i128) -> i64
    ensures { result <ℤ pos 9223372036854775807 → number ≤ℤ result }
{
    if number < i64::MIN as i128 {
        i64::MIN
    } else if number > i64::MAX as i128 {
        i64::MAX
    } else {
        number as i64
    }
}

impl BlockLabels<'_> {
    /// A label that can still close within the limit.
    fn within(&self, block: Option<OpenBlock>, limit: i64) -> Option<OpenBlock>
        ensures { result ≡ passed (is_low (floor_of self.now.rests.now) limit) block }
    {
        match block {
            None => None,
            Some(open) => {
                if is_within(open.value, 0, 0, rest(self.rests, open.trip), limit) {
                    Some(open)
                } else {
                    None
                }
            }
        }
    }
}

impl Labels for BlockLabels<'_> {
    type Label = OpenBlock;

    ghost count = { λ s. length s.net.now.day.trips };

    ghost labelling = { λ s. block_labels s.net.now.day s.net.now.counts s.prices.now s.pool s.first s.end };

    ghost good = { λ s. is_as_good };

    ghost value_at = { λ s a. a.value };

    ghost close_of = { λ s. closed_open s.net.now.day s.net.now.counts s.pool };

    ghost last = { λ s a. a.trip };

    ghost sound = { λ s. IsInRange (length s.net.now.day.trips) s.first };

    ghost may_close = { λ s. is_low (floor_of s.rests.now) };

    ghost kept = { λ s. labels_kept s.net.now.day s.net.now.counts s.prices.now s.pool s.first s.end };

    ghost valued = { λ s. labels_valued s.net.now.day s.net.now.counts s.prices.now s.pool s.first s.end };

    ghost stepwise = { λ s. labels_stepwise s.net.now.day s.net.now.counts s.prices.now s.pool s.first s.end };

    ghost safe = { λ s. labels_safe s.net.now.day s.net.now.counts s.prices.now s.pool s.first s.end s.daily s.ranges s.moderate };

    ghost hides_none = { λ s. labels_hide s.net.now.day s.net.now.counts s.prices.now s.pool s.first s.end s.rests.now s.bounds };

    fn items(&self) -> u32 {
        self.net.day().trips().len() as u32
    }

    fn start(&self, item: u32, limit: i64) -> Option<OpenBlock> {
        if self.first <= item && item < self.end {
            self.within(
                self.net
                    .first_open(self.class, &self.pool, self.prices, item),
                limit,
            )
        } else {
            None
        }
    }

    fn extend(&self, label: &OpenBlock, item: u32, limit: i64) -> Option<OpenBlock> {
        self.within(
            self.net
                .next_open(self.class, &self.pool, self.prices, label, item),
            limit,
        )
    }

    fn most_reaching(&self, item: u32, limit: i64) -> Option<i64> {
        let most = most_within(0, price(self.prices, item), rest(self.rests, item), limit);
        Some(most)
    }

    fn most_following(&self, before: u32, item: u32, limit: i64) -> Option<i64> {
        if before >= self.items() {
            return Some(i64::MAX);
        }
        match self.net.link_value(self.class, &self.pool, before, item) {
            None => None,
            Some(cost) => Some(most_within(
                cost,
                price(self.prices, item),
                rest(self.rests, item),
                limit,
            )),
        }
    }

    fn value(&self, label: &OpenBlock) -> i64 {
        label.value
    }

    fn is_as_good(&self, a: &OpenBlock, b: &OpenBlock) -> bool {
        a.trip == b.trip && (a.driving <= b.driving && a.value <= b.value)
    }

    fn close(&self, label: &OpenBlock) -> Option<i64> {
        self.net.close_open(self.class, &self.pool, label)
    }
}

impl Floors for BlockLabels<'_> {
    /// The value so far and the completion bound behind the last trip.
    fn floor(&self, label: &OpenBlock) -> i64 {
        label.value.saturating_add(rest(self.rests, label.trip))
    }
}
