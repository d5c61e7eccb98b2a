//! A sample that is searched and dived through.

ghost use Rattle.std.specs.Prelude.{◌≡◌};
ghost use Rattle.label_search.specs.Samples.{HaulFits, any_haul, haul_close, haul_good, hauls, hauls-hide, hauls-kept, hauls-safe, hauls-stepwise, hauls-valued, toll, weight};

use label_dive::Floors;
use label_search::{Labels, search};
use plan_core::Memory;
use std::alloc::Global;

/// What the step from an item to a later one costs: from -5 to 5.
pub(crate) fn toll(seed: u8, from: u32, item: u32) -> i64
    ensures { result ≡ toll seed from item }
{
    let sum = from as u64 * 7 + item as u64 * 13 + seed as u64;
    (sum % 11) as i64 - 5
}

/// What an item weighs.
pub(crate) fn weight(item: u32) -> u32
    ensures { result ≡ weight item }
{
    (item as u64 * 5 % 7) as u32 + 1
}

/// Lists of items whose weights are below a room: a path with a resource.
#[derive(Drop)]
pub(crate) struct Hauls {
    pub(crate) count: u32,
    pub(crate) seed: u8,
    pub(crate) room: u32,
}

impl Labels for Hauls {
    type Label = (u32, i64, u32);

    ghost count = { λ s. s.count };

    ghost labelling = { λ s. hauls s.count s.seed s.room };

    ghost good = { λ s. haul_good };

    ghost value_at = { λ s a. a.1 };

    ghost close_of = { λ s. haul_close };

    ghost last = { λ s a. a.0 };

    ghost sound = { λ s. HaulFits s.room };

    ghost may_close = { λ s. any_haul };

    ghost kept = { λ s. hauls-kept s.count s.seed s.room };

    ghost valued = { λ s. hauls-valued s.count s.seed s.room };

    ghost stepwise = { λ s. hauls-stepwise s.count s.seed s.room };

    ghost safe = { λ s. hauls-safe s.count s.seed s.room };

    ghost hides_none = { λ s. hauls-hide s.count s.seed s.room };

    fn items(&self) -> u32 {
        self.count
    }

    fn start(&self, item: u32, _limit: i64) -> Option<(u32, i64, u32)> {
        if item < self.count && weight(item) < self.room {
            Some((item, toll(self.seed, item, item), weight(item)))
        } else {
            None
        }
    }

    fn extend(&self, label: &(u32, i64, u32), item: u32, _limit: i64) -> Option<(u32, i64, u32)> {
        let load = label.2 as u64 + weight(item) as u64;
        if label.0 < item && item < self.count && load < self.room as u64 {
            Some((item, label.1 + toll(self.seed, label.0, item), load as u32))
        } else {
            None
        }
    }

    fn most_reaching(&self, _item: u32, _limit: i64) -> Option<i64> {
        Some(i64::MAX)
    }

    fn most_following(&self, _before: u32, _item: u32, _limit: i64) -> Option<i64> {
        Some(i64::MAX)
    }

    fn value(&self, label: &(u32, i64, u32)) -> i64 {
        label.1
    }

    fn is_as_good(&self, a: &(u32, i64, u32), b: &(u32, i64, u32)) -> bool {
        a.0 == b.0 && a.1 <= b.1 && (a.2 as u64) < b.2 as u64 + 1
    }

    fn close(&self, label: &(u32, i64, u32)) -> Option<i64> {
        Some(label.1)
    }
}

impl Floors for Hauls {
    /// Each further step takes off at most 5.
    fn floor(&self, label: &(u32, i64, u32)) -> i64 {
        label
            .1
            .saturating_sub(5 * (self.count as i64 - label.0 as i64))
    }
}

/// The least value with which a list closes within a limit, where some limits are tried before.
pub(crate) fn least<W: Labels>(
    alloc: Global,
    labels: &W,
    likely: &[i64],
    limit: i64,
) -> Result<Option<i64>, Memory> {
    match search(alloc, labels, likely, limit)? {
        None => Ok(None),
        Some(found) => Ok(Some(found.value)),
    }
}
