//! A sample without a resource.

ghost use Rattle.std.specs.Prelude.{◌≡◌, ◌≤◌, ◌≤ℤ◌, ◌<ℤ◌, ◌+ℤ◌, ◌*◌, pos, int_le};
ghost use Rattle.label_search.specs.Limits.{passed};
ghost use Rattle.label_search.specs.Samples.{WayFits, way_close, way_good, way_may_close, ways, ways-hide, ways-kept, ways-safe, ways-stepwise, ways-valued};

use crate::hauls::toll;
use label_search::Labels;

/// The ways from the first item to the last: a shortest path without any resource.
#[derive(Drop)]
pub(crate) struct Ways {
    pub(crate) count: u32,
    pub(crate) seed: u8,
}

/// Whether a value with 5 for each of some steps is at most the limit with 5 for each item: each further step takes off at most 5.
fn is_within(value: i64, steps: u64, limit: i64, count: u32) -> bool
    requires { steps ≤ 4294967296 }
    ensures { result ≡ int_le (value +ℤ pos (5 * steps)) (limit +ℤ pos (5 * count)) }
{
    with_steps(value, steps) <= with_steps(limit, count as u64)
}

/// The greatest value that is within the limit with 5 for each item before this one.
fn most_within(item: u32, limit: i64, count: u32) -> i64
    ensures { result <ℤ pos 9223372036854775807 → (limit +ℤ pos (5 * count)) ≤ℤ (result +ℤ pos (5 * item)) }
{
    let most = with_steps(limit, count as u64) - 5 * item as i128;
    if most < i64::MIN as i128 {
        i64::MIN
    } else if most > i64::MAX as i128 {
        i64::MAX
    } else {
        most as i64
    }
}

/// A value with 5 for each of some steps.
fn with_steps(value: i64, steps: u64) -> i128
    requires { steps ≤ 4294967296 }
    ensures { result ≡ value +ℤ pos (5 * steps) }
{
    value as i128 + 5 * steps as i128
}

impl Ways {
    /// A label that may still close within the limit.
    fn within(&self, label: Option<(u32, i64)>, limit: i64) -> Option<(u32, i64)>
        ensures { result ≡ passed (way_may_close self.now.count limit) label }
    {
        match label {
            None => None,
            Some(label) => {
                if is_within(label.1, label.0 as u64 + 1, limit, self.count) {
                    Some(label)
                } else {
                    None
                }
            }
        }
    }

    /// The label of one item.
    fn first(&self, item: u32) -> Option<(u32, i64)>
        ensures { result ≡ (ways self.now.count self.now.seed).start item }
    {
        if item == 0 && item < self.count {
            Some((item, 0))
        } else {
            None
        }
    }

    /// The label of one item more.
    fn next(&self, label: &(u32, i64), item: u32) -> Option<(u32, i64)>
        requires { WayFits label.now }
        ensures { result ≡ (ways self.now.count self.now.seed).extend label.now item }
    {
        if label.0 < item && item < self.count {
            Some((item, label.1 + toll(self.seed, label.0, item)))
        } else {
            None
        }
    }
}

impl Labels for Ways {
    type Label = (u32, i64);

    ghost count = { λ s. s.count };

    ghost labelling = { λ s. ways s.count s.seed };

    ghost good = { λ s. way_good };

    ghost value_at = { λ s a. a.1 };

    ghost close_of = { λ s. way_close s.count };

    ghost last = { λ s a. a.0 };

    ghost sound = { λ s. WayFits };

    ghost may_close = { λ s. way_may_close s.count };

    ghost kept = { λ s. ways-kept s.count s.seed };

    ghost valued = { λ s. ways-valued s.count s.seed };

    ghost stepwise = { λ s. ways-stepwise s.count s.seed };

    ghost safe = { λ s. ways-safe s.count s.seed };

    ghost hides_none = { λ s. ways-hide s.count s.seed };

    fn items(&self) -> u32 {
        self.count
    }

    fn start(&self, item: u32, limit: i64) -> Option<(u32, i64)> {
        self.within(self.first(item), limit)
    }

    fn extend(&self, label: &(u32, i64), item: u32, limit: i64) -> Option<(u32, i64)> {
        self.within(self.next(label, item), limit)
    }

    fn most_reaching(&self, item: u32, limit: i64) -> Option<i64> {
        Some(most_within(item, limit, self.count))
    }

    fn most_following(&self, _before: u32, item: u32, limit: i64) -> Option<i64> {
        Some(most_within(item, limit, self.count))
    }

    fn value(&self, label: &(u32, i64)) -> i64 {
        label.1
    }

    fn is_as_good(&self, a: &(u32, i64), b: &(u32, i64)) -> bool {
        a.0 == b.0 && a.1 <= b.1
    }

    fn close(&self, label: &(u32, i64)) -> Option<i64> {
        if label.0 as u64 + 1 == self.count as u64 {
            Some(label.1)
        } else {
            None
        }
    }
}
