//! The marks of the open blocks of a day fit, so that all of them can be made.
#![tactic(auto)]

ghost use Rattle.std.specs.Prelude.{◌≡◌, ◌≤ℤ◌, neg_ℤ, pos, IfSome, length};
ghost use Rattle.block_cover.specs.Seen.{MarkFits};
ghost use Rattle.block_cover.specs.Laws.{marks-apart, marks-safe, marks-valued};

use crate::made::OpenMark;
use crate::marks::BlockMarks;
use crate::moves::closed_value;
use cover_core::BlockMark;
use mark_cover::OpenLists;
use unpaid_list::ValuedLists;

/// A value of 64 bits, where there is one.
fn narrow_value(value: Option<i128>) -> Option<i64>
    requires { IfSome value (λ v. (neg_ℤ (pos 9223372036854775808) ≤ℤ v) × (v ≤ℤ pos 9223372036854775807)) }
    ensures { result ≡ value }
{
    match value {
        None => None,
        Some(value) => Some(value as i64),
    }
}

impl OpenLists for BlockMarks<'_> {
    ghost sound = { λ s. MarkFits (length s.net.now.day.trips) };

    ghost safe = { λ s. marks-safe s.net.now.day s.net.now.counts s.prices.now s.daily s.ranges s.moderate };

    ghost apart = { λ s. marks-apart s.net.now.day s.net.now.counts s.prices.now };

    fn narrow(&self, made: &OpenMark) -> BlockMark {
        let _ = self.net.day().trips();
        BlockMark {
            class: made.class,
            trip: made.trip,
            driving: made.driving as u32,
            value: made.value as i64,
        }
    }

    fn beats(&self, a: &BlockMark, b: &BlockMark) -> bool {
        (a.class == b.class && a.trip == b.trip) && (a.driving <= b.driving && a.value <= b.value)
    }
}

impl ValuedLists for BlockMarks<'_> {
    ghost value_at = { λ s a. a.value };

    ghost valued = { λ s. marks-valued s.net.now.day s.net.now.counts s.prices.now };

    fn value(&self, mark: &BlockMark) -> i64 {
        mark.value
    }

    fn close_value(&self, mark: &BlockMark) -> Option<i64> {
        narrow_value(closed_value(self.net.day(), self.net.counts(), mark))
    }
}
