//! The marks of the open lists of pieces of a day under prices.

ghost use Rattle.std.specs.Prelude.{◌≡◌, ◌≤ℤ◌, neg_ℤ, pos, IfSome, cond, int_le, nat_le, not, ◌||◌, length};
ghost use Rattle.plan_core.specs.Limits.{most_kept_price};
ghost use Rattle.cover_core.specs.FirstLeast.{AllWithin};
ghost use Rattle.duty_network.specs.Duties.{duties};
ghost use Rattle.duty_network.specs.Marks.{is_as_good};
ghost use Rattle.duty_network.specs.Ranges.{NetFits};
ghost use Rattle.label_cover.specs.Laws.{duty-apart, duty-ordered, duty-placed, duty-safe, duty-tied, duty-valued};
ghost use Rattle.label_cover.specs.Marked.{duty_marking};
ghost use Rattle.label_cover.specs.Opened.{seen_mark};
ghost use Rattle.label_cover.specs.Ranges.{AllWithin-prop, MarkHasRanges};

use crate::open_mark::OpenMark;
use crate::steps::{close, first, next};
use cover_core::{Mark, Prices};
use duty_network::DutyNet;
use mark_cover::{Marks, OpenLists};
use unpaid_list::ValuedLists;

/// The marks of the open lists of pieces of a net under prices. A mark says what decides how its list may go on as a duty under Regulation
/// (EC) 561/2006: its last piece, the sign-on, the driving since the last full break and whether a quarter of an hour was had after it
/// (article 7), the driving in all (article 6(1)), whether a pause of three hours was had (article 4(g)), and the value so far.
///
/// A mark is at least as good as another where class, piece and quarter are the same, its sign-on is not earlier, its driving, its total
/// and its value are not greater, and it had the long pause where the other had it.
#[derive(Drop)]
pub struct DutyMarks<'n> {
    /// The pieces with the pauses between them and the ways of drivers.
    pub net: &'n DutyNet<'n>,
    /// The prices of the pieces in thousandths of a cost unit, each from -3 * 10^15 to 3 * 10^15.
    pub prices: &'n Prices,
    ghost fits: { NetFits net.now },
    ghost moderate: { AllWithin most_kept_price prices.now.items } by { AllWithin-prop most_kept_price prices.now.items },
}

/// Whether a long pause was had where the other had one.
fn has(a: bool, b: bool) -> bool
    ensures { result ≡ not b || a }
{
    !b || a
}

/// Whether two flags are the same.
fn is_same(a: bool, b: bool) -> bool
    ensures { result ≡ cond b a (not a) }
{
    if b { a } else { !a }
}

/// Whether a number of seconds is at most another one.
fn is_at_most(a: u32, b: u64) -> bool
    ensures { result ≡ nat_le a b }
{
    a as u64 <= b
}

/// Whether a value is no greater than another one.
fn is_no_greater(a: i64, b: i128) -> bool
    ensures { result ≡ int_le a b }
{
    a as i128 <= b
}

/// Whether a mark is at least as good as another one.
fn is_better(a: &Mark, b: &Mark) -> bool
    ensures { result ≡ is_as_good a.now b.now }
{
    a.class == b.class
        && a.piece == b.piece
        && b.start.0 <= a.start.0
        && a.driving <= b.driving
        && is_same(a.quarter, b.quarter)
        && a.total <= b.total
        && has(a.three, b.three)
        && a.value <= b.value
}

/// Whether a mark is at least as good as that of an open list.
fn is_better_than(mark: &Mark, made: &OpenMark) -> bool
    ensures { result ≡ is_as_good mark.now (seen_mark made.now) }
{
    mark.class == made.class
        && mark.piece == made.piece
        && made.start.0 <= mark.start.0
        && is_at_most(mark.driving, made.driving)
        && is_same(mark.quarter, made.quarter)
        && is_at_most(mark.total, made.total)
        && has(mark.three, made.three)
        && is_no_greater(mark.value, made.value)
}

impl Marks for DutyMarks<'_> {
    type Mark = Mark;

    type Open = OpenMark;

    ghost marking = { λ s. duty_marking s.net.now s.prices.now.items };

    ghost problem = { λ s. duties s.net.now };

    ghost prices = { λ s. s.prices.now.items };

    ghost seen = { λ s. seen_mark };

    ghost ordered = { λ s. duty-ordered s.net.now s.prices.now.items };

    ghost placed = { λ s. duty-placed s.net.now s.prices.now.items };

    ghost tied = { λ s. duty-tied s.net.now s.prices.now.items s.fits };

    /// The pieces.
    fn items(&self) -> u32 {
        self.net.pieces().len() as u32
    }

    /// The groups of drivers, by GRUPPE_NR.
    fn classes(&self) -> u32 {
        self.net.groups().len() as u32
    }

    fn class_of(&self, mark: &Mark) -> u32 {
        mark.class
    }

    fn last(&self, mark: &Mark) -> u32 {
        mark.piece
    }

    fn first(&self, class: u32, item: u32) -> Option<OpenMark> {
        first(self.net, self.prices, class, self.net.group(class), item)
    }

    fn next(&self, mark: &Mark, item: u32) -> Option<OpenMark> {
        next(
            self.net,
            self.prices,
            self.net.group(mark.class),
            mark,
            item,
        )
    }

    fn close(&self, mark: &Mark) -> Option<i128> {
        close(self.net, mark.class, self.net.group(mark.class), mark)
    }

    fn is_as_good(&self, mark: &Mark, made: &OpenMark) -> bool {
        is_better_than(mark, made)
    }
}

impl OpenLists for DutyMarks<'_> {
    ghost sound = { λ s. MarkHasRanges (length s.net.now.pieces) };

    ghost safe = { λ s. duty-safe s.net.now s.prices.now.items s.fits s.moderate };

    ghost apart = { λ s. duty-apart s.net.now s.prices.now.items };

    fn narrow(&self, made: &OpenMark) -> Mark {
        Mark {
            class: made.class,
            piece: made.piece,
            start: made.start,
            driving: made.driving as u32,
            quarter: made.quarter,
            total: made.total as u32,
            three: made.three,
            value: made.value as i64,
        }
    }

    fn beats(&self, a: &Mark, b: &Mark) -> bool {
        is_better(a, b)
    }
}

/// A value that fits, where there is one.
fn narrow_value(value: Option<i128>) -> Option<i64>
    requires low { IfSome value (λ value. neg_ℤ (pos 9223372036854775808) ≤ℤ value) }
    requires high { IfSome value (λ value. value ≤ℤ pos 9223372036854775807) }
    ensures { result ≡ value }
{
    match value {
        None => None,
        Some(value) => Some(value as i64),
    }
}

impl ValuedLists for DutyMarks<'_> {
    ghost value_at = { λ s m. m.value };

    ghost valued = { λ s. duty-valued s.net.now s.prices.now.items };

    fn value(&self, mark: &Mark) -> i64 {
        mark.value
    }

    fn close_value(&self, mark: &Mark) -> Option<i64> {
        narrow_value(close(self.net, mark.class, self.net.group(mark.class), mark))
    }
}
