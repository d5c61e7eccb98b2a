//! The first gap of a cover of duties.

ghost use Rattle.std.specs.Prelude.{◌≡◌, ◌<◌, Some, None, IfSome, IfNone, length};
ghost use Rattle.plan_core.specs.Limits.{most_kept_price};
ghost use Rattle.cover_core.specs.FirstLeast.{AllWithin};
ghost use Rattle.mark_cover.specs.Covers.{IsFirstGap, IsMarkCover};
ghost use Rattle.mark_cover.specs.Searches.{AreThere};
ghost use Rattle.label_cover.specs.Marked.{duty_marking};

use crate::marks::DutyMarks;
use cover_core::{Cover, Gap, Prices};
use duty_network::DutyNet;

/// The first place where marks are no cover of the open lists of pieces, by prices and class prices in thousandths of a cost unit: an open
/// list of one piece to which no mark is at least as good, an open extension of a mark to which none is, or a mark whose list closes with
/// a value below minus the price of its class. In this order of kinds, and of a kind the first by its numbers. None exactly where the
/// marks are a cover; with class prices of at least 0 that shows that no lawful duty has a value below minus its class price.
///
/// The classes and pieces of the marks are there, and there are fewer than 2^32 marks; all their other numbers may come from anywhere. The
/// prices are from -3 * 10^15 to 3 * 10^15. It takes no memory. For n marks and p pieces it makes n * p extensions; each is compared with
/// the marks of its class and piece alone where the marks stand by class and piece, else with all.
pub fn first_gap(
    cover: &Cover,
    net: &DutyNet<'_>,
    prices: &Prices,
    class_prices: &[i64],
) -> Option<Gap>
    requires there { AreThere (duty_marking net.now prices.now.items) cover.now.marks }
    requires few { length cover.now.marks < 4294967296 }
    requires moderate { AllWithin most_kept_price prices.now.items }
    ensures first { IfSome result (λ gap. IsFirstGap (duty_marking net.now prices.now.items) cover.now.marks class_prices.now gap) }
    ensures none { IfNone result (IsMarkCover (duty_marking net.now prices.now.items) cover.now.marks class_prices.now) }
    ensures onto { IsMarkCover (duty_marking net.now prices.now.items) cover.now.marks class_prices.now → result ≡ None }
{
    net.fits();
    let marks = DutyMarks { net, prices };
    mark_cover::first_gap(&marks, cover.marks.as_slice(), class_prices)
}
