//! The least lists over links.

ghost use Rattle.std.specs.Prelude.{◌≡◌, ℕ, ◌<◌, ◌≤ℤ◌, pos, neg_ℤ, length, All};
ghost use Rattle.plan_core.specs.Limits.{most_items, most_price};
ghost use Rattle.column_weave.specs.Sums.{IsSummed, AreSummed, IsReach, IsOpen, is_less};
ghost use Rattle.column_weave.specs.Webs.{IsRanged};

use crate::link::Link;

/// The least list that ends in an item.
#[derive(Clone, Copy)]
pub struct Least {
    /// Whether there is one.
    pub known: bool,
    /// A thousand times the worths and rises along it, less the prices of its items.
    pub sum: i64,
    /// One more than the item before the last, or 0.
    pub before: u32,
}

/// No list.
pub fn no_list() -> Least
    ensures { (items : ℕ) → IsSummed items result }
{
    Least {
        known: false,
        sum: 0,
        before: 0,
    }
}

/// An item alone, where it has a worth.
fn alone(single: Option<i64>) -> Least
    requires { IsRanged single }
    ensures { (items : ℕ) → IsOpen items result }
{
    match single {
        Some(sum) => Least {
            known: true,
            sum,
            before: 0,
        },
        None => Least {
            known: false,
            sum: 0,
            before: 0,
        },
    }
}

/// The least list that ends in an item before.
fn least_in(least: &[Least], item: u32) -> Least
    requires inside { item < length least.now }
    requires summed { AreSummed least.now }
    ensures { IsSummed item result }
{
    least[item as usize]
}

/// A list over a link.
fn over(from: Least, link: Link) -> Least
    requires from { IsSummed link.from from }
    requires few { link.from < most_items }
    requires low { neg_ℤ (pos 4000000000000) ≤ℤ link.rise }
    requires high { link.rise ≤ℤ pos 4000000000000 }
    ensures { (items : ℕ) → link.from < items → IsOpen items result }
{
    Least {
        known: from.known,
        sum: from.sum + link.rise,
        before: link.from + 1,
    }
}

/// Whether a list is there and less than another, or that is not there.
pub fn is_less(next: Least, best: Least) -> bool
    ensures { result ≡ is_less next best }
{
    next.known && (!best.known || next.sum < best.sum)
}

/// A list whose last item is paid.
fn least_with_price(best: Least, price: i64) -> Least
    requires sum_low { neg_ℤ (pos 100000000000000000) ≤ℤ best.sum }
    requires sum_high { best.sum ≤ℤ pos 100000000000000000 }
    requires low { neg_ℤ (pos most_price) ≤ℤ price }
    requires high { price ≤ℤ pos most_price }
    ensures { (items : ℕ) → IsOpen items best → IsSummed items result }
{
    Least {
        known: best.known,
        sum: best.sum - price,
        before: best.before,
    }
}

/// The least list that ends in an item: alone, or over one of its links, the first on ties.
pub fn least_at(least: &[Least], links: &[Link], single: Option<i64>, price: i64) -> Least
    requires few { length least.now < most_items }
    requires summed { AreSummed least.now }
    requires links { All (IsReach (length least.now)) links.now }
    requires single { IsRanged single }
    requires low { neg_ℤ (pos most_price) ≤ℤ price }
    requires high { price ≤ℤ pos most_price }
    ensures { IsSummed (length least.now) result }
{
    let mut best = alone(single);
    for link in links {
        let next = over(least_in(least, link.from), *link);
        if is_less(next, best) {
            best = next;
        }
    }
    least_with_price(best, price)
}
