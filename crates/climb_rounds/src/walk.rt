//! How far the prices have come.

ghost use Rattle.std.specs.Prelude.{◌≡◌, ◌<◌, ◌≤◌, ◌≤ℤ◌, pos, neg_ℤ, IfOk};
ghost use Rattle.plan_core.specs.Limits.{most_price};
ghost use Rattle.worker_price.specs.Work.{ArePricesFor};

use cover_core::{Columns, Prices, price_at};
use dual_bound::Kept;
use plan_core::{Memory, Price, Seq};
use plan_dive::Course;
use std::alloc::Global;

/// The prices of a pass, its kept offer and its best estimate.
#[derive(Drop)]
pub(crate) struct Walk {
    /// The prices that climb, with the pace of the next climb, what classes ask, and the counts of the last climb.
    pub(crate) course: Course,
    /// The prices that are offered next.
    pub(crate) at: Prices,
    /// The offered prices of the best estimate.
    pub(crate) centre: Prices,
    /// These prices at the scale of the best estimate.
    pub(crate) scaled: Prices,
    /// The best estimate, in thousandths of a cost unit.
    pub(crate) guess: Option<i128>,
    /// The kept offer.
    pub(crate) kept: Option<Kept>,
    /// Whether the best estimate shows that no cheaper plan is worth looking for.
    pub(crate) over: bool,
}

/// A copy of prices.
pub(crate) fn copy_of(alloc: Global, prices: &Prices) -> Result<Prices, Memory>
    ensures { IfOk result (λ copy. copy.items ≡ prices.now.items) }
{
    let items = Seq::new(alloc).with_items(prices.items.as_slice())?;
    Ok(Prices { items })
}

/// The number half way between two prices, rounded down.
fn half_way(one: i64, other: i64) -> i64
    requires one_low { neg_ℤ (pos most_price) ≤ℤ one }
    requires one_high { one ≤ℤ pos most_price }
    requires other_low { neg_ℤ (pos most_price) ≤ℤ other }
    requires other_high { other ≤ℤ pos most_price }
    ensures low { neg_ℤ (pos most_price) ≤ℤ result }
    ensures high { result ≤ℤ pos most_price }
{
    (one + other).div_euclid(2)
}

/// The prices half way between two vectors of prices, rounded down.
pub(crate) fn middle<C: Columns>(
    alloc: Global,
    _problem: &C,
    one: &Prices,
    other: &Prices,
) -> Result<Prices, Memory>
    requires one { ArePricesFor (C.problem _problem.now) one.now.items }
    requires other { ArePricesFor (C.problem _problem.now) other.now.items }
    ensures { IfOk result (λ new. ArePricesFor (C.problem _problem.now) new.items) }
{
    let mut items = Seq::new(alloc);
    for item in 0..one.items.len() {
        items.push(Price(half_way(price_at(one, item), price_at(other, item))))?;
    }
    Ok(Prices { items })
}
