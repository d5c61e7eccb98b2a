//! Where prices start.
#![tactic(auto)]

ghost use Rattle.std.specs.Prelude.{◌≡◌, ℕ, ◌<◌, ◌≤◌, ◌*◌, ◌∷◌, [], ◌≤ℤ◌, pos, length, unwrap_or, IfOk};
ghost use Rattle.plan_core.specs.Limits.{most_price};
ghost use Rattle.cover_core.specs.Plans.{price_at};
ghost use Rattle.cover_core.specs.FirstLeast.{AllWithin};
ghost use Rattle.cover_master.specs.Method.{least_of, least_worth, start_price, starting_prices};
ghost use Rattle.cover_master.specs.Fitting.{IsModerate};

use cover_core::{Columns, Prices};
use plan_core::{Memory, Price, Seq};
use std::alloc::Global;

/// The smaller of two worths, where there are any.
fn least_of(a: Option<u64>, b: Option<u64>) -> Option<u64>
    requires a { IsModerate a }
    requires b { IsModerate b }
    ensures least { result ≡ least_of a b }
    ensures moderate { IsModerate result }
{
    match (a, b) {
        (None, other) => other,
        (Some(x), None) => Some(x),
        (Some(x), Some(y)) => Some(x.min(y)),
    }
}

/// The least worth of an item alone.
fn least_worth<C: Columns>(columns: &C, item: u32) -> Option<u64>
    requires { item < (C.problem columns.now).items }
    ensures least { result ≡ least_worth (C.problem columns.now) (length (C.problem columns.now).caps) (item ∷ []) }
    ensures moderate { IsModerate result }
{
    let mut least = None;
    for class in 0..columns.classes() {
        let worth = columns.worth(class, [item].as_slice());
        least = least_of(least, worth);
    }
    least
}

/// A thousand times a worth, or 0.
fn start_of(least: Option<u64>) -> i64
    requires { IsModerate least }
    ensures value { result ≡ pos (1000 * unwrap_or least 0) }
    ensures high { result ≤ℤ pos 4000000000000 }
{
    match least {
        None => 0,
        Some(worth) => 1000 * worth as i64,
    }
}

/// The prices before the first round: a thousand times the least worth of each item alone, over all classes, and 0 where it has none.
/// `Memory` is the only error.
pub fn start_prices<C: Columns>(alloc: Global, columns: &C) -> Result<Prices, Memory>
    ensures start { IfOk result (λ new. new.items ≡ starting_prices (C.problem columns.now)) }
    ensures moderate { IfOk result (λ new. AllWithin most_price new.items) }
{
    let items = each_start(alloc, columns)?;
    Ok(Prices { items })
}

/// The start price of each item.
fn each_start<C: Columns>(alloc: Global, columns: &C) -> Result<Seq<Price>, Memory>
    ensures len { IfOk result (λ new. length new ≡ (C.problem columns.now).items) }
    ensures start { IfOk result (λ new. (item : ℕ) → item < (C.problem columns.now).items → price_at new item ≡ start_price (C.problem columns.now) item) }
    ensures moderate { IfOk result (λ new. AllWithin most_price new) }
{
    let mut new = Seq::new(alloc);
    for item in 0..columns.items() {
        let price = start_of(least_worth(columns, item));
        new.push(Price(price))?;
    }
    Ok(new)
}
