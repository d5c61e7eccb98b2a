//! Prices of items, from prices of the items of a rest.

ghost use Rattle.std.specs.Prelude.{◌≡◌, ◌≤◌, ℕ, IfOk, length, replicate};
ghost use Rattle.cover_core.specs.FirstLeast.{AllWithin};
ghost use Rattle.cover_rest.specs.Laws.{StandForAll};
ghost use Rattle.rest_labels.specs.Prices.{AreAlike, nothing, placed, placed_all};

use plan_core::{Memory, Price, Seq};
use std::alloc::Global;

/// Puts a price on the first of some items.
fn place(spread: &mut Vec<Price>, body: &[u32], price: Price)
    ensures { spread.new.items ≡ placed body.now price spread.old.items }
{
    match body {
        [] => {}
        [first, ..] => {
            if (*first as usize) < spread.len() {
                spread[*first as usize] = price;
            }
        }
    }
}

/// The prices of the items of the rest, each put on the first item of what it stands for.
fn placed_prices(
    alloc: Global,
    bodies: &[Seq<u32>],
    prices: &[Price],
    items: u32,
) -> Result<Vec<Price>, Memory>
    requires { length bodies.now ≤ length prices.now }
    ensures { IfOk result (λ spread. spread.items ≡ placed_all bodies.now prices.now (replicate items nothing)) }
{
    let mut spread = vec![in alloc; Price(0); items as usize]?;
    let mut place_at = 0;
    for body in bodies {
        place(&mut spread, body.as_slice(), prices[place_at]);
        place_at += 1;
    }
    Ok(spread)
}

/// Prices of so many items, from prices of the items of the rest: of what an item of the rest stands for the first item has its price, and
/// the others cost nothing. So a written-out list has the prices of the list, where what the items of the rest stand for is each item
/// once. `Memory` is the only error.
pub fn spread_prices(
    alloc: Global,
    bodies: &[Seq<u32>],
    prices: &[Price],
    items: u32,
) -> Result<Vec<Price>, Memory>
    requires { length bodies.now ≤ length prices.now }
    ensures each { IfOk result (λ spread. length spread.items ≡ items) }
    ensures alike { StandForAll items bodies.now → IfOk result (λ spread. AreAlike bodies.now prices.now spread.items) }
    ensures within { (most : ℕ) → AllWithin most prices.now → IfOk result (λ spread. AllWithin most spread.items) }
{
    placed_prices(alloc, bodies, prices, items)
}
