//! The prices that potentials make.

ghost use Rattle.std.specs.Prelude.{◌≡◌, ◌≤◌, ◌<◌, ◌≤ℤ◌, ◌-ℤ◌, ◌*ℤ◌, ℕ, pos, IfOk, length, slice_index};
ghost use Rattle.cover_core.specs.Plans.{price_at};
ghost use Rattle.path_cover.specs.Augmenting.{potentials_of};
ghost use Rattle.path_cover.specs.Potentials.{ArePricesOf};
ghost use Rattle.path_cover.specs.Searching.{AreLow, HasPlaces};

use crate::arcs::Arcs;
use crate::growth::Falls;
use cover_core::Prices;
use plan_core::{Memory, Price, Seq};
use std::alloc::Global;

/// The prices of nodes, and of a path.
#[derive(Drop)]
pub struct PathPrices {
    /// The price of each node, in thousandths: from -1,500,000,000,000,000 to 1,500,000,000,000,000.
    pub nodes: Prices,
    /// The price of the class of paths, in thousandths: from -1,500,000,000,000,000 to 1,500,000,000,000,000.
    pub class: i64,
}

/// A thousand times how far one potential is above another; both are given by how far they are below 0.
fn thousandfold(high: u64, low: u64) -> i64
    requires high { high ≤ 1500000000000 }
    requires low { low ≤ 1500000000000 }
    ensures { result ≡ pos 1000 *ℤ ((pos 0 -ℤ pos high) -ℤ (pos 0 -ℤ pos low)) }
{
    1000 * (low as i64 - high as i64)
}

/// The price of each node: a thousand times how far its potential as an arc's end is above that as an arc's start.
fn node_prices(alloc: Global, falls: &Falls, n: u32) -> Result<Seq<Price>, Memory>
    requires places { HasPlaces n falls.now }
    requires low { AreLow falls.now 1500000000000 }
    ensures count { IfOk result (λ prices. length prices ≡ n) }
    ensures each { IfOk result (λ prices. (t : ℕ) → t < n → price_at prices t ≡ pos 1000 *ℤ ((pos 0 -ℤ pos (slice_index falls.now.heads.items t)) -ℤ (pos 0 -ℤ pos (slice_index falls.now.tails.items t)))) }
{
    let mut prices = Seq::new(alloc);
    for t in 0..n {
        let price = thousandfold(falls.heads[t as usize], falls.tails[t as usize]);
        prices.push(Price(price))?;
    }
    Ok(prices)
}

/// The prices that potentials make: of a node a thousand times how far its potential as an arc's end is above that as an arc's start,
/// and of the class of paths a thousand times how far the store's potential is above the end's. No potential may be further than
/// 1,500,000,000,000 below 0, as those of `least_cover` are not. `Memory` is the only error.
pub fn prices_of<A: Arcs>(alloc: Global, arcs: &A, falls: &Falls) -> Result<PathPrices, Memory>
    requires places { HasPlaces (A.net arcs.now).nodes falls.now }
    requires low { AreLow falls.now 1500000000000 }
    ensures { IfOk result (λ prices. ArePricesOf (A.net arcs.now) (potentials_of falls.now) prices.nodes.items prices.class) }
{
    let n = arcs.nodes();
    let items = node_prices(alloc, falls, n)?;
    let class = thousandfold(falls.tails[n as usize], falls.heads[n as usize]);
    Ok(PathPrices {
        nodes: Prices { items },
        class,
    })
}
