//! The first cover of least cost, with its greatest potentials.

ghost use Rattle.std.specs.Prelude.{◌≡◌, ◌≤◌, ℕ, ◌+◌, List, IfNone, IfOk, IfSome, None, false, replicate};
ghost use Rattle.plan_core.specs.Limits.{most_items};
ghost use Rattle.path_cover.specs.Augmenting.{potentials_of};
ghost use Rattle.path_cover.specs.Greatest.{AreGreatest};
ghost use Rattle.path_cover.specs.Nets.{IsCover, IsFirstLeastCover};
ghost use Rattle.path_cover.specs.Searching.{AreLow, HasPlaces, IsSized};

use crate::arcs::Arcs;
use crate::cover::{make_first, place_all};
use crate::follow::follow_all;
use crate::growth::{Falls, Growth};
use crate::numbers::greatest;
use crate::placing::{FREE, Placing};
use plan_core::{Memory, Seq};
use std::alloc::Global;

/// A cover of least cost, with its potentials.
#[derive(Drop)]
pub struct LeastCover {
    /// Its paths, by their first nodes.
    pub paths: Seq<Seq<u32>>,
    /// Its greatest potentials, as how far each is below 0.
    pub falls: Falls,
}

/// A list of as many of one value.
fn list_of_one_value<T: Copy>(alloc: Global, value: T, count: u32) -> Result<Vec<T>, Memory>
    ensures { IfOk result (λ list. list.items ≡ replicate count value) }
{
    let mut list = Vec::new(alloc);
    for i in 0..count {
        list.push(value)?;
    }
    Ok(list)
}

/// All potentials at 0.
fn zero_falls(alloc: Global, n: u32) -> Result<Falls, Memory>
    requires few { n ≤ most_items }
    ensures tails { IfOk result (λ falls. falls.tails.items ≡ replicate (n + 1) 0) }
    ensures heads { IfOk result (λ falls. falls.heads.items ≡ replicate (n + 1) 0) }
{
    let tails = list_of_one_value(alloc, 0, n + 1)?;
    let heads = list_of_one_value(alloc, 0, n + 1)?;
    Ok(Falls { tails, heads })
}

/// A tree of which nothing is seen.
fn no_growth(alloc: Global, n: u32) -> Result<Growth, Memory>
    requires few { n ≤ most_items }
    ensures { IfOk result (λ growth. IsSized n growth) }
{
    let rows = list_of_one_value(alloc, false, n + 1)?;
    let columns = list_of_one_value(alloc, false, n + 1)?;
    let by = list_of_one_value(alloc, 0, n + 1)?;
    let via = list_of_one_value(alloc, 0, n + 1)?;
    let least = list_of_one_value(alloc, None, n + 1)?;
    let depth = list_of_one_value(alloc, 0, n + 1)?;
    Ok(Growth {
        rows,
        columns,
        by,
        via,
        least,
        depth,
    })
}

/// No row has a column, and all paths that there may be are not used.
fn no_placing(alloc: Global, n: u32, most: u32) -> Result<Placing, Memory>
    ensures to { IfOk result (λ placing. placing.to.items ≡ replicate n 4294967295) }
    ensures from { IfOk result (λ placing. placing.from.items ≡ replicate n 4294967295) }
    ensures spare { IfOk result (λ placing. placing.spare ≡ most) }
    ensures room { IfOk result (λ placing. placing.room ≡ 0) }
{
    let to = list_of_one_value(alloc, FREE, n)?;
    let from = list_of_one_value(alloc, FREE, n)?;
    Ok(Placing {
        to,
        from,
        spare: most,
        room: 0,
    })
}

/// The cover of least cost whose list of successors comes first, with its greatest potentials; `None` exactly where there is no cover.
///
/// The search is the successive shortest path method for minimum-cost flows in its primal-dual form (Ahuja, Magnanti and Orlin, Network
/// Flows, chapter 9), with a search for an alternating tree over tight arcs for each node. It takes at most about 2 n^3 steps for n nodes
/// to find a cover of least cost, and mostly far fewer. `Memory` is the only error.
pub fn least_cover<A: Arcs>(alloc: Global, arcs: &A) -> Result<Option<LeastCover>, Memory>
    ensures none { IfOk result (λ found. IfNone found ((lists : List (List ℕ)) → IsCover (A.net arcs.now) lists → ⊥)) }
    ensures first { IfOk result (λ found. IfSome found (λ least. IsFirstLeastCover (A.net arcs.now) least.paths)) }
    ensures greatest { IfOk result (λ found. IfSome found (λ least. AreGreatest (A.net arcs.now) least.paths (potentials_of least.falls))) }
    ensures places { IfOk result (λ found. IfSome found (λ least. HasPlaces (A.net arcs.now).nodes least.falls)) }
    ensures low { IfOk result (λ found. IfSome found (λ least. AreLow least.falls 1500000000000)) }
{
    let n = arcs.nodes();
    let most = arcs.most();
    let mut falls = zero_falls(alloc, n)?;
    let mut placing = no_placing(alloc, n, most)?;
    let mut growth = no_growth(alloc, n)?;
    if !place_all(arcs, &mut falls, &mut placing, &mut growth) {
        return Ok(None);
    }
    make_first(arcs, &mut falls, &mut placing, &mut growth);
    let paths = follow_all(alloc, placing.to.as_slice(), placing.from.as_slice(), n)?;
    let mut numbers = zero_falls(alloc, n)?;
    greatest(arcs, &placing, &mut numbers);
    Ok(Some(LeastCover {
        paths,
        falls: numbers,
    }))
}
