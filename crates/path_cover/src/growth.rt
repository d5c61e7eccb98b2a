//! The tree of an augmenting path. A *row* is a place where an arc begins: a node, or the store, where each path starts. A *column* is a place
//! where an arc ends: a node, or the end, where each path ends. Both have the number of their node; store and end have the number of nodes.
//! Arguments `x` are rows and `v` columns.

ghost use Rattle.std.specs.Prelude.{◌≡◌, IfNone, ℕ, ◌+◌, ◌<◌, ◌≤◌, false, Some, None, length, cond, nat_lt, slice_index, slice_index_or, slice_set, IfSome};
ghost use Rattle.plan_core.specs.Limits.{most_items};
ghost use Rattle.path_cover.specs.Scans.{IsBest, IsNearer, IsScanned, offer_of, takes};

use crate::arcs::Arcs;
use crate::placing::Placing;

/// How far the potentials of rows (`tails`) and columns (`heads`) are below 0.
#[derive(Drop)]
pub struct Falls {
    /// For each place where an arc begins: of each node, and of the store.
    pub tails: Vec<u64>,
    /// For each place where an arc ends: of each node, and of the end.
    pub heads: Vec<u64>,
}

/// The tree: seen rows and columns, and what rows offer the columns that are not seen.
#[derive(Drop)]
pub struct Growth {
    /// The rows that are seen.
    pub rows: Vec<bool>,
    /// The columns that are seen.
    pub columns: Vec<bool>,
    /// For each seen row the column by which it was reached.
    pub by: Vec<u32>,
    /// For each column the row that offers least.
    pub via: Vec<u32>,
    /// For each column the least reduced cost that a seen row offers.
    pub least: Vec<Option<u64>>,
    /// How many columns lie between a row and the root.
    pub depth: Vec<u32>,
}

/// From which free row a search begins, which columns it may take at first, and below which row none is moved.
#[derive(Clone, Copy)]
pub struct Target {
    /// The free row.
    pub root: u32,
    /// The root may take the columns below this one.
    pub limit: u32,
    /// The rows below this one keep their columns.
    pub fixed: u32,
    /// No potential is further below 0 when the search begins.
    pub level: u64,
}

/// Whether an offer is less than what is kept.
fn is_taken(old: Option<u64>, offer: u64) -> bool
    ensures { result ≡ takes old (Some offer) }
{
    match old {
        None => true,
        Some(least) => offer < least,
    }
}

/// A row offers a column its reduced cost.
fn offer<A: Arcs>(arcs: &A, falls: &Falls, growth: &mut Growth, x: u32, v: u32)
    requires row { x ≤ (A.net arcs.now).nodes }
    requires column { v ≤ (A.net arcs.now).nodes }
    requires tails { x < length falls.now.tails.items }
    requires heads { v < length falls.now.heads.items }
    requires columns { v < length growth.old.columns.items }
    requires least { v < length growth.old.least.items }
    requires via { v < length growth.old.via.items }
    requires small { slice_index falls.now.heads.items v < 10000000000000000 }
    requires feasible { IfSome ((A.net arcs.now).arc x v) (λ c. slice_index falls.now.tails.items x ≤ c + slice_index falls.now.heads.items v) }
    ensures rows { growth.new.rows.items ≡ growth.old.rows.items }
    ensures columns { growth.new.columns.items ≡ growth.old.columns.items }
    ensures by { growth.new.by.items ≡ growth.old.by.items }
    ensures depth { growth.new.depth.items ≡ growth.old.depth.items }
    ensures least { let old = slice_index_or growth.old.least.items v None in
        let offered = offer_of (slice_index_or growth.old.columns.items v false) ((A.net arcs.now).arc x v) (slice_index falls.now.heads.items v) (slice_index falls.now.tails.items x) in
        growth.new.least.items ≡ cond (takes old offered) (slice_set growth.old.least.items v offered) growth.old.least.items }
    ensures via { let old = slice_index_or growth.old.least.items v None in
        let offered = offer_of (slice_index_or growth.old.columns.items v false) ((A.net arcs.now).arc x v) (slice_index falls.now.heads.items v) (slice_index falls.now.tails.items x) in
        growth.new.via.items ≡ cond (takes old offered) (slice_set growth.old.via.items v x) growth.old.via.items }
{
    if growth.columns[v as usize] {
        return;
    }
    match arcs.arc(x, v) {
        None => {}
        Some(cost) => {
            let offered = u64::from(cost) + falls.heads[v as usize] - falls.tails[x as usize];
            if is_taken(growth.least[v as usize], offered) {
                growth.least[v as usize] = Some(offered);
                growth.via[v as usize] = x;
            }
        }
    }
}

/// A row offers the columns below a limit their reduced costs.
pub(crate) fn scan<A: Arcs>(arcs: &A, falls: &Falls, growth: &mut Growth, x: u32, limit: u32)
    requires row { x ≤ (A.net arcs.now).nodes }
    requires limit { limit ≤ (A.net arcs.now).nodes + 1 }
    requires tails { x < length falls.now.tails.items }
    requires heads { limit ≤ length falls.now.heads.items }
    requires columns { limit ≤ length growth.old.columns.items }
    requires least { limit ≤ length growth.old.least.items }
    requires via { limit ≤ length growth.old.via.items }
    requires small { (v : ℕ) → v < limit → slice_index falls.now.heads.items v < 10000000000000000 }
    requires feasible { (v c : ℕ) → v < limit → (A.net arcs.now).arc x v ≡ Some c → slice_index falls.now.tails.items x ≤ c + slice_index falls.now.heads.items v }
    ensures rows { growth.new.rows.items ≡ growth.old.rows.items }
    ensures columns { growth.new.columns.items ≡ growth.old.columns.items }
    ensures by { growth.new.by.items ≡ growth.old.by.items }
    ensures depth { growth.new.depth.items ≡ growth.old.depth.items }
    ensures scanned { IsScanned limit x (λ v. offer_of (slice_index_or growth.old.columns.items v false) ((A.net arcs.now).arc x v) (slice_index falls.now.heads.items v) (slice_index falls.now.tails.items x)) growth.old.least.items growth.new.least.items growth.old.via.items growth.new.via.items }
{
    for v in 0..limit {
        offer(arcs, falls, growth, x, v);
    }
}

/// The nearer of two columns, with what they keep. Where both keep as much, the later one only if it is preferred.
fn nearer(
    best: Option<(u32, u64)>,
    v: u32,
    offered: Option<u64>,
    preferred: bool,
) -> Option<(u32, u64)>
    ensures none { IfNone offered (result ≡ best) }
    ensures some { IfSome offered (λ d. IsNearer best (v, d) result) }
{
    match (offered, best) {
        (None, _) => best,
        (Some(cost), None) => Some((v, cost)),
        (Some(cost), Some((old, least))) => {
            if cost < least || (cost == least && preferred) {
                Some((v, cost))
            } else {
                Some((old, least))
            }
        }
    }
}

/// Whether a column has a free place.
pub(crate) fn is_free(placing: &Placing, n: u32, v: u32) -> bool
    requires from { length placing.now.from.items ≡ n }
    ensures { result ≡ cond (nat_lt v n) (nat_lt n (slice_index placing.now.from.items v)) (nat_lt 0 placing.now.room) }
{
    if v < n {
        placing.from[v as usize] > n
    } else {
        placing.room > 0
    }
}

/// The column that is not seen and keeps least, with what it keeps; of several a free one first.
pub(crate) fn nearest(growth: &Growth, placing: &Placing, n: u32) -> Option<(u32, u64)>
    requires few { n ≤ most_items }
    requires from { length placing.now.from.items ≡ n }
    requires columns { length growth.now.columns.items ≡ n + 1 }
    requires least { length growth.now.least.items ≡ n + 1 }
    ensures { IsBest growth.now.columns.items growth.now.least.items (n + 1) result }
{
    let mut best = None;
    for v in 0..n + 1 {
        if !growth.columns[v as usize] {
            best = nearer(best, v, growth.least[v as usize], is_free(placing, n, v));
        }
    }
    best
}
