//! The search for an augmenting path.

ghost use Rattle.std.specs.Prelude.{◌≡◌, ◌≢◌, ◌+◌, ◌-◌, ◌*◌, ◌<◌, ◌≤◌, ℕ, true, false, Some, None, length, slice_index, slice_index_or, slice_set, IfNone, IfSome, cond};
ghost use Rattle.std.specs.Option.{option_map};
ghost use Rattle.path_cover.specs.Augmenting.{potentials_of};
ghost use Rattle.path_cover.specs.Potentials.{AreFeasible};
ghost use Rattle.path_cover.specs.Scans.{IsScanned};
ghost use Rattle.path_cover.specs.Searching.{AreLow, HasPlaces, IsOpenedAs, IsReachedBy, IsRooted, IsSeated, IsSized, IsStuck, IsTreedAs, one_search, row_offer, seen_count};
ghost use Rattle.path_cover.specs.Outcomes.{IsOutcome};

use crate::arcs::Arcs;
use crate::augment::augment;
use crate::growth::{Falls, Growth, Target, is_free, nearest, scan};
use crate::lowering::{fall, take_off};
use crate::placing::Placing;

/// A row is seen: it was reached by a column, and makes its offers.
fn reach<A: Arcs>(arcs: &A, falls: &Falls, growth: &mut Growth, x: u32, by: u32)
    requires row { x ≤ (A.net arcs.now).nodes }
    requires column { by ≤ (A.net arcs.now).nodes }
    requires via { slice_index growth.old.via.items by ≤ (A.net arcs.now).nodes }
    requires near { (y : ℕ) → slice_index growth.old.depth.items y ≤ 3001 }
    requires sized { IsSized (A.net arcs.now).nodes growth.old }
    requires places { HasPlaces (A.net arcs.now).nodes falls.now }
    requires low { AreLow falls.now 9000000000000000 }
    requires feasible { AreFeasible (A.net arcs.now) (potentials_of falls.now) }
    ensures { IsReachedBy (A.net arcs.now) falls.now x by growth.old growth.new }
{
    let above = growth.depth[growth.via[by as usize] as usize];
    growth.rows[x as usize] = true;
    growth.by[x as usize] = by;
    growth.depth[x as usize] = above + 1;
    scan(arcs, falls, growth, x, arcs.nodes() + 1);
}

/// A row is seen, if it is not yet.
fn reach_new<A: Arcs>(arcs: &A, falls: &Falls, growth: &mut Growth, x: u32, by: u32)
    requires row { x ≤ (A.net arcs.now).nodes }
    requires column { by ≤ (A.net arcs.now).nodes }
    requires via { slice_index growth.old.via.items by ≤ (A.net arcs.now).nodes }
    requires near { (y : ℕ) → slice_index growth.old.depth.items y ≤ 3001 }
    requires sized { IsSized (A.net arcs.now).nodes growth.old }
    requires places { HasPlaces (A.net arcs.now).nodes falls.now }
    requires low { AreLow falls.now 9000000000000000 }
    requires feasible { AreFeasible (A.net arcs.now) (potentials_of falls.now) }
    ensures seen { slice_index_or growth.old.rows.items x false ≡ true → growth.new ≡ growth.old }
    ensures new { slice_index_or growth.old.rows.items x false ≡ false → IsReachedBy (A.net arcs.now) falls.now x by growth.old growth.new }
{
    if growth.rows[x as usize] {
        return;
    }
    reach(arcs, falls, growth, x, by);
}

/// The rows that hold the end and may be moved are seen, but for the store.
fn reach_last<A: Arcs>(
    arcs: &A,
    falls: &Falls,
    placing: &Placing,
    growth: &mut Growth,
    target: Target,
)
    requires opened { IsOpenedAs (A.net arcs.now) falls.now placing.now growth.old target (A.net arcs.now).nodes }
    ensures opened { IsOpenedAs (A.net arcs.now) falls.now placing.now growth.new target (A.net arcs.now).nodes }
    ensures columns { growth.new.columns.items ≡ growth.old.columns.items }
    ensures seen { (t : ℕ) → target.fixed ≤ t → t < (A.net arcs.now).nodes → slice_index placing.now.to.items t ≡ (A.net arcs.now).nodes → slice_index_or growth.new.rows.items t false ≡ true }
{
    let n = arcs.nodes();
    for t in target.fixed..n {
        if placing.to[t as usize] == n {
            reach_new(arcs, falls, growth, t, n);
        }
    }
}

/// The rows that hold a column and may be moved are seen.
fn reach_holders<A: Arcs>(
    arcs: &A,
    falls: &Falls,
    placing: &Placing,
    growth: &mut Growth,
    target: Target,
    v: u32,
)
    requires opened { IsOpenedAs (A.net arcs.now) falls.now placing.now growth.old target v }
    ensures treed { IsTreedAs (A.net arcs.now) falls.now placing.now growth.new target }
    ensures columns { growth.new.columns.items ≡ growth.old.columns.items }
{
    let n = arcs.nodes();
    if v < n {
        let x = placing.from[v as usize];
        if x >= target.fixed {
            reach_new(arcs, falls, growth, x, v);
        }
        return;
    }
    reach_last(arcs, falls, placing, growth, target);
    if placing.spare > 0 {
        reach_new(arcs, falls, growth, n, n);
    }
}

/// One more is seen.
fn see(seen: &mut Vec<bool>, i: u32)
    requires { i < length seen.old.items }
    ensures { seen.new.items ≡ slice_set seen.old.items i true }
{
    seen[i as usize] = true;
}

/// No row and no column is seen.
fn clear(growth: &mut Growth)
    requires columns { length growth.old.columns.items ≡ length growth.old.rows.items }
    requires least { length growth.old.least.items ≡ length growth.old.rows.items }
    requires depth { length growth.old.depth.items ≡ length growth.old.rows.items }
    ensures row_count { length growth.new.rows.items ≡ length growth.old.rows.items }
    ensures column_count { length growth.new.columns.items ≡ length growth.old.rows.items }
    ensures least_count { length growth.new.least.items ≡ length growth.old.rows.items }
    ensures depth_count { length growth.new.depth.items ≡ length growth.old.rows.items }
    ensures by { growth.new.by.items ≡ growth.old.by.items }
    ensures via { growth.new.via.items ≡ growth.old.via.items }
    ensures rows { (i : ℕ) → i < length growth.old.rows.items → slice_index_or growth.new.rows.items i false ≡ false }
    ensures columns { (i : ℕ) → i < length growth.old.rows.items → slice_index_or growth.new.columns.items i false ≡ false }
    ensures least { (i : ℕ) → i < length growth.old.rows.items → slice_index_or growth.new.least.items i None ≡ None }
    ensures depth { (i : ℕ) → i < length growth.old.rows.items → slice_index growth.new.depth.items i ≡ 0 }
{
    for i in 0..growth.rows.len() {
        growth.rows[i] = false;
        growth.columns[i] = false;
        growth.least[i] = None;
        growth.depth[i] = 0;
    }
}

/// The root alone is seen.
fn begin<A: Arcs>(arcs: &A, falls: &Falls, placing: &Placing, growth: &mut Growth, target: Target)
    requires root { target.root < (A.net arcs.now).nodes }
    requires limit { target.limit ≤ (A.net arcs.now).nodes + 1 }
    requires fixed { target.fixed ≤ (A.net arcs.now).nodes }
    requires level { target.level ≤ 5000000000000000 }
    requires low { AreLow falls.now target.level }
    requires sized { IsSized (A.net arcs.now).nodes growth.old }
    requires seated { IsSeated (A.net arcs.now) falls.now placing.now }
    requires free { (A.net arcs.now).nodes < slice_index placing.now.to.items target.root }
    ensures treed { IsTreedAs (A.net arcs.now) falls.now placing.now growth.new target }
    ensures none { seen_count growth.new.columns.items ≡ 0 }
{
    clear(growth);
    see(&mut growth.rows, target.root);
    scan(arcs, falls, growth, target.root, target.limit);
}

/// Takes as much off the potentials of what is seen.
fn lower(falls: &mut Falls, growth: &mut Growth, n: u32, by: u64)
    requires sized { IsSized n growth.old }
    requires places { HasPlaces n falls.old }
    requires low { AreLow falls.old 9000000000000000 }
    requires by { by < 1000000000000000000 }
    ensures places { HasPlaces n falls.new }
    ensures tails { (i : ℕ) → i < n + 1 → slice_index falls.new.tails.items i ≡ slice_index falls.old.tails.items i + cond (slice_index_or growth.old.rows.items i false) by 0 }
    ensures heads { (i : ℕ) → i < n + 1 → slice_index falls.new.heads.items i ≡ slice_index falls.old.heads.items i + cond (slice_index_or growth.old.columns.items i false) by 0 }
    ensures rows { growth.new.rows.items ≡ growth.old.rows.items }
    ensures columns { growth.new.columns.items ≡ growth.old.columns.items }
    ensures by { growth.new.by.items ≡ growth.old.by.items }
    ensures via { growth.new.via.items ≡ growth.old.via.items }
    ensures depth { growth.new.depth.items ≡ growth.old.depth.items }
    ensures least_count { length growth.new.least.items ≡ length growth.old.least.items }
    ensures least { (i : ℕ) → i < n + 1 → slice_index_or growth.new.least.items i None ≡ option_map (λ d. d - by) (slice_index_or growth.old.least.items i None) }
{
    fall(&mut falls.tails, growth.rows.as_slice(), by);
    fall(&mut falls.heads, growth.columns.as_slice(), by);
    take_off(&mut growth.least, by);
}

/// The nearest column, which a tight arc then reaches: potentials are lowered where the root may take all columns.
fn approach<A: Arcs>(
    arcs: &A,
    falls: &mut Falls,
    placing: &Placing,
    growth: &mut Growth,
    target: Target,
) -> Option<u32>
    requires treed { IsTreedAs (A.net arcs.now) falls.old placing.now growth.old target }
    requires lowers { (A.net arcs.now).nodes < target.limit → target.fixed ≡ 0 }
    requires count { seen_count growth.old.columns.items ≤ (A.net arcs.now).nodes + 1 }
    ensures treed { IsTreedAs (A.net arcs.now) falls.new placing.now growth.new target }
    ensures columns { growth.new.columns.items ≡ growth.old.columns.items }
    ensures same { target.limit ≤ (A.net arcs.now).nodes → falls.new ≡ falls.old }
    ensures stuck { IfNone result (IsStuck (A.net arcs.now) falls.new placing.now target) }
    ensures within { IfSome result (λ v. v ≤ (A.net arcs.now).nodes) }
    ensures unseen { IfSome result (λ v. slice_index_or growth.new.columns.items v false ≡ false) }
    ensures nothing { IfSome result (λ v. slice_index_or growth.new.least.items v None ≡ Some 0) }
{
    let n = arcs.nodes();
    match nearest(growth, placing, n) {
        None => None,
        Some((v, by)) => {
            if by == 0 {
                return Some(v);
            }
            if target.limit <= n {
                return None;
            }
            lower(falls, growth, n, by);
            Some(v)
        }
    }
}

/// What a step of a search comes to.
#[derive(Clone, Copy)]
pub(crate) enum Outcome {
    /// The tree cannot grow.
    Stuck,
    /// The root has a column.
    Placed,
    /// The tree has one column more.
    Grown,
}

/// One column more, or the root's column, or neither.
fn step<A: Arcs>(
    arcs: &A,
    falls: &mut Falls,
    placing: &mut Placing,
    growth: &mut Growth,
    target: Target,
) -> Outcome
    requires treed { IsTreedAs (A.net arcs.now) falls.old placing.old growth.old target }
    requires lowers { (A.net arcs.now).nodes < target.limit → target.fixed ≡ 0 }
    requires count { seen_count growth.old.columns.items ≤ (A.net arcs.now).nodes + 1 }
    ensures sized { IsSized (A.net arcs.now).nodes growth.new }
    ensures low { AreLow falls.new (target.level + one_search) }
    ensures same { target.limit ≤ (A.net arcs.now).nodes → falls.new ≡ falls.old }
    ensures outcome { IsOutcome (A.net arcs.now) target placing.old growth.old falls.new placing.new growth.new result }
{
    let n = arcs.nodes();
    match approach(arcs, falls, placing, growth, target) {
        None => Outcome::Stuck,
        Some(v) => {
            if is_free(placing, n, v) {
                augment(arcs, falls, target, growth, placing, v);
                return Outcome::Placed;
            }
            see(&mut growth.columns, v);
            reach_holders(arcs, falls, placing, growth, target, v);
            Outcome::Grown
        }
    }
}

/// Finds the root a column, or sees that it can have none; potentials are lowered only where the root may take all columns.
pub(crate) fn place<A: Arcs>(
    arcs: &A,
    falls: &mut Falls,
    placing: &mut Placing,
    growth: &mut Growth,
    target: Target,
) -> bool
    requires root { target.root < (A.net arcs.now).nodes }
    requires limit { target.limit ≤ (A.net arcs.now).nodes + 1 }
    requires fixed { target.fixed ≤ (A.net arcs.now).nodes }
    requires lowers { (A.net arcs.now).nodes < target.limit → target.fixed ≡ 0 }
    requires level { target.level ≤ 5000000000000000 }
    requires low { AreLow falls.old target.level }
    requires sized { IsSized (A.net arcs.now).nodes growth.old }
    requires seated { IsSeated (A.net arcs.now) falls.old placing.old }
    requires free { (A.net arcs.now).nodes < slice_index placing.old.to.items target.root }
    ensures seated { IsSeated (A.net arcs.now) falls.new placing.new }
    ensures sized { IsSized (A.net arcs.now).nodes growth.new }
    ensures low { AreLow falls.new (target.level + one_search) }
    ensures same { target.limit ≤ (A.net arcs.now).nodes → falls.new ≡ falls.old }
    ensures placed { result ≡ true → IsRooted (A.net arcs.now).nodes target placing.old placing.new }
    ensures kept { result ≡ false → placing.new ≡ placing.old }
    ensures stuck { result ≡ false → IsStuck (A.net arcs.now) falls.new placing.new target }
{
    begin(arcs, falls, placing, growth, target);
    for turn in 0..arcs.nodes() + 1 {
        match step(arcs, falls, placing, growth, target) {
            Outcome::Stuck => return false,
            Outcome::Placed => return true,
            Outcome::Grown => {}
        }
    }
    false
}
