//! A matching of least cost, and the first of several.

ghost use Rattle.std.specs.Prelude.{◌≡◌, ℕ, ◌+◌, ◌*◌, ◌<◌, ◌≤◌, true, false, List, length, slice_index};
ghost use Rattle.plan_core.specs.Limits.{most_items};
ghost use Rattle.path_cover.specs.Nets.{IsCover};
ghost use Rattle.path_cover.specs.Firsts.{AllPlaced, IsEarliest};
ghost use Rattle.path_cover.specs.Searching.{AreLow, IsSeated, IsSized, one_search};

use crate::arcs::Arcs;
use crate::growth::{Falls, Growth, Target};
use crate::placing::{Placing, put_in, take_out};
use crate::search::place;

/// Gives a row a column, if it has none, at least cost; or sees that there is no cover.
fn place_row<A: Arcs>(
    arcs: &A,
    falls: &mut Falls,
    placing: &mut Placing,
    growth: &mut Growth,
    t: u32,
) -> bool
    requires row { t < (A.net arcs.now).nodes }
    requires few { (A.net arcs.now).nodes ≤ most_items }
    requires low { AreLow falls.old (t * one_search) }
    requires sized { IsSized (A.net arcs.now).nodes growth.old }
    requires seated { IsSeated (A.net arcs.now) falls.old placing.old }
    ensures seated { IsSeated (A.net arcs.now) falls.new placing.new }
    ensures sized { IsSized (A.net arcs.now).nodes growth.new }
    ensures low { AreLow falls.new ((t + 1) * one_search) }
    ensures placed { result ≡ true → slice_index placing.new.to.items t ≤ (A.net arcs.now).nodes }
    ensures others { result ≡ true → (s : ℕ) → s < (A.net arcs.now).nodes → slice_index placing.old.to.items s ≤ (A.net arcs.now).nodes → slice_index placing.new.to.items s ≤ (A.net arcs.now).nodes }
    ensures none { result ≡ false → (lists : List (List ℕ)) → IsCover (A.net arcs.now) lists → ⊥ }
{
    let n = arcs.nodes();
    if placing.to[t as usize] <= n {
        return true;
    }
    let target = Target {
        root: t,
        limit: n + 1,
        fixed: 0,
        level: u64::from(t) * 1_500_000_000_000,
    };
    place(arcs, falls, placing, growth, target)
}

/// Gives each row a column, at least cost; or sees that there is no cover.
pub(crate) fn place_all<A: Arcs>(
    arcs: &A,
    falls: &mut Falls,
    placing: &mut Placing,
    growth: &mut Growth,
) -> bool
    requires low { AreLow falls.old 0 }
    requires sized { IsSized (A.net arcs.now).nodes growth.old }
    requires seated { IsSeated (A.net arcs.now) falls.old placing.old }
    ensures seated { IsSeated (A.net arcs.now) falls.new placing.new }
    ensures sized { IsSized (A.net arcs.now).nodes growth.new }
    ensures low { AreLow falls.new 5000000000000000 }
    ensures placed { result ≡ true → AllPlaced (A.net arcs.now).nodes placing.new }
    ensures none { result ≡ false → (lists : List (List ℕ)) → IsCover (A.net arcs.now) lists → ⊥ }
{
    for t in 0..arcs.nodes() {
        if !place_row(arcs, falls, placing, growth, t) {
            return false;
        }
    }
    true
}

/// Gives a row an earlier column over tight arcs, where rows before it keep theirs; or sees that there is none.
fn advance<A: Arcs>(
    arcs: &A,
    falls: &mut Falls,
    placing: &mut Placing,
    growth: &mut Growth,
    t: u32,
) -> bool
    requires row { t < (A.net arcs.now).nodes }
    requires low { AreLow falls.old 5000000000000000 }
    requires sized { IsSized (A.net arcs.now).nodes growth.old }
    requires seated { IsSeated (A.net arcs.now) falls.old placing.old }
    requires placed { AllPlaced (A.net arcs.now).nodes placing.old }
    ensures seated { IsSeated (A.net arcs.now) falls.new placing.new }
    ensures sized { IsSized (A.net arcs.now).nodes growth.new }
    ensures same { falls.new ≡ falls.old }
    ensures placed { AllPlaced (A.net arcs.now).nodes placing.new }
    ensures before { (s : ℕ) → s < t → slice_index placing.new.to.items s ≡ slice_index placing.old.to.items s }
    ensures earlier { result ≡ true → slice_index placing.new.to.items t < slice_index placing.old.to.items t }
    ensures first { result ≡ false → IsEarliest (A.net arcs.now) falls.new placing.new t }
{
    let n = arcs.nodes();
    let v = placing.to[t as usize];
    take_out(placing, n, t, v);
    let target = Target {
        root: t,
        limit: v,
        fixed: t + 1,
        level: 5_000_000_000_000_000,
    };
    if place(arcs, falls, placing, growth, target) {
        return true;
    }
    put_in(placing, n, t, v);
    false
}

/// Takes for a row the first column that a cover of least cost can have there.
fn settle<A: Arcs>(arcs: &A, falls: &mut Falls, placing: &mut Placing, growth: &mut Growth, t: u32)
    requires row { t < (A.net arcs.now).nodes }
    requires low { AreLow falls.old 5000000000000000 }
    requires sized { IsSized (A.net arcs.now).nodes growth.old }
    requires seated { IsSeated (A.net arcs.now) falls.old placing.old }
    requires placed { AllPlaced (A.net arcs.now).nodes placing.old }
    ensures seated { IsSeated (A.net arcs.now) falls.new placing.new }
    ensures sized { IsSized (A.net arcs.now).nodes growth.new }
    ensures same { falls.new ≡ falls.old }
    ensures placed { AllPlaced (A.net arcs.now).nodes placing.new }
    ensures before { (s : ℕ) → s < t → slice_index placing.new.to.items s ≡ slice_index placing.old.to.items s }
    ensures first { IsEarliest (A.net arcs.now) falls.new placing.new t }
{
    loop {
        if !advance(arcs, falls, placing, growth, t) {
            return;
        }
    }
}

/// Takes each node's successor for the first one that a cover of least cost can have there.
pub(crate) fn make_first<A: Arcs>(
    arcs: &A,
    falls: &mut Falls,
    placing: &mut Placing,
    growth: &mut Growth,
)
    requires low { AreLow falls.old 5000000000000000 }
    requires sized { IsSized (A.net arcs.now).nodes growth.old }
    requires seated { IsSeated (A.net arcs.now) falls.old placing.old }
    requires placed { AllPlaced (A.net arcs.now).nodes placing.old }
    ensures seated { IsSeated (A.net arcs.now) falls.new placing.new }
    ensures same { falls.new ≡ falls.old }
    ensures placed { AllPlaced (A.net arcs.now).nodes placing.new }
    ensures first { (t : ℕ) → t < (A.net arcs.now).nodes → IsEarliest (A.net arcs.now) falls.new placing.new t }
{
    for t in 0..arcs.nodes() {
        settle(arcs, falls, placing, growth, t);
    }
}
