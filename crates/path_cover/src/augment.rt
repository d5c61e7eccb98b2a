//! The walk back along an augmenting path.

ghost use Rattle.std.specs.Prelude.{◌≡◌, ◌≢◌, ◌+◌, ◌<◌, ◌≤◌, ℕ, length, slice_index};
ghost use Rattle.plan_core.specs.Limits.{most_places};
ghost use Rattle.path_cover.specs.Augmenting.{IsFramed, IsTightAs, IsWalkOf};

use crate::arcs::Arcs;
use crate::growth::{Falls, Growth, Target};
use crate::placing::{Placing, put_in, take_out};

/// Gives the root a column: from a column with a free place back, each row on the way moves to the column that it reached.
pub(crate) fn augment<A: Arcs>(
    arcs: &A,
    falls: &Falls,
    target: Target,
    growth: &Growth,
    placing: &mut Placing,
    v: u32,
)
    requires via { length growth.now.via.items ≡ (A.net arcs.now).nodes + 1 }
    requires by { length growth.now.by.items ≡ (A.net arcs.now).nodes + 1 }
    requires depth { length growth.now.depth.items ≡ (A.net arcs.now).nodes + 1 }
    requires most { (A.net arcs.now).most ≤ most_places }
    requires walk { IsWalkOf (A.net arcs.now) falls.now target growth.now placing.old v }
    ensures tight { IsTightAs (A.net arcs.now) falls.now placing.new }
    ensures framed { IsFramed (A.net arcs.now).nodes target placing.old.to.items placing.new.to.items }
    ensures root { slice_index placing.new.to.items target.root < target.limit }
    ensures within { slice_index placing.new.to.items target.root ≤ (A.net arcs.now).nodes }
{
    let n = arcs.nodes();
    let mut hole = v;
    let mut row = growth.via[hole as usize];
    while row != target.root {
        let old = growth.by[row as usize];
        take_out(placing, n, row, old);
        put_in(placing, n, row, hole);
        hole = old;
        row = growth.via[hole as usize];
    }
    put_in(placing, n, row, hole);
}
