//! The path that follows a matching.

ghost use Rattle.std.specs.Prelude.{◌≡◌, ◌<◌, ◌≤◌, ℕ, List, ◌∷◌, length, slice_index, IfOk};
ghost use Rattle.path_cover.specs.Nets.{first_nodes};
ghost use Rattle.path_cover.specs.Walks.{AllFollow, FollowsFrom, starts};

use plan_core::{Memory, Seq};
use std::alloc::Global;

/// The path that begins with a node: each node is followed by its column, up to the end.
pub(crate) fn follow(alloc: Global, to: &[u32], n: u32, start: u32) -> Result<Seq<u32>, Memory>
    requires count { length to.now ≡ n }
    requires start { start < n }
    requires rises { (t : ℕ) → t < n → t < slice_index to.now t }
    requires within { (t : ℕ) → t < n → slice_index to.now t ≤ n }
    ensures { IfOk result (λ path. (rest : List ℕ) × (path ≡ start ∷ rest) × FollowsFrom n (slice_index to.now) start rest) }
{
    let mut path = Seq::new(alloc);
    let mut last = start;
    path.push(last)?;
    while to[last as usize] < n {
        last = to[last as usize];
        path.push(last)?;
    }
    Ok(path)
}

/// The paths that follow a matching, by their first nodes.
pub(crate) fn follow_all(
    alloc: Global,
    to: &[u32],
    from: &[u32],
    n: u32,
) -> Result<Seq<Seq<u32>>, Memory>
    requires to { length to.now ≡ n }
    requires from { length from.now ≡ n }
    requires rises { (t : ℕ) → t < n → t < slice_index to.now t }
    requires within { (t : ℕ) → t < n → slice_index to.now t ≤ n }
    ensures follow { IfOk result (AllFollow n (slice_index to.now)) }
    ensures firsts { IfOk result (λ lists. first_nodes lists ≡ starts n (slice_index from.now) n) }
{
    let mut lists = Seq::new(alloc);
    for u in 0..n {
        if from[u as usize] == n {
            lists.push(follow(alloc, to, n, u)?)?;
        }
    }
    Ok(lists)
}
