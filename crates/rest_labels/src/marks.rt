//! Marks of the items of a rest: with which a list may begin, and behind which none may follow.

ghost use Rattle.std.specs.Prelude.{◌≡◌, ◌<◌, ◌≤◌, ℕ, Bool, List, [], IfOk, length, map, slice_get};
ghost use Rattle.cover_rest.specs.Rest.{body_at};
ghost use Rattle.rest_labels.specs.Labels.{is_set, may_follow, may_start, more_after};
ghost use Rattle.rest_labels.specs.Laws.{AreMarks};
ghost use Rattle.rest_labels.specs.Marks.{ends, starts_of};

use cover_rest::Begun;
use plan_core::Memory;
use std::alloc::Global;

/// For each head whether it is finished. `Memory` is the only error.
pub fn ended_heads(alloc: Global, heads: &[Begun]) -> Result<Vec<bool>, Memory>
    ensures each { IfOk result (λ ended. length ended.items ≡ length heads.now) }
    ensures ended { IfOk result (λ ended. (x : ℕ) → more_after ended.items x ≡ may_follow (slice_get heads.now x)) }
{
    listed_ends(alloc, heads)
}

/// The same, as a list.
fn listed_ends(alloc: Global, heads: &[Begun]) -> Result<Vec<bool>, Memory>
    ensures { IfOk result (λ ended. ended.items ≡ ends heads.now) }
{
    let mut ended = Vec::new(alloc);
    for head in heads {
        ended.push(head.finished)?;
    }
    Ok(ended)
}

/// For each item of the rest whether a list of a class may begin with it: with a head where it is of the class, and with what is no head
/// where `free` says so. There is a mark of `free` for each item of the rest; those of heads are not looked at. `Memory` is the only error.
pub fn starting_items(
    alloc: Global,
    heads: &[Begun],
    class: u32,
    free: &[bool],
) -> Result<Vec<bool>, Memory>
    requires { length heads.now ≤ length free.now }
    ensures each { IfOk result (λ starts. length starts.items ≡ length free.now) }
    ensures starts { (bs : List (List ℕ)) (may : ℕ → List ℕ → Bool) (x : ℕ) → x < length free.now → is_set free.now x ≡ may class (body_at bs x) → IfOk result (λ starts. is_set starts.items x ≡ may_start may class (slice_get heads.now x) (body_at bs x)) }
{
    listed_starts(alloc, heads, class, free)
}

/// The same, as a list.
fn listed_starts(
    alloc: Global,
    heads: &[Begun],
    class: u32,
    free: &[bool],
) -> Result<Vec<bool>, Memory>
    requires { length heads.now ≤ length free.now }
    ensures { IfOk result (λ starts. starts.items ≡ starts_of class heads.now free.now) }
{
    let mut starts = Vec::new(alloc);
    for head in heads {
        starts.push(head.class == class)?;
    }
    starts.extend_from_slice(&free[heads.len()..])?;
    Ok(starts)
}
