//! How often items stand in chosen columns.

ghost use Rattle.std.specs.Prelude.{◌≡◌, ℕ, ◌+◌, ◌<◌, ◌≤◌, length, slice_index, IfOk};
ghost use Rattle.plan_core.specs.Limits.{most_items};
ghost use Rattle.cover_core.specs.Cover.{AllBelow};
ghost use Rattle.cover_core.specs.Fitting.{AreFit};
ghost use Rattle.cover_core.specs.Plans.{times};

use crate::choosing::zero_counts;
use cover_core::{Column, add_items};
use plan_core::{Memory, Seq};
use std::alloc::Global;

/// How often each item stands in the columns at some places of a pool.
pub fn covers(
    alloc: Global,
    items: usize,
    pool: &[Column],
    places: &[u32],
) -> Result<Seq<u32>, Memory>
    requires items { items ≤ most_items }
    requires fit { AreFit items 32 pool.now }
    requires below { AllBelow (length pool.now) places.now }
    requires few { length places.now ≤ 200000 }
    ensures len { IfOk result (λ cover. length cover ≡ items) }
    ensures few { IfOk result (λ cover. (i : ℕ) → slice_index cover i ≤ 200000) }
{
    let mut cover = zero_counts(alloc, items)?;
    for place in places {
        add_items(&mut cover, pool[*place as usize].items.as_slice());
    }
    Ok(cover)
}

/// Counts the columns at some places once more.
pub fn count_all(counts: &mut Seq<u32>, places: &[u32])
    requires { AllBelow (length counts.old) places.now }
    ensures { length counts.new ≡ length counts.old }
{
    for place in places {
        let count = counts.as_slice()[*place as usize];
        counts.set(*place as usize, count.saturating_add(1));
    }
}
