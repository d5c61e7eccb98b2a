//! How often items stand in columns.

ghost use Rattle.std.specs.Prelude.{◌≡◌, ℕ, ◌+◌, ◌<◌, ◌≤◌, length, slice_index};
ghost use Rattle.plan_core.specs.Limits.{most_items};
ghost use Rattle.cover_core.specs.Cover.{AllBelow};
ghost use Rattle.cover_core.specs.Plans.{times};

use plan_core::Seq;

/// Counts each item of a column once more, where counts stand by item: at most 1,000,000 of each, and at most 3,000 items in a column. It
/// takes no memory, and as much time as the column has items.
pub fn add_items(cover: &mut Seq<u32>, list: &[u32])
    requires items { AllBelow (length cover.old) list.now }
    requires small { (i : ℕ) → slice_index cover.old i ≤ 1000000 }
    requires short { length list.now ≤ most_items }
    ensures added { (i : ℕ) → slice_index cover.new i ≡ slice_index cover.old i + times i list.now }
    ensures len { length cover.new ≡ length cover.old }
{
    for item in list {
        let count = cover.as_slice()[*item as usize];
        cover.set(*item as usize, count + 1);
    }
}
