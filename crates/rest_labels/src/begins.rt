//! Where the lists of a group begin.

ghost use Rattle.std.specs.Prelude.{◌≡◌, ◌<◌, ◌≤◌, ◌/◌, ◌∷◌, ℕ, List, length};
ghost use Rattle.cover_core.specs.Cover.{AllBelow};
ghost use Rattle.cover_rest.specs.Laws.{StandForAll};
ghost use Rattle.cover_rest.specs.Rest.{body_at};
ghost use Rattle.rest_labels.specs.Laws.{BeginWithin};

use plan_core::Seq;

/// Items from a first one on and before an end.
#[derive(Clone, Copy)]
pub struct ItemRange {
    pub first: u32,
    pub end: u32,
}

/// A range with the first item of what an item of the rest stands for.
fn with_body(range: ItemRange, body: &[u32], items: u32) -> ItemRange
    requires { AllBelow items body.now }
    ensures first { result.first ≤ range.first }
    ensures end { range.end ≤ result.end }
    ensures within { (y : ℕ) (ys : List ℕ) → body.now ≡ y ∷ ys → (result.first ≤ y) × (y < result.end) }
{
    match body {
        [] => range,
        [item, ..] => ItemRange {
            first: range.first.min(*item),
            end: range.end.max(*item + 1),
        },
    }
}

/// A range with the first item of what an item of the rest stands for, where that is in a group.
fn with_item(
    range: ItemRange,
    bodies: &[Seq<u32>],
    group: u32,
    items: u32,
    item: usize,
) -> ItemRange
    requires item { item < length bodies.now }
    requires bodies { StandForAll items bodies.now }
    ensures first { result.first ≤ range.first }
    ensures end { range.end ≤ result.end }
    ensures within { (y : ℕ) (ys : List ℕ) → item / 16 ≡ group → body_at bodies.now item ≡ y ∷ ys → (result.first ≤ y) × (y < result.end) }
{
    if item / 16 == group as usize {
        with_body(range, bodies[item].as_slice(), items)
    } else {
        range
    }
}

/// A range, whose first item is at most the number of items, in which what the items of the rest in a group (16 * group to 16 * group + 15)
/// stand for begins. So labels of the lists that begin in it are enough to price the group. It takes time with the items of the rest.
pub fn first_items(bodies: &[Seq<u32>], group: u32, items: u32) -> ItemRange
    requires { StandForAll items bodies.now }
    ensures within { BeginWithin bodies.now group result.first result.end }
    ensures few { result.first ≤ items }
{
    let mut range = ItemRange {
        first: items,
        end: 0,
    };
    for item in 0..bodies.len() {
        range = with_item(range, bodies, group, items, item);
    }
    range
}
