//! Lists of a rest.

ghost use Rattle.std.specs.Prelude.{◌≡◌, ◌∷◌, ◌&&◌, ℕ, Bool, List, length, nat_le, nat_lt, slice_get};
ghost use Rattle.cover_rest.specs.Rest as spec;

use crate::begun::Begun;

/// Whether both hold.
fn both(a: bool, b: bool) -> bool
    ensures { result ≡ (a && b) }
{
    a && b
}

/// Whether an item may stand behind another one: it comes later, is there, and is no head.
fn comes_after(heads: usize, items: usize, last: u32, item: u32) -> bool
    ensures { result ≡ ((nat_lt last item && nat_lt item items) && nat_le heads item) }
{
    last < item && (item as usize) < items && heads <= item as usize
}

/// Whether items may follow one: they rise behind it, are items of the rest, and none is a head.
fn may_follow(heads: usize, items: usize, first: u32, rest: &[u32]) -> bool
    ensures { result ≡ ((spec.rises (first ∷ rest.now) && spec.all_below items rest.now) && spec.none_below heads rest.now) }
{
    let mut last = first;
    for item in rest {
        if !comes_after(heads, items, last, *item) {
            return false;
        }
        last = *item;
    }
    true
}

/// Whether a list of a class that begins with an item may go on with others.
fn goes_on(heads: &[Begun], class: u32, first: u32, rest: &[u32], begins: bool) -> bool
    ensures { (may : ℕ → List ℕ → Bool) (list : List ℕ) → may class list ≡ begins → result ≡ spec.may_go_on may class (slice_get heads.now first) rest.now list }
{
    match heads.get(first as usize) {
        None => begins,
        Some(head) => head.class == class && (!head.finished || rest.is_empty()),
    }
}

/// Whether a list is one of the rest in a class: it is not empty, it rises, its items are there, a head stands in it as its first item
/// alone, with a head the class is the head's and nothing follows where the head is finished, and without one it may be begun now, as
/// `begins` says. `items` is how many items the rest has. It takes no memory, and goes through the list once.
pub fn is_rest_list(heads: &[Begun], items: usize, class: u32, list: &[u32], begins: bool) -> bool
    ensures { (bs : List (List ℕ)) (may : ℕ → List ℕ → Bool) → length bs ≡ items → may class (spec.written bs list.now) ≡ begins → result ≡ spec.is_rest_list heads.now bs may class list.now }
{
    match list {
        [] => false,
        [first, rest @ ..] => {
            let there = (*first as usize) < items;
            let on = goes_on(heads, class, *first, rest, begins);
            let follow = may_follow(heads.len(), items, *first, rest);
            both(both(there, on), follow)
        }
    }
}
