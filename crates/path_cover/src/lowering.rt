//! Lowering the potentials of what is seen.

ghost use Rattle.std.specs.Prelude.{◌≡◌, ◌+◌, ◌-◌, ◌<◌, ◌≤◌, ℕ, cond, false, Some, None, length, slice_index, slice_index_or};
ghost use Rattle.std.specs.Option.{option_map};

/// Puts the numbers of what is seen further below 0.
pub(crate) fn fall(falls: &mut Vec<u64>, seen: &[bool], by: u64)
    requires count { length falls.old.items ≡ length seen.now }
    requires by { by < 1000000000000000000 }
    requires small { (i : ℕ) → slice_index falls.old.items i < 1000000000000000000 }
    ensures count { length falls.new.items ≡ length falls.old.items }
    ensures each { (i : ℕ) → i < length seen.now → slice_index falls.new.items i ≡ slice_index falls.old.items i + cond (slice_index_or seen.now i false) by 0 }
{
    for i in 0..seen.len() {
        if seen[i] {
            falls[i] += by;
        }
    }
}

/// What is left of an offer.
fn rest_of(offer: Option<u64>, by: u64) -> Option<u64>
    ensures { result ≡ option_map (λ d. d - by) offer }
{
    match offer {
        None => None,
        Some(cost) => Some(cost.saturating_sub(by)),
    }
}

/// Takes as much off what is offered.
pub(crate) fn take_off(least: &mut Vec<Option<u64>>, by: u64)
    ensures count { length least.new.items ≡ length least.old.items }
    ensures each { (i : ℕ) → i < length least.old.items → slice_index_or least.new.items i None ≡ option_map (λ d. d - by) (slice_index_or least.old.items i None) }
{
    for i in 0..least.len() {
        least[i] = rest_of(least[i], by);
    }
}
