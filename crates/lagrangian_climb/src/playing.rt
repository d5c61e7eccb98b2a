//! Columns in play: those that may still be chosen where some items are fixed.

ghost use Rattle.std.specs.Prelude.{◌≡◌, ◌<◌, ◌≤◌, IfOk, length};
ghost use Rattle.cover_core.specs.Cover.{AllBelow};
ghost use Rattle.cover_core.specs.Fitting.{AreFit};
ghost use Rattle.lagrangian_climb.specs.Choices.{none_fixed, is_in_play, playing_of};

use cover_core::Column;
use plan_core::{Memory, Seq};
use std::alloc::Global;

/// Whether no item of a list is fixed.
fn none_fixed(fixed: &[bool], list: &[u32]) -> bool
    requires { AllBelow (length fixed.now) list.now }
    ensures { result ≡ none_fixed fixed.now list.now }
{
    for item in list {
        if fixed[*item as usize] {
            return false;
        }
    }
    true
}

/// Whether a column is in play: its class has a place, and none of its items is fixed. Each item of the column has a word whether it is
/// fixed, and its class a number of places that it has left.
pub fn is_in_play(fixed: &[bool], caps: &[u32], column: &Column) -> bool
    requires items { AllBelow (length fixed.now) column.now.items }
    requires class { column.now.class < length caps.now }
    ensures { result ≡ is_in_play fixed.now caps.now column.now }
{
    0 < caps[column.class as usize] && none_fixed(fixed, column.items.as_slice())
}

/// The places of the columns in play, as they lie in the pool. `Memory` is the only error.
pub(crate) fn in_play(
    alloc: Global,
    pool: &[Column],
    fixed: &[bool],
    caps: &[u32],
) -> Result<Seq<u32>, Memory>
    requires pool { length pool.now ≤ 200000 }
    requires fit { AreFit (length fixed.now) (length caps.now) pool.now }
    ensures { IfOk result (λ places. places ≡ playing_of fixed.now caps.now pool.now) }
{
    let mut places = Seq::new(alloc);
    for (place, column) in pool.iter().enumerate() {
        if is_in_play(fixed, caps, column) {
            places.push(place as u32)?;
        }
    }
    Ok(places)
}
