//! Columns of a pool in the order in which those of a class are chosen.

ghost use Rattle.std.specs.Prelude.{◌≡◌, OnOk};
ghost use Rattle.std.specs.List.Sorted.{IsPermutation, IsSortedBy};
ghost use Rattle.cover_core.specs.ColumnKeys.{is_before, key_cmp};

use plan_core::Memory;
use std::cmp::Ordering;

/// A column of a pool by its class, its value and its place: what decides on the order in which columns are chosen.
#[derive(Clone, Copy)]
pub struct ColumnKey {
    /// Its class, from 0.
    pub class: u32,
    /// Its value (reduced cost), in thousandths of a cost unit.
    pub value: i64,
    /// Its place in the pool, from 0.
    pub place: u32,
}

/// Orders columns by class, value and place.
fn compare(x: &ColumnKey, y: &ColumnKey) -> Ordering
    ensures { result ≡ key_cmp x.now y.now }
{
    let within = x.value.cmp(&y.value).then(x.place.cmp(&y.place));
    x.class.cmp(&y.class).then(within)
}

/// Brings columns into the order of class, value and place. The error is running out of memory.
pub fn sort_keys(keys: &mut Vec<ColumnKey>) -> Result<(), Memory>
    ensures permutation { IsPermutation keys.old.items keys.new.items }
    ensures sorted { OnOk result (IsSortedBy is_before keys.new.items) }
{
    match keys.sort_by(
        |x: &ColumnKey, y: &ColumnKey| -> Ordering
            ensures { result ≡ key_cmp x.now y.now }
        { compare(x, y) },
    ) {
        Ok(()) => Ok(()),
        Err(_) => Err(Memory),
    }
}
