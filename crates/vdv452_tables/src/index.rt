//! Rows by their keys.

ghost use Rattle.std.specs.Prelude.{◌≡◌, IfOk, vec_len};
ghost use Rattle.indexmap.specs.IndexMap.{get};
ghost use Rattle.vdv452_tables.specs.Keys.{IsIndex};

use indexmap::IndexMap;
use plan_core::Memory;
use std::alloc::Global;
use std::hash::Hash;

/// A row of a table that is found by its key: `K` is the key, `V` what is told of the row.
pub trait KeyedRow<K, V> {
    /// The row's key.
    ghost key_of: { Self → K };

    /// What is told of the row.
    ghost value_of: { Self → V };

    /// The row's key, and what is told of it. `Memory` is the only error.
    fn entry(&self, alloc: Global) -> Result<(K, V), Memory>
        ensures { IfOk result (λ entry. entry ≡ (key_of self.now, value_of self.now)) };
}

/// The values of rows by their keys, from the last row to the first, so that the first row of a key
/// counts. `Memory` is the only error.
pub fn index_of<K: Eq + Hash + Drop, V: Drop, R: KeyedRow<K, V>>(
    alloc: Global,
    rows: &[R],
) -> Result<IndexMap<K, V>, Memory>
    ensures { IfOk result (λ index. IsIndex K.eq R.key_of R.value_of rows.now index) }
{
    let mut index = IndexMap::with_capacity(alloc, rows.len())?;
    let mut left = rows.len();
    while left > 0 {
        left -= 1;
        let row = &rows[left];
        let (key, value) = row.entry(alloc)?;
        index.insert(key, value)?;
    }
    Ok(index)
}
