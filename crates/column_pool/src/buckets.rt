//! The table of buckets, by which a column is found among others.

ghost use Rattle.std.specs.Prelude.{◌≡◌, ◌∷◌, [], ◌++◌, ◌<◌, ℕ, length, not, slice_index, IfOk, OnOk, OnErr};
ghost use Rattle.std.specs.List.{list_any};
ghost use Rattle.column_pool.specs.Pools.{is_same, is_known, is_refused, pool_after};
ghost use Rattle.column_pool.specs.Buckets.{bucket_of, bucket_in, last_in, IsChained, IsIndexed};

use cover_core::Column;
use plan_core::{Memory, Seq, zeros};
use std::alloc::Global;

/// How many columns a pool takes.
const MOST: usize = 200000;

/// How many buckets there are.
const BUCKETS: usize = 262144;

/// The bucket of a class and a list.
fn bucket(class: u32, list: &[u32]) -> u32
    ensures { result ≡ bucket_of class list.now }
{
    let mut hash = class as u64;
    for item in list {
        hash = (8191 * hash + *item as u64) % 2147483647;
    }
    (hash % 262144) as u32
}

/// Whether two columns have the same class and list.
fn is_same(column: &Column, other: &Column) -> bool
    ensures { result ≡ is_same column.now other.now }
{
    other.class == column.class && other.items.as_slice() == column.items.as_slice()
}

/// Whether a column of the same class and list is there. `head` is one above the place of the last column of its bucket, and `earlier`
/// shows in the same way the column before each one in its bucket.
fn is_known(column: &Column, columns: &[Column], earlier: &[u32], head: u32) -> bool
    requires head { head ≡ last_in (bucket_in column.now) columns.now }
    requires len { length earlier.now ≡ length columns.now }
    requires chained { IsChained columns.now earlier.now }
    ensures { result ≡ is_known columns.now column.now }
{
    let mut place = head as usize;
    while place != 0 {
        let at = place - 1;
        if is_same(column, &columns[at]) {
            return true;
        }
        place = earlier[at] as usize;
    }
    false
}

/// Makes the table where it is still empty.
fn open_buckets(alloc: Global, heads: &mut Seq<u32>) -> Result<(), Memory>
    requires { 0 < length heads.old → length heads.old ≡ 262144 }
    ensures same { (bucket : ℕ) → slice_index heads.new bucket ≡ slice_index heads.old bucket }
    ensures width { OnOk result (length heads.new ≡ 262144) }
    ensures err { OnErr result (heads.new ≡ heads.old) }
{
    if heads.is_empty() {
        *heads = zeros(alloc, BUCKETS)?;
    }
    Ok(())
}

/// Puts a column behind all others, and beside it the one before it in its bucket. After `Memory` nothing has changed.
fn push_both(
    columns: &mut Vec<Column>,
    earlier: &mut Vec<u32>,
    column: Column,
    head: u32,
) -> Result<(), Memory>
    ensures columns { OnOk result (columns.new.items ≡ columns.old.items ++ column ∷ []) }
    ensures earlier { OnOk result (earlier.new.items ≡ earlier.old.items ++ head ∷ []) }
    ensures columns_err { OnErr result (columns.new.items ≡ columns.old.items) }
    ensures earlier_err { OnErr result (earlier.new.items ≡ earlier.old.items) }
{
    earlier.push(head)?;
    match columns.push(column) {
        Ok(()) => Ok(()),
        Err(_) => {
            let _ = earlier.pop();
            Err(Memory)
        }
    }
}

/// Adds a column that is not there yet, where there is room.
pub fn insert(
    columns: &mut Vec<Column>,
    heads: &mut Seq<u32>,
    earlier: &mut Vec<u32>,
    column: Column,
) -> Result<bool, Memory>
    requires indexed { IsIndexed columns.old.items heads.old earlier.old.items }
    ensures indexed { IsIndexed columns.new.items heads.new earlier.new.items }
    ensures answer { IfOk result (λ added. added ≡ not (is_refused columns.old.items column)) }
    ensures pool { IfOk result (λ _. columns.new.items ≡ pool_after columns.old.items column) }
    ensures memory { OnErr result (columns.new.items ≡ columns.old.items) }
{
    if MOST <= columns.as_slice().len() {
        return Ok(false);
    }
    open_buckets(*columns.allocator(), heads)?;
    let bucket = bucket(column.class, column.items.as_slice()) as usize;
    let head = heads.as_slice()[bucket];
    if is_known(&column, columns.as_slice(), earlier.as_slice(), head) {
        return Ok(false);
    }
    push_both(columns, earlier, column, head)?;
    heads.set(bucket, columns.as_slice().len() as u32);
    Ok(true)
}
