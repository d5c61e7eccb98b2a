//! Which row each column follows, and to which column each row goes.

ghost use Rattle.std.specs.Prelude.{◌≡◌, ◌+◌, ◌<◌, ◌≤◌, length, slice_set, slice_index, cond, nat_lt, ◌==◌, ◌&&◌};

/// The number of a row or a column that has none.
pub const FREE: u32 = 4_294_967_295;

/// A matching of rows with columns. Row n is the store and column n the end: both have as many places as there may be paths.
#[derive(Drop)]
pub struct Placing {
    /// For each node the column that its row has: the node after it, n for the end, or `FREE`.
    pub to: Vec<u32>,
    /// For each node the row that its column has: the node before it, n for the store, or `FREE`.
    pub from: Vec<u32>,
    /// How many places of the store have one of the end: paths that are not used.
    pub spare: u32,
    /// How many places of the end are free.
    pub room: u32,
}

/// Takes the place of a row off its column.
pub(crate) fn take_out(m: &mut Placing, n: u32, x: u32, v: u32)
    requires to { length m.old.to.items ≡ n }
    requires from { length m.old.from.items ≡ n }
    requires row { x ≤ n }
    requires column { v ≤ n }
    requires few { m.old.room + 1 < 4294967296 }
    requires spare { n ≤ x → n ≤ v → 0 < m.old.spare }
    ensures to { m.new.to.items ≡ cond (nat_lt x n) (slice_set m.old.to.items x FREE) m.old.to.items }
    ensures from { m.new.from.items ≡ cond (nat_lt v n) (slice_set m.old.from.items v FREE) m.old.from.items }
    ensures room { m.new.room ≡ m.old.room + cond (nat_lt v n) 0 1 }
    ensures spare { m.new.spare + cond (nat_lt v n) 0 (cond (nat_lt x n) 0 1) ≡ m.old.spare }
{
    if x < n {
        m.to[x as usize] = FREE;
    }
    if v < n {
        m.from[v as usize] = FREE;
    } else {
        m.room += 1;
        if x >= n {
            m.spare -= 1;
        }
    }
}

/// Gives a row a place in a column that has one.
pub(crate) fn put_in(m: &mut Placing, n: u32, x: u32, v: u32)
    requires to { length m.old.to.items ≡ n }
    requires from { length m.old.from.items ≡ n }
    requires row { x ≤ n }
    requires column { v ≤ n }
    requires few { m.old.spare + 1 < 4294967296 }
    requires room { n ≤ v → 0 < m.old.room }
    ensures to { m.new.to.items ≡ cond (nat_lt x n) (slice_set m.old.to.items x v) m.old.to.items }
    ensures from { m.new.from.items ≡ cond (nat_lt v n) (slice_set m.old.from.items v x) m.old.from.items }
    ensures room { m.new.room + cond (nat_lt v n) 0 1 ≡ m.old.room }
    ensures spare { m.new.spare ≡ m.old.spare + cond (nat_lt v n) 0 (cond (nat_lt x n) 0 1) }
{
    if x < n {
        m.to[x as usize] = v;
    }
    if v < n {
        m.from[v as usize] = x;
    } else {
        m.room -= 1;
        if x >= n {
            m.spare += 1;
        }
    }
}
