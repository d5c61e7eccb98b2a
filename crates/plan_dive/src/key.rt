//! A column by what decides when it is fixed.

/// A column of a pool by how often a climb chose it, its value and its place.
#[derive(Clone, Copy)]
pub(crate) struct Key {
    /// How often it was chosen.
    pub(crate) count: u32,
    /// Its value, in thousandths of a cost unit.
    pub(crate) value: i64,
    /// Its place in the pool.
    pub(crate) place: u32,
}
