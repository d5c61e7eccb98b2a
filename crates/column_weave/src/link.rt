//! Links.

/// A link into an item.
#[derive(Clone, Copy, Debug, PartialEq, Eq)]
pub struct Link {
    /// The item before, from 0.
    pub from: u32,
    /// The rise, in thousandths of a cost unit.
    pub rise: i64,
}
