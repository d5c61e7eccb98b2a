//! Where an item may go.

/// A column that takes the item, or a new one.
#[derive(Clone, Copy)]
pub enum Spot {
    /// The column at a place.
    Into(usize),
    /// A new column of a class.
    New(u32),
}

/// A spot for an item, with what it does to the cost.
#[derive(Clone, Copy)]
pub struct Choice {
    /// By how much the cost rises, in cost units; it may fall.
    pub rise: i64,
    /// The worth of the column with the item.
    pub worth: u64,
    /// The spot.
    pub spot: Spot,
}
