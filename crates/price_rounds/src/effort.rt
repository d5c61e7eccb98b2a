//! How much work a plan is given.

/// How many workers price, how many rounds and steps a plan is given, and by which method it is found.
#[derive(Clone, Copy, Debug, PartialEq, Eq)]
pub struct Effort {
    /// The workers that price, 1 to 64. They change nothing that is found.
    pub workers: u32,
    /// The price rounds, 1 to 200.
    pub rounds: u32,
    /// The lowering rounds, 1 to 50.
    pub lower: u32,
    /// The exchange steps at most, 0 to 1,000.
    pub exchange: u32,
    /// Whether plan and prices are found by climbing, the other method. A [`pass`](crate::pass()) takes no notice of it.
    pub climb: bool,
}
