//! The steps of a block.

/// What a trip adds to a block.
#[derive(Clone, Copy, Debug, PartialEq, Eq)]
pub struct Step {
    /// Its cost in cost units: the move to it, and the stand before it; of a first trip the fixed cost and the pull-out.
    pub cost: u64,
    /// The seconds of driving at the trip's end, since the last cut or since the start of the pull-out: at most 16,200.
    pub driving: u32,
}
