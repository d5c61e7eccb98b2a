//! Open blocks.

/// What decides how a list of trips of a pool that is not yet driven in may go on, and what it is worth so far.
#[derive(Clone, Copy, Debug, PartialEq, Eq)]
pub struct OpenBlock {
    /// The last trip, from 0.
    pub trip: u32,
    /// The seconds of driving at its end, since the last cut or since the start of the pull-out.
    pub driving: u32,
    /// A thousand times the cost so far, or a thousand where blocks are counted, less the prices of the trips, in thousandths of a cost
    /// unit.
    pub value: i64,
}
