//! Open blocks with numbers that are wide enough.

/// What decides an open block that is made from any mark, whatever the mark's numbers are.
#[derive(Clone, Copy, Debug, PartialEq, Eq)]
pub struct OpenMark {
    /// The class of the block, from 0.
    pub class: u32,
    /// The last trip of the block, from 0.
    pub trip: u32,
    /// The seconds of driving since the last cut, or since the pull-out's start.
    pub driving: u64,
    /// A thousand times what the block costs so far, or a thousand where blocks are counted, less the prices of its trips.
    pub value: i128,
}
