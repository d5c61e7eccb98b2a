//! What a run of the planner found.

use cover_core::Plan;
use plan_core::{Leg, Piece, Seq};

/// What a run of the planner found.
#[derive(Drop)]
pub struct Answer {
    /// The vehicle blocks in printed order: by their first trips. Each column is a block of the pool of its class, and its worth is the
    /// block's cost.
    pub blocks: Plan,
    /// For each block its legs in time order.
    pub legs: Seq<Seq<Leg>>,
    /// The pieces that the blocks are cut into, by start, block and index.
    pub pieces: Seq<Piece>,
    /// The duties in printed order: by their first pieces. Each column is a duty of the group of its class, and its worth is the duty's
    /// cost.
    pub duties: Plan,
    /// The bounds of the passes, in their order: on the number of blocks, on their cost, on the number of duties, and on theirs. Each is
    /// below 2^63.
    pub bounds: Seq<u64>,
}
