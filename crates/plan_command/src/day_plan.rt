//! The plan of a day.

use cover_plan::Planned;
use plan_core::{Piece, Seq};

/// The plan of a day.
#[derive(Drop)]
pub struct DayPlan {
    /// The vehicle blocks in printed order: by their first trips. Each column is a block of the pool of its class, and its worth is the
    /// block's cost. With them the offers that bound their number and their cost.
    pub blocks: Planned,
    /// The pieces that the blocks are cut into, by start, block and index.
    pub pieces: Seq<Piece>,
    /// The driver duties in printed order: by their first pieces. Each column is a duty of the group of its class, and its worth is the
    /// duty's cost. With them the offers that bound their number and their cost.
    pub duties: Planned,
}
