//! Heads of blocks.

use plan_core::Seq;

/// What of a block has begun before a moment: its first trips, which stay as they are.
#[derive(Drop)]
pub struct Head {
    /// The pool, from 0.
    pub class: u32,
    /// The trips that are kept, the first ones of the block.
    pub trips: Seq<u32>,
    /// Whether the last of them ends before the moment: then no further trip may follow.
    pub finished: bool,
}
