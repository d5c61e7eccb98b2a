//! Why a day has no plan.

use cover_core::Plan;
use day_method::Side;

/// An item by the numbers that the tables of a plan give it.
#[derive(Clone, Copy, Debug, PartialEq, Eq)]
pub enum ItemName {
    /// A trip.
    Trip {
        /// Its number FRT_FID.
        fid: u64,
    },
    /// A piece of a block.
    Piece {
        /// The number of the block (UM_UID), from 1.
        block: u32,
        /// The index of the piece in the block (STUECK_NR), from 1.
        index: u32,
    },
}

/// Why a day has no plan.
#[derive(Drop)]
pub enum PlanFault {
    /// The bound on the number of blocks is above the number of vehicles, and then the day has no blocks at all; or the bound on the
    /// number of duties is above the number of drivers, and then there are no duties over the pieces of the blocks that were planned.
    NoPlan {
        /// The side that has no plan.
        side: Side,
        /// The bound.
        bound: u64,
        /// The number of vehicles, or of drivers.
        places: u64,
    },
    /// Rounding leaves a trip or a piece: each pool or group in which it alone has a worth is full, and it fits into no block or duty.
    NotPlaced {
        /// The side that it is of.
        side: Side,
        /// Its number among the trips of the day or the pieces of the blocks, from 0.
        item: u32,
        /// The trip or piece.
        name: ItemName,
        /// The blocks or duties beside which it is left.
        partial: Plan,
    },
    /// Out of memory.
    Memory,
}
