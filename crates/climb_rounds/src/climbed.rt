//! What climbing gives.

use cover_core::Plan;
use dual_bound::Kept;

/// A plan and the offer that bounds the costs of every plan.
#[derive(Drop)]
pub struct Climbed {
    /// The plan.
    pub plan: Plan,
    /// The kept offer: no plan costs less than its bound, in cost units.
    pub kept: Kept,
}

/// Why there is no plan.
#[derive(Drop)]
pub enum ClimbFault {
    /// Rounding leaves an item: each class in which it alone has a worth is full, and it fits into no column. No dive found a plan either.
    NotPlaced {
        /// The item, from 0.
        item: u32,
        /// The columns beside which it is left.
        partial: Plan,
    },
    /// Out of memory.
    Memory,
}
