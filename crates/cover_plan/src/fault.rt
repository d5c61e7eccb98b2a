//! Why there is no plan.

use cover_core::Plan;

/// Why there is no plan.
#[derive(Drop)]
pub enum PlanFault {
    /// The bound on the number of columns is above the sum of all caps: there is no plan at all.
    NoPlan {
        /// The bound.
        bound: u64,
        /// The sum of all caps.
        places: u64,
    },
    /// Rounding leaves an item: each class in which it alone has a worth is full, and it fits into no column.
    NotPlaced {
        /// The item, from 0.
        item: u32,
        /// The columns beside which it is left.
        partial: Plan,
    },
    /// Out of memory.
    Memory,
}
