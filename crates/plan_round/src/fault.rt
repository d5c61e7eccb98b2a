//! Why there is no plan.

use cover_core::Plan;

/// Why rounding gave no plan.
#[derive(Drop)]
pub enum RoundFault {
    /// An item that has no place: each class in which it alone has a worth is full, and it fits into no column.
    NotPlaced {
        /// The item.
        item: u32,
        /// The columns beside which it is left: a part of a plan, without the item.
        partial: Plan,
    },
    /// Out of memory.
    Memory,
}
