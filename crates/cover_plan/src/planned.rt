//! What planning gives.

use cover_core::Plan;
use dual_bound::Kept;

/// A plan, and the offers that bound it.
#[derive(Drop)]
pub struct Planned {
    /// The plan.
    pub plan: Plan,
    /// The kept offer with each worth 1: no plan has fewer columns than its bound.
    pub count: Kept,
    /// The kept offer with costs: no plan costs less than its bound, in cost units.
    pub cost: Kept,
}
