//! A plan that is known.

use cover_core::Plan;
use dual_bound::Kept;

/// A plan that is known before any pass with costs, and the offer that bounds its cost.
#[derive(Drop)]
pub struct KnownPlan {
    /// The plan.
    pub plan: Plan,
    /// Prices and class prices with their bound: no plan costs less than it, in cost units.
    pub cost: Kept,
}
