//! How far a pass has come.

use column_pool::Pool;
use cover_core::Prices;
use dual_bound::Kept;

/// The pool, the prices and the kept offer.
#[derive(Drop)]
pub(crate) struct Progress {
    pub(crate) pool: Pool,
    pub(crate) prices: Prices,
    pub(crate) kept: Kept,
}
