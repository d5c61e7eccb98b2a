//! Columns that become a plan.

use cover_core::Column;
use plan_core::Seq;

/// The columns so far, and how many there are of each class.
#[derive(Drop)]
pub struct Draft {
    /// The columns.
    pub columns: Seq<Column>,
    /// How many columns of each class there are.
    pub counts: Seq<u32>,
}
