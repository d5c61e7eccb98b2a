//! What a pricing step gives.

use cover_core::Column;
use plan_core::Seq;

/// The columns that a pricing step keeps, and the least value of each class.
#[derive(Drop)]
pub struct Priced {
    /// The first least of each class and group whose value is below 0 and twice whose value is at most the least value of its
    /// class, in the order of class and group.
    pub columns: Seq<Column>,
    /// By class, in thousandths of a cost unit: the least value over all lists of the class that have a worth, or 0 where none is
    /// below 0.
    pub least: Seq<i64>,
}
