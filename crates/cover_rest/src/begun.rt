//! What a column of a plan begins with.

use plan_core::Seq;

/// A head: what of a column has begun and stays as it is, when the rest is planned anew.
#[derive(Drop)]
pub struct Begun {
    /// The class of the column, from 0.
    pub class: u32,
    /// The items that have begun: the first ones of the column.
    pub items: Seq<u32>,
    /// Whether no further item may follow them.
    pub finished: bool,
}
