//! The first least list whose reduced cost is below minus the price of its class: why prices are not paid (dual feasible).
//!
//! A certificate that prices are paid has a mark for each open list. Where there is no such certificate, there is a list with a value
//! (a thousand times its worth less the prices of its items) below minus its class price. It is found by the marks themselves: they are
//! the labels of a search with dominance, class by class. Nothing here knows of buses.
#![tactic(auto)]

mod columns;
mod covers;
mod labels;
mod lists;

pub use columns::{first_unpaid, least_is_best};
pub use covers::least_cover;
pub use lists::ValuedLists;
