//! Rounding: a plan from a pool of columns and the prices of its items.
//!
//! The columns are gone through by value and place, and each one is taken whose items are all free and whose class has a place left.
//! Then each free item goes, by its number, where the cost rises least: into a column of the plan, or into a new column of its own.
//! The laws say that this ends with a plan, or with an item that has no place beside the columns so far.
#![tactic(auto)]

mod choice;
mod draft;
mod fault;
mod fill;
mod insert;
mod laws;
mod rounding;
mod take;

pub use fault::RoundFault;
pub use laws::rounds_to_plan;
pub use rounding::round;
