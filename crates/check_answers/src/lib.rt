//! The planner's text and certificate of a day are accepted by the checker: it answers yes, with the plan's numbers.
//!
//! Each function does nothing: its contract is the theorem, over the definitions of the crates that plan, write, certify, read and check.
#![tactic(auto)]

mod laws;

pub use laws::{
    day_plans_are_checkable, read_days_are_checkable, texts_are_accepted, written_are_accepted,
};
