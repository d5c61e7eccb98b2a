//! How long moves without passengers take.
#![tactic(auto)]

mod moves;

pub use moves::Deadheads;
