//! Labels by number: a label is put in under a number, read by that number, and its number is used again once it was given back.
#![tactic(auto)]

mod block;
mod places;
mod raw;
mod region;

pub use region::Region;
