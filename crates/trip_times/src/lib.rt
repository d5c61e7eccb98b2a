//! From where to where a trip goes, and from when to when.
#![tactic(auto)]

mod timing;
mod trip;

pub use timing::time_trip;
pub use trip::{Trip, TripFault};
