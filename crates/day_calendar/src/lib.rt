//! The version and the day type of an operating day, and its trips in order.
#![tactic(auto)]

mod day;
mod trips;

pub use day::{DayFault, DayKind, kind_of};
pub use trips::{DayTrip, day_rows};
