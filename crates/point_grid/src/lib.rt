//! Times between points, laid out flat: points get dense numbers, and the times from some to others stand in a grid, so that a time is a few
//! loads and nothing is hashed where many are asked.
#![tactic(auto)]

mod grid;
mod numbering;

pub use grid::{Grid, PointTimes, grid_of, time_at};
pub use numbering::{Numbering, numbering_of};
