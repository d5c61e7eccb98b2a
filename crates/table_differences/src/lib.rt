//! Tables (VDV 451) compared with the ones that they should be: the first place where they differ, by table and row.
//!
//! Whoever checks a plan makes its tables anew and asks whether the given ones are the same. Other tables among the given ones are passed
//! over, and one column may be left aside.
#![tactic(auto)]

mod difference;
mod fields;
mod rows;
mod tables;

pub use difference::Difference;
pub use tables::{Aside, first_difference};
