//! Covers of open lists by marks: certificates that prices are paid (dual feasible), tested by the marks alone.
//!
//! A *mark* says enough of an open list of items to go on. Marks are a *cover* where each list of one item has a mark at least as good as
//! its own, each extension of a mark has one, and no mark closes with a value below minus its class price. A cover with class prices of
//! at least 0 shows that prices are paid, whoever made the marks; so whoever has them needs no search to check a bound. Nothing here
//! knows of buses.
#![tactic(auto)]

mod covers;
mod gaps;
mod groups;
mod making;
mod marks;

pub use covers::{cover_is_paid, kept_marks_are_minimal};
pub use gaps::{closes_below, first_gap};
pub use making::{OpenLists, make_marks};
pub use marks::Marks;
