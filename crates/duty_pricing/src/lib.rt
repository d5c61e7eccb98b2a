//! Pricing of duties for column generation in crew scheduling: a shortest path with resources over the pieces of a day, found by marks
//! with dominance under a completion bound. Each answer is the first least of all lawful duties of a group of drivers. The labels of the
//! search may be used alone too, for lists that begin with any range of pieces.
#![tactic(auto)]

mod bounds;
mod counted;
mod labels;
mod pricer;
mod reach;
mod rows;
mod tables;

pub use labels::DutyLabels;
pub use pricer::DutyPricer;
