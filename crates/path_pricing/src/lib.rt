//! The blocks of least value: pricing in column generation for the multi-depot vehicle scheduling problem, with a limit on what is driven
//! between two cuts. A label of an open block has its last trip, the driving since the last cut and the value; of two labels at one trip
//! the one of no more driving and no more value is at least as good.
#![tactic(auto)]

mod behind;
mod costs;
mod firsts;
mod labels;
mod linked;
mod points;
mod pricer;
mod rests;
mod rows;

pub use labels::BlockLabels;
pub use pricer::PathPricer;
pub use rests::rests_from;
