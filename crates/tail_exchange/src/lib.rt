//! Exchange: a plan made cheaper by swaps of tails between two columns and by cuts of one.
//!
//! A swap of two columns exchanges their items from a place on in each, and their classes stay. A cut of a column makes its items from a
//! place on into a new column of a class that has a place left. Columns that become empty vanish. The step that changes the cost least
//! is found by threads, and it is the same for any number of them. The least swap of each column is kept from step to step, and only what a
//! step touches is looked at anew. The laws say that each step leads from a plan to a plan.
#![tactic(auto)]

mod candidate;
mod cuts;
mod exchange;
mod joins;
mod kept;
mod laws;
mod least;
mod moves;
mod search;
mod shifts;
mod swaps;

pub use exchange::improve;
pub use laws::steps_keep_plans;
