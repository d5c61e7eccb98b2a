//! Dives through labels: limits under which a search for a shortest path with resources is likely to find its first least list.
//!
//! A search by labels takes the longer the higher its limit is, and a limit that is a little too high costs far more than several that
//! are too low. So a dive first goes from a list of one item always to the extension that closes with least at least, and looks with what
//! the lists on its way close. What it finds is tried as a limit before the real one, and changes the time of a search alone: nothing of
//! it needs to be promised.
#![tactic(auto)]

mod dive;
mod floors;
mod guess;

pub use dive::{begins_within, dive_from_each, dive_from_least};
pub use floors::Floors;
pub use guess::{Guess, likely};
