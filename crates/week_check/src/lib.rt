//! A check of drivers' weeks by articles 6 and 8 of Regulation (EC) 561/2006.
//!
//! A roster has the duties of drivers over at most two weeks. Each duty has a day, a start and an
//! end, and its driving. What the articles deny of a driver's duties is listed: too much driving in
//! a duty, a week or two neighbouring weeks, a daily rest that is too short, and a fourth reduced
//! daily rest since the last weekly rest. The first duty of each driver is taken to follow a weekly
//! rest, and nothing before it counts.
#![tactic(auto)]

mod column;
mod daily;
mod days;
mod denial;
mod drivers;
mod entry;
mod fault;
mod places;
mod rest;
mod rests;
mod roster;
mod span;
mod turn;
mod verdict;
mod weeks;

pub use denial::{Denial, denials, one_list};
pub use fault::RosterFault;
pub use roster::{one_answer, read_roster};
pub use turn::Turn;
pub use verdict::verdict_table;
