//! A day as a planner sees it: its trips with their times, the settings, and which vehicle may go from one trip to another.
//!
//! The trips are numbered from 0 by departure and number. Between two trips of a block a vehicle goes directly or via its depot, and
//! each block begins with a pull-out and ends with a pull-in (multi-depot vehicle scheduling, as in the chapter on public transit of
//! Desaulniers and Hickman). What such a list of trips costs, its legs and the pieces that it is cut into are definitions here, on which
//! the crates above stand.
#![tactic(auto)]

mod building;
mod day;
mod dead_times;
mod departures;
mod fault;
mod going;
mod layout;
mod link;

pub use building::{MOST_TRIPS, build_day};
pub use day::Day;
pub use departures::Departures;
pub use fault::DayModelFault;
pub use link::Link;
