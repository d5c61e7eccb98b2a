//! Days that are made from a number: a network of seven lines with trips at drawn departures, as tables of planning files.
#![tactic(auto)]

mod cells;
mod drawing;
mod headings;
mod making;
mod parts;
mod shares;
mod tables;
mod trips;

pub use making::make_tables;
