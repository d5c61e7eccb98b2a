//! The network of a bus company: all tables after VDV 452, and this project's own, that the planner looks at.
//!
//! A `Network` holds the typed rows of `vdv452_rows`, with indexes for its look-ups, none of which takes memory.
#![tactic(auto)]

mod course;
mod index;
mod indexes;
mod indexing;
mod keys;
mod net;
mod network;
mod reading;

pub use index::{KeyedRow, index_of};
pub use net::Net;
pub use network::Network;
pub use reading::{Needs, read_tables};
pub use vdv452_rows::{
    CalendarRow, DeadRow, GREATEST_SECONDS, GroupDwellRow, LineRow, PointRow, RunRow, SectionRow,
    StopRow, TableFault, TableKind, TripDwellRow, TripRow, TypeRow, VersionRow, column_place,
};
