//! Typed rows of tables after VDV 452 and of this project's own tables, read from text tables by their schemas.
//!
//! Tables and their columns are found by their names; of two columns with one name the first counts, and what is not named is passed over.
//! The tables that are looked at, their columns, ranges and keys are data, of which one rule speaks: a row is a map from names to values,
//! and the first fault is the head of the list of all faults in their order.
#![tactic(auto)]

mod cell;
mod fault;
mod row_key;
mod rows;
mod schema;
mod table;

pub use cell::{Cell, bytes_of, whole_number};
pub use fault::{Refusal, TableFault, TableKind};
pub use rows::lines::{LineRow, StopRow};
pub use rows::places::{PointRow, TypeRow};
pub use rows::times::{DeadRow, GroupDwellRow, RunRow, SectionRow, TripDwellRow};
pub use rows::{CalendarRow, TripRow, TypedRow, VersionRow};
pub use schema::{Column, Domain, GREATEST_SECONDS, Schema, own, standard};
pub use table::{column_place, read_table};
