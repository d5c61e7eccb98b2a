//! What the seven tables of a plan say, row by row: trips, vehicles, blocks, legs, duties, pieces and bounds, or the first place where
//! the tables say none of these.
#![tactic(auto)]

mod entries;
mod fault;
mod laws;
mod rows;
mod sheet;
mod tables;

pub use fault::{Place, PlanTable, RowFault};
pub use laws::rows_are_said;
pub use rows::{
    BlockRow, BoundRow, DutyRow, Ends, LegRow, Named, Pass, PieceNumbers, PieceRow, Span, TripRow,
    VehicleRow, Work,
};
pub use sheet::{BlockSheet, DutySheet, Sheet, read_sheet};
pub use tables::table_of;
