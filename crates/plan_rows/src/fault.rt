//! Why tables are refused.

ghost use Rattle.std.specs.Prelude.{◌≡◌};
ghost use Rattle.plan_rows.specs.Names.{name_of};
ghost use Rattle.plan_rows.specs.declared.fault.RowFault.TheVariants as faults;

use plan_core::Memory;
use std::alloc::AllocError;

/// Why there is no picture.
#[derive(Clone, Copy, Debug, PartialEq, Eq)]
pub enum RowFault {
    /// The first place that is not drawn: a table that is missing or stands twice, the first row that is one too many, or the first row
    /// that says no trip, block, leg, duty, piece or bound.
    Form(Place),
    /// Out of memory.
    Memory,
}

impl From<Memory> for RowFault {
    ghost from_gives = { λ _ fault. fault ≡ faults.Memory };

    fn from(_memory: Memory) -> RowFault {
        RowFault::Memory
    }
}

impl From<AllocError> for RowFault {
    ghost from_gives = { λ _ fault. fault ≡ faults.Memory };

    fn from(_error: AllocError) -> RowFault {
        RowFault::Memory
    }
}

/// A place in the tables of a plan.
#[derive(Clone, Copy, Debug, PartialEq, Eq)]
pub struct Place {
    /// The table.
    pub table: PlanTable,
    /// The row, from 1, or 0 for the table as a whole.
    pub row: usize,
}

/// The tables that are drawn.
#[derive(Clone, Copy, Debug, PartialEq, Eq)]
pub enum PlanTable {
    /// REC_FRT, the trips.
    Trips,
    /// REC_UMLAUF, the blocks with their vehicles.
    Vehicles,
    /// X_UMLAUF, the blocks.
    Blocks,
    /// X_UMLAUF_TEIL, the legs of the blocks.
    Legs,
    /// X_DIENST, the duties.
    Duties,
    /// X_DIENST_STUECK, the pieces of the duties.
    Pieces,
    /// X_SCHRANKE, the values and their bounds.
    Bounds,
}

impl PlanTable {
    /// The name of the table.
    pub fn name(self) -> &'static [u8]
        ensures { result.now ≡ name_of self }
    {
        match self {
            PlanTable::Trips => b"REC_FRT",
            PlanTable::Vehicles => b"REC_UMLAUF",
            PlanTable::Blocks => b"X_UMLAUF",
            PlanTable::Legs => b"X_UMLAUF_TEIL",
            PlanTable::Duties => b"X_DIENST",
            PlanTable::Pieces => b"X_DIENST_STUECK",
            PlanTable::Bounds => b"X_SCHRANKE",
        }
    }
}
