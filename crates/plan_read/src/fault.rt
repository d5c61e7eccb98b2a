//! Why tables are no plan.

ghost use Rattle.std.specs.Prelude.{◌≡◌};
ghost use Rattle.plan_read.specs.Places.{form_of, name_of};
ghost use Rattle.plan_read.specs.declared.fault.ReadFault.TheVariants as faults;

use plan_core::{Bytes, Memory};
use std::alloc::{AllocError, Global};
use umlauf_write::PlanFault;

/// The tables that a plan is read from.
#[derive(Clone, Copy)]
pub enum PlanTable {
    /// REC_FRT, the trips with the numbers of their blocks.
    Trips,
    /// X_UMLAUF, the blocks with their pools.
    Blocks,
    /// X_DIENST, the duties with their groups of drivers.
    Duties,
    /// X_DIENST_STUECK, the pieces of the duties.
    Parts,
    /// X_SCHRANKE, the bounds of the passes.
    Bounds,
}

impl PlanTable {
    /// The name of the table.
    pub(crate) fn name(self) -> &'static [u8]
        ensures { result.now ≡ name_of self }
    {
        match self {
            PlanTable::Trips => b"REC_FRT",
            PlanTable::Blocks => b"X_UMLAUF",
            PlanTable::Duties => b"X_DIENST",
            PlanTable::Parts => b"X_DIENST_STUECK",
            PlanTable::Bounds => b"X_SCHRANKE",
        }
    }
}

/// A place in the tables of a plan.
#[derive(Clone, Copy)]
pub struct Place {
    /// The table.
    pub table: PlanTable,
    /// The row, from 1, or 0 for the table as a whole.
    pub row: u32,
}

/// Why tables are no plan, where a table is named by its kind.
#[derive(Clone, Copy)]
pub enum ReadFault {
    /// The first place where the tables are wrong.
    Form(Place),
    /// Out of memory.
    Memory,
}

impl From<Memory> for ReadFault {
    ghost from_gives = { λ _ fault. fault ≡ faults.Memory };

    fn from(_memory: Memory) -> ReadFault {
        ReadFault::Memory
    }
}

impl From<AllocError> for ReadFault {
    ghost from_gives = { λ _ fault. fault ≡ faults.Memory };

    fn from(_error: AllocError) -> ReadFault {
        ReadFault::Memory
    }
}

/// The fault of a table as a whole.
pub(crate) fn whole(table: PlanTable) -> ReadFault
    ensures { result ≡ form_of table 0 }
{
    ReadFault::Form(Place { table, row: 0 })
}
