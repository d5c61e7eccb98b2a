//! Why a roster is refused.

ghost use Rattle.std.specs.Prelude.{◌≡◌, [], ◌∷◌, IfOk};
ghost use Rattle.vdv452_rows.specs.Rows.{fault};
ghost use Rattle.week_check.specs.Roster.{roster_name as the_roster_name};
ghost use Rattle.week_check.specs.RosterAnswers.{IsFirstOf};
ghost use Rattle.week_check.specs.declared.fault.RosterFault.TheVariants as faults;

use plan_core::{Bytes, Memory};
use std::alloc::{AllocError, AllocFailed, Global};
use thiserror::Error;
use vdv452_tables::{TableFault, TableKind};

/// Why a roster is refused. The numbers are 1 `Table`, 2 `Days`, 3 `Memory`.
#[derive(Debug, Drop, Error)]
pub enum RosterFault {
    /// The table X_EINSATZ has a fault; it is the first one. Its kind is never `Memory`.
    #[error("the roster's table has a fault")]
    Table(TableFault),
    /// The last day of the roster is 14 or more days after the first. The days are YYYYMMDD.
    #[error("the roster has more than two weeks")]
    Days {
        /// The first day of all duties.
        first: u32,
        /// The last day of all duties.
        last: u32,
    },
    /// Out of memory.
    #[error("out of memory")]
    Memory,
}

impl From<Memory> for RosterFault {
    ghost from_gives = { λ _ fault. fault ≡ faults.Memory };

    fn from(_error: Memory) -> RosterFault {
        RosterFault::Memory
    }
}

impl From<AllocError> for RosterFault {
    ghost from_gives = { λ _ fault. fault ≡ faults.Memory };

    fn from(_error: AllocError) -> RosterFault {
        RosterFault::Memory
    }
}

impl<T: Drop> From<AllocFailed<T>> for RosterFault {
    ghost from_gives = { λ _ fault. fault ≡ faults.Memory };

    fn from(_error: AllocFailed<T>) -> RosterFault {
        RosterFault::Memory
    }
}

/// The name of the roster's table.
pub(crate) fn roster_name() -> &'static str
    ensures { result.now ≡ the_roster_name }
{
    "X_EINSATZ"
}

fn bytes_of(alloc: Global, text: &str) -> Result<Bytes, Memory>
    ensures { IfOk result (λ bytes. bytes ≡ text.now) }
{
    Ok(Bytes::from_vec(Vec::from_slice(alloc, text.as_bytes())?))
}

fn table_fault(alloc: Global, kind: TableKind, column: &str, row: u32) -> Result<TableFault, Memory>
    ensures { IfOk result (λ made. made ≡ fault kind the_roster_name column.now row) }
{
    Ok(TableFault {
        kind,
        table: bytes_of(alloc, roster_name())?,
        column: bytes_of(alloc, column)?,
        row,
    })
}

/// A fault of the roster's table, or running out of memory.
pub(crate) fn fault_of(alloc: Global, kind: TableKind, column: &str, row: u32) -> RosterFault
    ensures { IsFirstOf (fault kind the_roster_name column.now row ∷ []) result }
{
    match table_fault(alloc, kind, column, row) {
        Ok(fault) => RosterFault::Table(fault),
        Err(_) => RosterFault::Memory,
    }
}
