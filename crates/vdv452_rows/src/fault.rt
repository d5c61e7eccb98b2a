//! Why tables are refused.

ghost use Rattle.std.specs.Prelude.{◌≡◌, [], ◌∷◌, IfOk};
ghost use Rattle.vdv452_rows.specs.Answers.{IsRefusal};
ghost use Rattle.vdv452_rows.specs.Names.{name_of};
ghost use Rattle.vdv452_rows.specs.Rows.{fault, memory_fault};
ghost use Rattle.vdv452_rows.specs.declared.fault.Refusal.TheVariants as refusals;

use crate::cell::bytes_of;
use plan_core::{Bytes, Memory};
use std::alloc::{AllocError, AllocFailed, Global};
use thiserror::Error;

/// What is wrong with the tables.
#[derive(Clone, Copy, Debug, PartialEq, Eq, Error)]
pub enum TableKind {
    /// A used table stands more than once over all files.
    #[error("TableTwice")]
    TableTwice,
    /// A table that must be there is missing.
    #[error("NoTable")]
    NoTable,
    /// A used table lacks one of its columns.
    #[error("NoColumn")]
    NoColumn,
    /// A field is empty in a column where it may not be.
    #[error("NoValue")]
    NoValue,
    /// A field is no number where its column has numbers, or one out of range.
    #[error("Range")]
    Range,
    /// A row has the key of a row before it.
    #[error("KeyTwice")]
    KeyTwice,
    /// Out of memory.
    #[error("Memory")]
    Memory,
}

impl TableKind {
    /// The kind's name, as it is printed.
    pub fn name(self) -> &'static [u8]
        ensures { result.now ≡ name_of self }
    {
        match self {
            TableKind::TableTwice => b"TableTwice",
            TableKind::NoTable => b"NoTable",
            TableKind::NoColumn => b"NoColumn",
            TableKind::NoValue => b"NoValue",
            TableKind::Range => b"Range",
            TableKind::KeyTwice => b"KeyTwice",
            TableKind::Memory => b"Memory",
        }
    }
}

/// The first fault of the tables. Rows count from 1. The row is 0 where the fault is about the
/// table as a whole, and the column is empty where it is about none. For running out of memory table and
/// column are empty and the row is 0.
#[derive(Debug, Drop)]
pub struct TableFault {
    pub kind: TableKind,
    pub table: Bytes,
    pub column: Bytes,
    pub row: u32,
}

impl TableFault {
    /// Out of memory. It takes no memory.
    pub fn memory(alloc: Global) -> TableFault
        ensures { result ≡ memory_fault }
    {
        TableFault {
            kind: TableKind::Memory,
            table: Bytes::new(alloc),
            column: Bytes::new(alloc),
            row: 0,
        }
    }
}

/// Why a step of the reading gives up.
#[derive(Drop)]
pub enum Refusal {
    /// Out of memory.
    Memory,
    /// The tables are wrong: their first fault.
    Fault(TableFault),
}

impl From<Memory> for Refusal {
    ghost from_gives = { λ _ refusal. refusal ≡ refusals.Memory };

    fn from(_error: Memory) -> Refusal {
        Refusal::Memory
    }
}

impl From<AllocError> for Refusal {
    ghost from_gives = { λ _ refusal. refusal ≡ refusals.Memory };

    fn from(_error: AllocError) -> Refusal {
        Refusal::Memory
    }
}

impl<T: Drop> From<AllocFailed<T>> for Refusal {
    ghost from_gives = { λ _ refusal. refusal ≡ refusals.Memory };

    fn from(_error: AllocFailed<T>) -> Refusal {
        Refusal::Memory
    }
}

fn copied_fault(
    alloc: Global,
    kind: TableKind,
    table: &[u8],
    column: &[u8],
    row: u32,
) -> Result<TableFault, Memory>
    ensures { IfOk result (λ made. made ≡ fault kind table.now column.now row) }
{
    Ok(TableFault {
        kind,
        table: bytes_of(alloc, table)?,
        column: bytes_of(alloc, column)?,
        row,
    })
}

/// The fault with copies of these names, or running out of memory.
pub(crate) fn refusal_of(
    alloc: Global,
    kind: TableKind,
    table: &[u8],
    column: &[u8],
    row: u32,
) -> Refusal
    ensures { IsRefusal (fault kind table.now column.now row ∷ []) result }
{
    match copied_fault(alloc, kind, table, column, row) {
        Ok(fault) => Refusal::Fault(fault),
        Err(_) => Refusal::Memory,
    }
}
