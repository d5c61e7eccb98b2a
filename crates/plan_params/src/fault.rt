//! Why settings are refused.

ghost use Rattle.std.specs.Prelude.{◌≡◌, IfOk, Some};
ghost use Rattle.plan_params.specs.Faults.{IsRefusal, fault, fault_of, memory_fault};
ghost use Rattle.plan_params.specs.Names.{name_of};

use crate::testing::Found;
use plan_core::{Bytes, Memory};
use std::alloc::Global;
use thiserror::Error;

/// What is wrong with the settings.
#[derive(Clone, Copy, Debug, PartialEq, Eq, Error)]
pub enum ParamKind {
    /// X_PLAN has not one row.
    #[error("NotOne")]
    NotOne,
    /// X_HOF or X_FAHRER has more than 32 rows.
    #[error("TooMany")]
    TooMany,
    /// A point has no row in REC_ORT of the version.
    #[error("UnknownPoint")]
    UnknownPoint,
    /// A type of vehicles has no row in MENGE_FZG_TYP of the version.
    #[error("UnknownType")]
    UnknownType,
    /// Out of memory.
    #[error("Memory")]
    Memory,
}

/// The first fault of the settings. Rows count from 1, and those past 4,294,967,295 count as that one.
/// The row is 0 where the fault is about the table as a whole. For running out of memory the table is empty
/// and the row is 0.
#[derive(Debug, Drop)]
pub struct ParamFault {
    pub kind: ParamKind,
    pub table: Bytes,
    pub row: u32,
}

impl ParamKind {
    /// The kind's name, as it is printed.
    pub fn name(self) -> &'static [u8]
        ensures { result.now ≡ name_of self }
    {
        match self {
            ParamKind::NotOne => b"NotOne",
            ParamKind::TooMany => b"TooMany",
            ParamKind::UnknownPoint => b"UnknownPoint",
            ParamKind::UnknownType => b"UnknownType",
            ParamKind::Memory => b"Memory",
        }
    }
}

impl ParamFault {
    /// Out of memory. It takes no memory.
    pub(crate) fn memory(alloc: Global) -> ParamFault
        ensures { result ≡ memory_fault }
    {
        ParamFault {
            kind: ParamKind::Memory,
            table: Bytes::new(alloc),
            row: 0,
        }
    }
}

fn copied_name(alloc: Global, name: &str) -> Result<Bytes, Memory>
    ensures { IfOk result (λ copy. copy ≡ name.now) }
{
    Ok(Bytes::from_vec(Vec::from_slice(alloc, name.as_bytes())?))
}

/// The fault that is found, or running out of memory.
pub(crate) fn refusal_of(alloc: Global, found: &Found<'_>) -> ParamFault
    ensures { IsRefusal (Some (fault_of found.now)) result }
{
    match copied_name(alloc, found.table) {
        Ok(table) => ParamFault {
            kind: found.kind,
            table,
            row: found.row,
        },
        Err(_) => ParamFault::memory(alloc),
    }
}
