//! Why tables are no certificate.

ghost use Rattle.std.specs.Prelude.{◌≡◌};
ghost use Rattle.plan_cert.specs.Names.{name_of};
ghost use Rattle.plan_cert.specs.declared.fault.CertFault.TheVariants as faults;

use plan_core::Memory;
use std::alloc::AllocError;

/// The tables of a certificate.
#[derive(Clone, Copy, Debug, PartialEq, Eq)]
pub enum CertTable {
    /// X_PREIS, the prices of items.
    Prices,
    /// X_KLASSENPREIS, the prices of classes.
    ClassPrices,
    /// X_MARKE, the marks of open duties.
    DutyMarks,
    /// X_UMARKE, the marks of open blocks.
    BlockMarks,
}

impl CertTable {
    /// The name of the table.
    pub fn name(self) -> &'static [u8]
        ensures { result.now ≡ name_of self }
    {
        match self {
            CertTable::Prices => b"X_PREIS",
            CertTable::ClassPrices => b"X_KLASSENPREIS",
            CertTable::DutyMarks => b"X_MARKE",
            CertTable::BlockMarks => b"X_UMARKE",
        }
    }
}

/// A place in the tables of a certificate.
#[derive(Clone, Copy, Debug, PartialEq, Eq)]
pub struct Place {
    /// The table.
    pub table: CertTable,
    /// The row, from 1, or 0 for the table as a whole.
    pub row: usize,
}

/// Why tables are no certificate.
#[derive(Clone, Copy, Debug, PartialEq, Eq)]
pub enum CertFault {
    /// The first place that is wrong: a table that is missing, stands twice or lacks a column; the first row that names no pass, class or
    /// item, has a number out of range, or gives a price that a row before it gives; or a table that lacks a price.
    Form(Place),
    /// Out of memory.
    Memory,
}

impl From<Memory> for CertFault {
    ghost from_gives = { λ _ fault. fault ≡ faults.Memory };

    fn from(_memory: Memory) -> CertFault {
        CertFault::Memory
    }
}

impl From<AllocError> for CertFault {
    ghost from_gives = { λ _ fault. fault ≡ faults.Memory };

    fn from(_error: AllocError) -> CertFault {
        CertFault::Memory
    }
}
