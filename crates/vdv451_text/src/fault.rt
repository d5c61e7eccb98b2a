//! Why a text is refused.

use plan_core::Memory as OutOfMemory;
use std::alloc::{AllocError, AllocFailed};
use thiserror::Error;

/// What is wrong with a line, or with the file. On one line the first of the kinds `Keyword` to `EofCount` that holds is named.
#[derive(Clone, Copy, Debug, PartialEq, Eq, Error)]
pub enum TextKind {
    /// No keyword with the line end or a `;` behind it, or an unknown one behind the first `tbl` or behind `eof`.
    #[error("Keyword")]
    Keyword,
    /// A known keyword where it may not stand.
    #[error("Order")]
    Order,
    /// A quote that is not closed, bytes behind a closing quote, a wrong name or format, or an `end` or `eof` field that is not
    /// 1 to 18 bare digits.
    #[error("Field")]
    Field,
    /// A wrong number of fields.
    #[error("Count")]
    Count,
    /// The number on `end` is not that of the table's rows.
    #[error("EndCount")]
    EndCount,
    /// The number on `eof` is not that of the file's tables.
    #[error("EofCount")]
    EofCount,
    /// There is no `eof`. The line is the number of lines plus 1.
    #[error("Unended")]
    Unended,
    /// There are more bytes than are allowed. It comes before all others, and its line is 0.
    #[error("TooLarge")]
    TooLarge,
    /// Memory ran out, at the line where it did.
    #[error("Memory")]
    Memory,
}

impl TextKind {
    ghost use Rattle.std.specs.Prelude.{◌≡◌};
    ghost use Rattle.vdv451_text.specs.Names.{name_of};

    /// The kind's name, as it is printed.
    pub fn name(self) -> &'static [u8]
        ensures { result.now ≡ name_of self }
    {
        match self {
            TextKind::Keyword => b"Keyword",
            TextKind::Order => b"Order",
            TextKind::Field => b"Field",
            TextKind::Count => b"Count",
            TextKind::EndCount => b"EndCount",
            TextKind::EofCount => b"EofCount",
            TextKind::Unended => b"Unended",
            TextKind::TooLarge => b"TooLarge",
            TextKind::Memory => b"Memory",
        }
    }
}

impl From<AllocError> for TextKind {
    ghost use Rattle.std.specs.Prelude.{◌≡◌};
    ghost use Rattle.vdv451_text.specs.declared.fault.TextKind.TheVariants.{Memory};

    ghost from_gives = { λ _ e. e ≡ Memory };

    fn from(_error: AllocError) -> TextKind {
        TextKind::Memory
    }
}

impl<T: Drop> From<AllocFailed<T>> for TextKind {
    ghost use Rattle.std.specs.Prelude.{◌≡◌};
    ghost use Rattle.vdv451_text.specs.declared.fault.TextKind.TheVariants.{Memory};

    ghost from_gives = { λ _ e. e ≡ Memory };

    fn from(_error: AllocFailed<T>) -> TextKind {
        TextKind::Memory
    }
}

impl From<OutOfMemory> for TextKind {
    ghost use Rattle.std.specs.Prelude.{◌≡◌};
    ghost use Rattle.vdv451_text.specs.declared.fault.TextKind.TheVariants.{Memory};

    ghost from_gives = { λ _ e. e ≡ Memory };

    fn from(_error: OutOfMemory) -> TextKind {
        TextKind::Memory
    }
}

/// The first wrong line and what is wrong with it.
#[derive(Clone, Copy, Debug, PartialEq, Eq)]
pub struct TextFault {
    /// The line, from 1. Line 0 is the file as a whole.
    pub line: u32,
    /// What is wrong with it.
    pub kind: TextKind,
}
