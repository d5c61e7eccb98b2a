//! Which types of vehicles may serve lines.

ghost use Rattle.std.specs.Prelude.{◌≡◌};
ghost use Rattle.plan_params.specs.Settings.{admission_of};

use crate::row::{TableRow, number_at};
use plan_core::Memory;
use std::alloc::Global;
use vdv452_tables::KeyedRow;

/// A type of vehicles that may serve a line (X_LINIE_FZG).
#[derive(Clone, Copy, Debug, PartialEq, Eq, Hash)]
pub struct Admission {
    /// LI_NR.
    pub line: u32,
    /// FZG_TYP_NR.
    pub typ: u32,
}

impl TableRow for Admission {
    ghost of_row = { admission_of };

    fn from_row(row: &[u32]) -> Admission {
        Admission {
            line: number_at(row, 0),
            typ: number_at(row, 1),
        }
    }
}

/// By its line alone.
impl KeyedRow<u32, ()> for Admission {
    ghost key_of = { λ admission. admission.line };

    ghost value_of = { λ admission. tt };

    fn entry(&self, _alloc: Global) -> Result<(u32, ()), Memory> {
        Ok((self.line, ()))
    }
}

/// By its line and type.
impl KeyedRow<Admission, ()> for Admission {
    ghost key_of = { λ admission. admission };

    ghost value_of = { λ admission. tt };

    fn entry(&self, _alloc: Global) -> Result<(Admission, ()), Memory> {
        Ok((*self, ()))
    }
}
