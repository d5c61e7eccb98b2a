//! The tables of a certificate among others.

ghost use Rattle.std.specs.Prelude.{◌≡◌, ◌<◌, ◌^◌, IfSome};
ghost use Rattle.plan_cert.specs.Places as spec;
ghost use Rattle.plan_cert.specs.Places.{Gives, GivesTable};

use crate::fault::{CertFault, CertTable, Place};
use number_tables::single_table;
use vdv451_text::Table;

/// The fault of a table as a whole.
pub(crate) fn whole(which: CertTable) -> CertFault
    ensures { result ≡ spec.form which 0 }
{
    CertFault::Form(Place {
        table: which,
        row: 0,
    })
}

/// The table of a name, which stands once.
pub(crate) fn table_of(tables: &[Table], which: CertTable) -> Result<&Table, CertFault>
    ensures { GivesTable result (spec.table_of which tables.now) }
{
    match single_table(tables, which.name()) {
        Some(table) => Ok(table),
        None => Err(whole(which)),
    }
}

/// No row is wrong.
pub(crate) fn no_wrong(which: CertTable, wrong: Option<usize>) -> Result<(), CertFault>
    requires { IfSome wrong (λ place. place < 2 ^ 63) }
    ensures { Gives result (spec.no_wrong which wrong) }
{
    match wrong {
        Some(place) => Err(CertFault::Form(Place {
            table: which,
            row: place + 1,
        })),
        None => Ok(()),
    }
}
