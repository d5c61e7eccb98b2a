//! The table of denials.

ghost use Rattle.std.specs.Prelude.{◌≡◌, ◌++◌, IfOk, OnOk, true};
ghost use Rattle.vdv451_text.specs.Plain.{is_plain_table};
ghost use Rattle.number_tables.specs.Signed.{signed_row as row_of, signed_rows};
ghost use Rattle.week_check.specs.Verdict.{verdict_numbers, verdict_rows as rows_of, verdict_table as table_of};

use crate::denial::Denial;
use number_tables::{number_table, signed_row};
use plan_core::{Memory, Seq};
use std::alloc::Global;
use vdv451_text::{Field, Table};

fn verdict_row(alloc: Global, denial: &Denial) -> Result<Seq<Field>, Memory>
    ensures { IfOk result (λ row. row ≡ row_of (verdict_numbers denial.now)) }
{
    signed_row(
        alloc,
        &[
            Some(i64::from(denial.driver)),
            Some(i64::from(denial.article)),
            Some(i64::from(denial.from)),
            Some(i64::from(denial.to)),
            Some(denial.value),
        ],
    )
}

fn verdict_rows(alloc: Global, denials: &[Denial]) -> Result<Seq<Seq<Field>>, Memory>
    ensures { IfOk result (λ rows. rows ≡ signed_rows (rows_of denials.now)) }
{
    let mut rows = Seq::new(alloc);
    for denial in denials {
        rows.push(verdict_row(alloc, denial)?)?;
    }
    Ok(rows)
}

/// The table X_URTEIL: a row for each denial, in their order. FAHRER_NR is the number of the driver,
/// ARTIKEL the article as [`Denial`] numbers it, VON_TAG and BIS_TAG are the first and the last day
/// as YYYYMMDD, and WERT is the value, which may be below 0.
///
/// The table is plain, so it has a spelling after VDV 451.
///
/// # Errors
///
/// `Memory` where memory runs out, and for nothing else.
pub fn verdict_table(alloc: Global, denials: &[Denial]) -> Result<Table, Memory>
    ensures table { IfOk result (λ table. table ≡ table_of denials.now) }
    ensures plain { IfOk result (λ table. is_plain_table table ≡ true) }
{
    let rows = verdict_rows(alloc, denials)?;
    number_table(
        alloc,
        "X_URTEIL",
        &["FAHRER_NR", "ARTIKEL", "VON_TAG", "BIS_TAG", "WERT"],
        rows,
    )
}
