//! The marks of open duties (X_MARKE).

ghost use Rattle.std.specs.Prelude.{◌≡◌};
ghost use Rattle.plan_cert.specs.Columns as columns_spec;
ghost use Rattle.plan_cert.specs.Entries as spec;
ghost use Rattle.plan_cert.specs.Marks as marks_spec;

use crate::cert::Pass;
use crate::columns::{DrivingColumns, DutyColumns, duty_columns};
use crate::entries::duty_place;
use crate::fault::CertTable;
use crate::marks::{MarkRow, MarkTable, PassMark};
use crate::numbers::truth;
use crate::shape::Shape;
use cover_core::Mark;
use number_tables::{number_at, word};
use plan_core::Sec;
use vdv451_text::{Field, Head};

/// What a mark says of driving.
#[derive(Clone, Copy)]
pub struct Driven {
    /// The seconds since the last full break.
    pub driving: u32,
    /// Whether a pause of at least 900 s stands after it.
    pub quarter: bool,
    /// The seconds in all.
    pub total: u32,
    /// Whether a pause of at least 10,800 s was had.
    pub three: bool,
}

/// What a row says of driving.
fn driven_at(columns: &DrivingColumns, row: &[Field]) -> Option<Driven>
    ensures { result ≡ spec.driven_at columns.now row.now }
{
    let driving = word(number_at(row, columns.driving))?;
    let quarter = truth(number_at(row, columns.quarter))?;
    let total = word(number_at(row, columns.total))?;
    let three = truth(number_at(row, columns.three))?;
    Some(Driven {
        driving,
        quarter,
        total,
        three,
    })
}

impl MarkRow for Mark {
    type Columns = DutyColumns;

    ghost kept_in = { marks_spec.duty_table };

    ghost columns_of = { columns_spec.duty_columns };

    ghost entry_of = { spec.duty_entry };

    fn table_and_passes() -> MarkTable {
        MarkTable {
            table: CertTable::DutyMarks,
            by_number: Pass::DutyNumber,
            by_cost: Pass::DutyCost,
        }
    }

    fn columns(heads: &[Head]) -> Option<DutyColumns> {
        duty_columns(heads)
    }

    fn entry(shape: &Shape, columns: &DutyColumns, row: &[Field]) -> Option<PassMark<Mark>> {
        let place = duty_place(shape, &columns.place, row)?;
        let start = number_at(row, columns.start)?;
        let driven = driven_at(&columns.driven, row)?;
        let value = number_at(row, columns.value)?;
        Some(PassMark {
            pass: place.pass,
            mark: Mark {
                class: place.class,
                piece: place.item,
                start: Sec(start),
                driving: driven.driving,
                quarter: driven.quarter,
                total: driven.total,
                three: driven.three,
                value,
            },
        })
    }
}
