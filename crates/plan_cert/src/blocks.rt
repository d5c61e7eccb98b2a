//! The marks of open blocks (X_UMARKE).

ghost use Rattle.plan_cert.specs.Columns as columns_spec;
ghost use Rattle.plan_cert.specs.Entries as spec;
ghost use Rattle.plan_cert.specs.Marks as marks_spec;

use crate::cert::Pass;
use crate::columns::{BlockColumns, block_columns};
use crate::entries::block_place;
use crate::fault::CertTable;
use crate::marks::{MarkRow, MarkTable, PassMark};
use crate::shape::Shape;
use cover_core::BlockMark;
use number_tables::{number_at, word};
use vdv451_text::{Field, Head};

impl MarkRow for BlockMark {
    type Columns = BlockColumns;

    ghost kept_in = { marks_spec.block_table };

    ghost columns_of = { columns_spec.block_columns };

    ghost entry_of = { spec.block_entry };

    fn table_and_passes() -> MarkTable {
        MarkTable {
            table: CertTable::BlockMarks,
            by_number: Pass::BlockNumber,
            by_cost: Pass::BlockCost,
        }
    }

    fn columns(heads: &[Head]) -> Option<BlockColumns> {
        block_columns(heads)
    }

    fn entry(shape: &Shape, columns: &BlockColumns, row: &[Field]) -> Option<PassMark<BlockMark>> {
        let place = block_place(shape, &columns.place, row)?;
        let driving = word(number_at(row, columns.driving))?;
        let value = number_at(row, columns.value)?;
        Some(PassMark {
            pass: place.pass,
            mark: BlockMark {
                class: place.class,
                trip: place.item,
                driving,
                value,
            },
        })
    }
}
