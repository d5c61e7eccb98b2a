//! The rows of X_DIENST_STUECK: the pieces of duties.

ghost use Rattle.std.specs.Prelude.{◌≡◌, ◌<◌, ◌^◌, length, map};
ghost use Rattle.plan_read.specs.Entries as spec;
ghost use Rattle.plan_read.specs.Numbers.{triple_at};
ghost use Rattle.plan_read.specs.Places.{Gives, said};
ghost use Rattle.plan_read.specs.declared.fault.PlanTable.TheVariants as tables;

use crate::fault::{PlanTable, ReadFault};
use crate::rows::{Counts, at_row};
use crate::table::{Triple, TripleRows};
use number_tables::{counted, number_at, word};
use plan_core::Seq;
use std::alloc::Global;
use vdv451_text::Field;

/// The piece of a row of X_DIENST_STUECK: its duty from 0, its block from 1, and its index in the block.
fn part_entry(counts: &Counts, columns: &Triple, row: &[Field]) -> Option<(u32, (u32, u32))>
    ensures { result ≡ spec.part_entry counts.now (triple_at columns.now row.now) }
{
    let duty = counted(counts.duties, number_at(row, columns.first))?;
    let block = counted(counts.blocks, number_at(row, columns.second))?;
    let index = word(number_at(row, columns.third))?;
    Some((duty, (block + 1, index)))
}

/// The pieces of duties, in the order of their rows.
pub(crate) fn part_entries(
    alloc: Global,
    counts: &Counts,
    table: &TripleRows,
) -> Result<Seq<(u32, (u32, u32))>, ReadFault>
    requires { length table.now.rows.now < 2 ^ 32 }
    ensures { Gives result (said (λ row. spec.part_entry counts.now) tables.Parts (map (triple_at table.now.columns) table.now.rows.now)) }
{
    let mut entries = Seq::new(alloc);
    let rows = table.rows;
    for (place, row) in rows.iter().enumerate() {
        match part_entry(counts, &table.columns, row.as_slice()) {
            None => return Err(at_row(PlanTable::Parts, place)),
            Some(entry) => entries.push(entry)?,
        }
    }
    Ok(entries)
}
