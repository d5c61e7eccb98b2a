//! The rows of REC_FRT: the trips with their blocks.

ghost use Rattle.std.specs.Prelude.{◌≡◌, ◌+◌, ◌<◌, ◌^◌, length, map};
ghost use Rattle.plan_read.specs.Entries as spec;
ghost use Rattle.plan_read.specs.Numbers.{pair_at};
ghost use Rattle.plan_read.specs.Places.{Gives, said};
ghost use Rattle.plan_read.specs.Told as told_spec;
ghost use Rattle.plan_read.specs.declared.fault.PlanTable.TheVariants as tables;

use crate::fault::{Place, PlanTable, ReadFault};
use crate::numbers::not_below;
use crate::table::{Pair, PairRows};
use crate::told::{Told, trip_of};
use number_tables::{counted, number_at};
use plan_core::Seq;
use std::alloc::Global;
use vdv451_text::Field;

/// How many blocks and duties there are.
#[derive(Clone, Copy)]
pub struct Counts {
    /// The blocks.
    pub blocks: u32,
    /// The duties.
    pub duties: u32,
}

/// The fault of a row, which is counted from 0.
pub(crate) fn at_row(table: PlanTable, row: usize) -> ReadFault
    requires { row + 1 < 2 ^ 32 }
    ensures { result ≡ spec.row_form table row }
{
    ReadFault::Form(Place {
        table,
        row: row as u32 + 1,
    })
}

/// The first trip of a FRT_FID.
fn trip_among(told: &[Told], fid: Option<i64>) -> Option<u32>
    requires { told_spec.DoesNotFall told.now }
    ensures { result ≡ spec.trip_among told.now fid }
{
    let fid = not_below(fid)?;
    trip_of(told, fid)
}

/// The trip of a row of REC_FRT, and its block from 0.
fn trip_entry(told: &[Told], counts: &Counts, columns: &Pair, row: &[Field]) -> Option<(u32, u32)>
    requires { told_spec.DoesNotFall told.now }
    ensures { result ≡ spec.trip_entry told.now counts.now (pair_at columns.now row.now) }
{
    let trip = trip_among(told, number_at(row, columns.first))?;
    let block = counted(counts.blocks, number_at(row, columns.second))?;
    Some((trip, block))
}

/// The trips of the rows of REC_FRT, with their blocks from 0.
pub(crate) fn trip_entries(
    alloc: Global,
    told: &[Told],
    counts: &Counts,
    table: &PairRows,
) -> Result<Seq<(u32, u32)>, ReadFault>
    requires told { told_spec.DoesNotFall told.now }
    requires sized { length table.now.rows.now < 2 ^ 32 }
    ensures { Gives result (said (λ row. spec.trip_entry told.now counts.now) tables.Trips (map (pair_at table.now.columns) table.now.rows.now)) }
{
    let mut entries = Seq::new(alloc);
    let rows = table.rows;
    for (place, row) in rows.iter().enumerate() {
        match trip_entry(told, counts, &table.columns, row.as_slice()) {
            None => return Err(at_row(PlanTable::Trips, place)),
            Some(entry) => entries.push(entry)?,
        }
    }
    Ok(entries)
}
