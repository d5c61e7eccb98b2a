//! The rows of X_SCHRANKE: the bounds of the four passes.

ghost use Rattle.std.specs.Prelude.{◌≡◌, ◌<◌, ◌^◌, All, IfOk, IfSome, length, map};
ghost use Rattle.plan_read.specs.Entries as spec;
ghost use Rattle.plan_read.specs.Numbers.{pair_at};
ghost use Rattle.plan_read.specs.Places.{Gives, said};
ghost use Rattle.plan_read.specs.declared.fault.PlanTable.TheVariants as tables;

use crate::fault::{PlanTable, ReadFault};
use crate::numbers::{is_own, not_below};
use crate::rows::at_row;
use crate::table::{Pair, PairRows};
use number_tables::number_at;
use plan_core::Seq;
use std::alloc::Global;
use vdv451_text::Field;

/// The bound of a row of X_SCHRANKE, which is the row of its pass.
fn bound_entry(columns: &Pair, place: usize, row: &[Field]) -> Option<u64>
    requires { place < 2 ^ 32 }
    ensures value { result ≡ spec.bound_entry place (pair_at columns.now row.now) }
    ensures small { IfSome result (λ bound. bound < 2 ^ 63) }
{
    if place < 4 && is_own(place, number_at(row, columns.first)) {
        not_below(number_at(row, columns.second))
    } else {
        None
    }
}

/// The bounds of the passes.
pub(crate) fn bound_entries(alloc: Global, table: &PairRows) -> Result<Seq<u64>, ReadFault>
    requires { length table.now.rows.now < 2 ^ 32 }
    ensures bounds { Gives result (said spec.bound_entry tables.Bounds (map (pair_at table.now.columns) table.now.rows.now)) }
    ensures small { IfOk result (λ bounds. All (λ bound. bound < 2 ^ 63) bounds) }
{
    let mut entries = Seq::new(alloc);
    let rows = table.rows;
    for (place, row) in rows.iter().enumerate() {
        match bound_entry(&table.columns, place, row.as_slice()) {
            None => return Err(at_row(PlanTable::Bounds, place)),
            Some(bound) => entries.push(bound)?,
        }
    }
    Ok(entries)
}
