//! The rows of X_UMLAUF and X_DIENST, each of which stands at the place of its number: the blocks with their pools, and the duties with
//! their groups.

ghost use Rattle.std.specs.Prelude.{◌≡◌, ◌==◌, ◌<◌, ◌≤◌, ◌^◌, IfSome, length, map, position};
ghost use Rattle.std.specs.List.{list_any};
ghost use Rattle.plan_read.specs.Entries as spec;
ghost use Rattle.plan_read.specs.Numbers.{pair_at};
ghost use Rattle.plan_read.specs.Places.{Gives, said};

use crate::fault::{PlanTable, ReadFault};
use crate::numbers::{is_own, not_below};
use crate::rows::at_row;
use crate::table::{Pair, PairRows};
use day_model::Day;
use number_tables::{number_at, word};
use plan_core::Seq;
use plan_params::{Group, Pool};
use std::alloc::Global;
use vdv451_text::Field;

/// What is numbered by the places of its rows.
#[derive(Clone, Copy)]
pub enum Own {
    /// The blocks, of which each names its pool.
    Blocks,
    /// The duties, of which each names its group.
    Duties,
}

/// The table of the rows.
fn table_for(own: Own) -> PlanTable
    ensures { result ≡ spec.table_for own }
{
    match own {
        Own::Blocks => PlanTable::Blocks,
        Own::Duties => PlanTable::Duties,
    }
}

/// The place of the first pool of a number.
fn pool_place(pools: &[Pool], number: u64) -> Option<usize>
    ensures place { result ≡ position (λ pool. pool.number == number) pools.now }
    ensures within { IfSome result (λ place. place < length pools.now) }
{
    pools.iter().position(|pool| pool.number as u64 == number)
}

/// The class of the first pool of a number.
fn pool_class(pools: &[Pool], number: Option<i64>) -> Option<u32>
    requires { length pools.now ≤ 32 }
    ensures { result ≡ spec.pool_class pools.now number }
{
    let number = not_below(number)?;
    let place = pool_place(pools, number)?;
    Some(place as u32)
}

/// Whether a number is one of a group.
fn is_group(groups: &[Group], number: u32) -> bool
    ensures { result ≡ list_any (λ group. group.number == number) groups.now }
{
    groups.iter().any(|group| group.number == number)
}

/// A number of 32 bits that is one of a group.
fn group_number(groups: &[Group], number: Option<i64>) -> Option<u32>
    ensures { result ≡ spec.group_number groups.now number }
{
    let number = word(number)?;
    if is_group(groups, number) {
        Some(number)
    } else {
        None
    }
}

/// What a number names: the class of a block's pool, or the number of a duty's group.
fn own_value(own: Own, day: &Day, number: Option<i64>) -> Option<u32>
    ensures { result ≡ spec.own_value own day.now number }
{
    match own {
        Own::Blocks => pool_class(day.params().pools(), number),
        Own::Duties => group_number(day.params().groups(), number),
    }
}

/// What a row names that stands at the place of its number.
fn own_entry(own: Own, day: &Day, columns: &Pair, place: usize, row: &[Field]) -> Option<u32>
    requires { place < 2 ^ 32 }
    ensures { result ≡ spec.own_entry own day.now place (pair_at columns.now row.now) }
{
    if is_own(place, number_at(row, columns.first)) {
        own_value(own, day, number_at(row, columns.second))
    } else {
        None
    }
}

/// The classes of the blocks, or the numbers of the groups of the duties.
pub(crate) fn own_entries(
    alloc: Global,
    own: Own,
    day: &Day,
    table: &PairRows,
) -> Result<Seq<u32>, ReadFault>
    requires { length table.now.rows.now < 2 ^ 32 }
    ensures { Gives result (said (spec.own_entry own day.now) (spec.table_for own) (map (pair_at table.now.columns) table.now.rows.now)) }
{
    let mut entries = Seq::new(alloc);
    let rows = table.rows;
    for (place, row) in rows.iter().enumerate() {
        match own_entry(own, day, &table.columns, place, row.as_slice()) {
            None => return Err(at_row(table_for(own), place)),
            Some(entry) => entries.push(entry)?,
        }
    }
    Ok(entries)
}
