//! The tables of a plan among others, and what each row of one says.

ghost use Rattle.std.specs.Prelude.{◌≡◌, ◌<◌, ◌^◌, IfOk, IfSome, length};
ghost use Rattle.std.specs.List.{filter_map};
ghost use Rattle.plan_rows.specs.Tables as spec;
ghost use Rattle.plan_rows.specs.Tables.{Gives};
ghost use Rattle.plan_rows.specs.declared.fault.RowFault.TheVariants as faults;

use crate::entries::Entries;
use crate::fault::{Place, PlanTable, RowFault};
use number_tables::single_table;
use plan_core::{Memory, Seq};
use std::alloc::{AllocError, Global};
use vdv451_text::{Field, Head, Table};

/// The fault of a row, from 1, or of a table as a whole, at 0.
fn form(table: PlanTable, row: usize) -> RowFault
    ensures { result ≡ faults.Form (spec.place table row) }
{
    RowFault::Form(Place { table, row })
}

/// The table of a name, where it stands once and has at most so many rows.
pub fn table_of(tables: &[Table], which: PlanTable, most: usize) -> Result<&Table, RowFault>
    requires { most < 100000 }
    ensures { spec.GivesTable result (spec.table_of which most tables.now) }
{
    match single_table(tables, which.name()) {
        Some(table) if most < table.rows.len() => Err(form(which, most + 1)),
        Some(table) => Ok(table),
        None => Err(form(which, 0)),
    }
}

/// No row is wrong.
fn no_wrong(which: PlanTable, wrong: Option<usize>) -> Result<(), RowFault>
    requires { IfSome wrong (λ place. place < 2 ^ 63) }
    ensures { Gives result (spec.no_wrong which wrong) }
{
    match wrong {
        Some(place) => Err(form(which, place + 1)),
        None => Ok(()),
    }
}

/// Where the first row stands that says nothing.
fn wrong_row<E: Entries>(entries: &E, heads: &[Head], rows: &[Seq<Field>]) -> Option<usize>
    ensures first { result ≡ spec.first_wrong (E.said entries.now heads.now) rows.now }
    ensures within { IfSome result (λ place. place < length rows.now) }
{
    rows.iter()
        .position(|row| entries.entry(heads, row.as_slice()).is_none())
}

/// Each row says something.
fn check_rows<E: Entries>(entries: &E, which: PlanTable, table: &Table) -> Result<(), RowFault>
    ensures { Gives result (spec.no_wrong which (spec.first_wrong (E.said entries.now table.now.columns) table.now.rows)) }
{
    no_wrong(
        which,
        wrong_row(entries, table.columns.as_slice(), table.rows.as_slice()),
    )
}

/// What the rows say.
fn said_rows<E: Entries>(
    alloc: Global,
    entries: &E,
    heads: &[Head],
    rows: &[Seq<Field>],
) -> Result<Vec<E::Row>, AllocError>
    ensures { IfOk result (λ said. said.items ≡ filter_map (E.said entries.now heads.now) rows.now) }
{
    rows.iter()
        .filter_map(|row| entries.entry(heads, row.as_slice()))
        .collect(alloc)
}

/// What the rows of a table say.
fn rows_in<E: Entries>(alloc: Global, entries: &E, table: &Table) -> Result<Seq<E::Row>, Memory>
    ensures { IfOk result (λ said. said ≡ filter_map (E.said entries.now table.now.columns) table.now.rows) }
{
    let said = said_rows(
        alloc,
        entries,
        table.columns.as_slice(),
        table.rows.as_slice(),
    )?;
    Ok(Seq::from_vec(said))
}

/// What each row of the table of a name says, or the first place where the table says nothing.
pub(crate) fn read_rows<E: Entries>(
    alloc: Global,
    tables: &[Table],
    which: PlanTable,
    most: usize,
    entries: &E,
) -> Result<Seq<E::Row>, RowFault>
    requires { most < 100000 }
    ensures { Gives result (spec.rows_of which most (E.said entries.now) tables.now) }
{
    let table = table_of(tables, which, most)?;
    check_rows(entries, which, table)?;
    Ok(rows_in(alloc, entries, table)?)
}
