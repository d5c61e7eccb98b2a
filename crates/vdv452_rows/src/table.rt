//! One table by its schema.

ghost use Rattle.std.specs.Prelude.{◌≡◌, ◌<◌, ◌^◌, true, not, [], ◌∷◌, ◌++◌, Some, Option, All, IfOk, IfErr, IfSome, OnOk, length, filter, map, slice_get, vec_len};
ghost use Rattle.std.specs.List.{find, flat_map, list_any};
ghost use Rattle.std.specs.Option.{option_copied};
ghost use Rattle.vdv452_rows.specs.Answers.{IsRefusal};
ghost use Rattle.vdv452_rows.specs.TypedRows.{typed};
ghost use Rattle.vdv452_rows.specs.Cells.{cell_of as value_of, same_cells};
ghost use Rattle.vdv452_rows.specs.Found.{found_columns, found_cells, found_field, found_key, found_faults, found_row_fault, found_row_faults};
ghost use Rattle.vdv452_rows.specs.Rows.{cell_in, cell_fault, field_fault, has_name, missing_column, is_twice, own_key, place_of as first_place, rows_of, table_faults, rows_in, faults_in, when};

use crate::cell::{Cell, bytes_of, cell_of, is_empty_field};
use crate::fault::{Refusal, TableKind, refusal_of};
use crate::row_key::KeySet;
use crate::rows::TypedRow;
use crate::schema::{Column, Schema};
use plan_core::{Memory, Seq};
use std::alloc::Global;
use vdv451_text::{Field, Head, Table};

/// A column of a schema, and where it stands in a table, if it is there.
#[derive(Drop)]
pub(crate) struct Found {
    pub column: Column,
    pub place: Option<usize>,
}

/// Where the first column of a name stands among the columns of a table, from 0; None where none has it.
pub fn column_place(heads: &[Head], name: &[u8]) -> Option<usize>
    ensures value { result ≡ first_place name.now heads.now }
    ensures within { IfSome result (λ place. place < length heads.now) }
{
    for (place, head) in heads.iter().enumerate() {
        if head.name.as_slice() == name {
            return Some(place);
        }
    }
    None
}

fn copied_column(alloc: Global, column: &Column) -> Result<Column, Memory>
    ensures { IfOk result (λ copy. copy ≡ column.now) }
{
    Ok(Column {
        name: bytes_of(alloc, column.name.as_slice())?,
        domain: column.domain,
        is_key: column.is_key,
        may_be_empty: column.may_be_empty,
        may_be_missing: column.may_be_missing,
    })
}

/// The columns with their places, or the first one that must be there and is missing.
fn find_columns(
    alloc: Global,
    table: &[u8],
    columns: &[Column],
    heads: &[Head],
) -> Result<Vec<Found>, Refusal>
    ensures places { IfOk result (λ found. found.items ≡ found_columns heads.now columns.now) }
    ensures none { OnOk result (flat_map (missing_column table.now heads.now) columns.now ≡ []) }
    ensures missing { IfErr result (IsRefusal (flat_map (missing_column table.now heads.now) columns.now)) }
{
    let mut found = Vec::new(alloc);
    for column in columns {
        let name = column.name.as_slice();
        let place = column_place(heads, name);
        if place.is_none() && !column.may_be_missing {
            return Err(refusal_of(alloc, TableKind::NoColumn, table, name, 0));
        }
        found.push(Found {
            column: copied_column(alloc, column)?,
            place,
        })?;
    }
    Ok(found)
}

/// The value of a field that is there, or what is wrong with it.
fn read_field(
    alloc: Global,
    table: &[u8],
    number: u32,
    column: &Column,
    field: &Field,
) -> Result<Cell, Refusal>
    ensures value { IfOk result (λ cell. value_of column.now field.now ≡ Some cell) }
    ensures wrong { IfErr result (IsRefusal (field_fault table.now number column.now field.now)) }
{
    match cell_of(alloc, column, field)? {
        Some(cell) => Ok(cell),
        None => {
            let kind = if is_empty_field(field) {
                TableKind::NoValue
            } else {
                TableKind::Range
            };
            let name = column.name.as_slice();
            Err(refusal_of(alloc, kind, table, name, number))
        }
    }
}

/// The value of a row in a column, or what is wrong with it.
fn read_cell(
    alloc: Global,
    table: &[u8],
    number: u32,
    column: &Column,
    field: Option<&Field>,
) -> Result<Cell, Refusal>
    ensures value { IfOk result (λ cell. cell ≡ cell_in column.now (option_copied field.entry)) }
    ensures right { OnOk result (cell_fault table.now number column.now (option_copied field.entry) ≡ []) }
    ensures wrong { IfErr result (IsRefusal (cell_fault table.now number column.now (option_copied field.entry))) }
{
    match field {
        Some(field) => read_field(alloc, table, number, column, field),
        None => Ok(Cell::Nothing),
    }
}

/// The field of a row in a column, if there is one.
fn field_at<'a>(row: &'a [Field], entry: &Found) -> Option<&'a Field>
    ensures { option_copied result ≡ found_field row.now entry.now }
{
    match entry.place {
        Some(place) => row.get(place),
        None => None,
    }
}

/// How many columns are in the key.
fn key_count(found: &[Found]) -> usize {
    found.iter().filter(|entry| entry.column.is_key).count()
}

/// Puts a value behind those of a key, where its column is in the key.
fn keep_in_key(key: &mut Vec<Cell>, is_in_key: bool, cell: Cell) -> Result<(), Memory>
    ensures { OnOk result (key.new.items ≡ key.old.items ++ when is_in_key cell) }
{
    if is_in_key {
        key.push(cell)?;
    }
    Ok(())
}

/// A row's key, or the first value of the row that is wrong.
fn read_key(
    alloc: Global,
    table: &[u8],
    number: u32,
    found: &[Found],
    row: &[Field],
) -> Result<Seq<Cell>, Refusal>
    ensures key { IfOk result (λ key. key ≡ found_key found.now row.now) }
    ensures right { OnOk result (found_faults table.now number row.now found.now ≡ []) }
    ensures wrong { IfErr result (IsRefusal (found_faults table.now number row.now found.now)) }
{
    let mut key = Vec::with_capacity(alloc, key_count(found))?;
    for entry in found {
        let field = field_at(row, entry);
        let cell = read_cell(alloc, table, number, &entry.column, field)?;
        keep_in_key(&mut key, entry.column.is_key, cell)?;
    }
    Ok(Seq::from_vec(key))
}

/// Notes a row's key among those of the rows before. Answers whether none of these is the same. A
/// row of a table without a key has nothing to note.
fn note_key(keys: &mut KeySet, key: Seq<Cell>) -> Result<bool, Refusal>
    ensures new { IfOk result (λ is_new. is_new ≡ not (is_twice keys.old key)) }
    ensures noted { IfOk result (λ is_new. is_new ≡ true → keys.new ≡ keys.old ++ own_key key) }
    ensures memory { IfErr result (λ refusal. refusal ≡ Refusal.Memory) }
{
    if key.is_empty() {
        Ok(true)
    } else {
        keys.insert(key)
    }
}

/// Looks a row over, and notes its key among those of the rows before. Its first fault is an error.
fn check_row(
    alloc: Global,
    table: &[u8],
    number: u32,
    found: &[Found],
    row: &[Field],
    keys: &mut KeySet,
) -> Result<(), Refusal>
    ensures key { OnOk result (keys.new ≡ keys.old ++ own_key (found_key found.now row.now)) }
    ensures right { OnOk result (found_row_fault table.now found.now keys.old number row.now ≡ []) }
    ensures wrong { IfErr result (IsRefusal (found_row_fault table.now found.now keys.old number row.now)) }
{
    let key = read_key(alloc, table, number, found, row)?;
    if !note_key(keys, key)? {
        return Err(refusal_of(alloc, TableKind::KeyTwice, table, b"", number));
    }
    Ok(())
}

/// Looks all rows over. The first fault of a value or a key is an error.
fn check_rows(
    alloc: Global,
    table: &[u8],
    found: &[Found],
    rows: &[Seq<Field>],
) -> Result<(), Refusal>
    requires { length rows.now < 2 ^ 32 }
    ensures right { OnOk result (found_row_faults table.now found.now [] 1 rows.now ≡ []) }
    ensures wrong { IfErr result (IsRefusal (found_row_faults table.now found.now [] 1 rows.now)) }
{
    let mut keys = KeySet::with_capacity(alloc, rows.len())?;
    for (place, row) in rows.iter().enumerate() {
        let number = place as u32 + 1;
        check_row(alloc, table, number, found, row.as_slice(), &mut keys)?;
    }
    Ok(())
}

/// The value of a row in a column, where it is right there, else nothing.
fn right_cell(alloc: Global, column: &Column, field: Option<&Field>) -> Result<Cell, Memory>
    ensures { IfOk result (λ cell. cell ≡ cell_in column.now (option_copied field.entry)) }
{
    match field {
        Some(field) => match cell_of(alloc, column, field)? {
            Some(cell) => Ok(cell),
            None => Ok(Cell::Nothing),
        },
        None => Ok(Cell::Nothing),
    }
}

/// A row's values.
fn row_cells(alloc: Global, found: &[Found], row: &[Field]) -> Result<Seq<Cell>, Memory>
    ensures { IfOk result (λ cells. cells ≡ found_cells found.now row.now) }
{
    let mut cells = Vec::with_capacity(alloc, found.len())?;
    for entry in found {
        let field = field_at(row, entry);
        cells.push(right_cell(alloc, &entry.column, field)?)?;
    }
    Ok(Seq::from_vec(cells))
}

/// The rows of a table, typed.
fn typed_rows<R: TypedRow>(
    alloc: Global,
    found: &[Found],
    rows: &[Seq<Field>],
) -> Result<Vec<R>, Memory>
    requires { length rows.now < 2 ^ 32 }
    ensures value { IfOk result (λ made. made.items ≡ typed R.row_of 0 (map (found_cells found.now) rows.now)) }
    ensures few { IfOk result (λ made. vec_len made < 2 ^ 32) }
{
    let mut made = Vec::with_capacity(alloc, rows.len())?;
    for (place, row) in rows.iter().enumerate() {
        let cells = row_cells(alloc, found, row.as_slice())?;
        made.push(R::from_cells(alloc, cells.as_slice(), place as u32)?)?;
    }
    Ok(made)
}

/// The rows of a table, typed, or the first fault of a value or a key. The keys are let go before
/// the typed rows are made, so that the two never take memory together.
fn read_rows<R: TypedRow>(
    alloc: Global,
    table: &[u8],
    found: &[Found],
    rows: &[Seq<Field>],
) -> Result<Vec<R>, Refusal>
    requires { length rows.now < 2 ^ 32 }
    ensures value { IfOk result (λ read. read.items ≡ typed R.row_of 0 (map (found_cells found.now) rows.now)) }
    ensures few { IfOk result (λ read. vec_len read < 2 ^ 32) }
    ensures right { OnOk result (found_row_faults table.now found.now [] 1 rows.now ≡ []) }
    ensures wrong { IfErr result (IsRefusal (found_row_faults table.now found.now [] 1 rows.now)) }
{
    check_rows(alloc, table, found, rows)?;
    Ok(typed_rows(alloc, found, rows)?)
}

/// How many tables have a name.
fn count_named(tables: &[Table], name: &[u8]) -> usize
    ensures { result ≡ length (filter (has_name name.now) tables.now) }
{
    tables
        .iter()
        .filter(|table| table.name.as_slice() == name)
        .count()
}

/// The first table of a name.
fn table_named<'a>(tables: &'a [Table], name: &[u8]) -> Option<&'a Table>
    requires { All (λ table. length table.rows < 2 ^ 32) tables.now }
    ensures first { option_copied result ≡ find (has_name name.now) tables.now }
    ensures few { IfSome result (λ table. length table.now.rows < 2 ^ 32) }
{
    for table in tables {
        if table.name.as_slice() == name {
            return Some(table);
        }
    }
    None
}

/// The rows of a table that is there.
fn read_found<R: TypedRow>(alloc: Global, schema: &Schema, table: &Table) -> Result<Vec<R>, Refusal>
    requires { length table.now.rows < 2 ^ 32 }
    ensures value { IfOk result (λ read. read.items ≡ typed R.row_of 0 (rows_in schema.now (Some table.now))) }
    ensures few { IfOk result (λ read. vec_len read < 2 ^ 32) }
    ensures right { OnOk result (faults_in schema.now (Some table.now) ≡ []) }
    ensures wrong { IfErr result (IsRefusal (faults_in schema.now (Some table.now))) }
{
    let name = schema.name.as_slice();
    let found = find_columns(
        alloc,
        name,
        schema.columns.as_slice(),
        table.columns.as_slice(),
    )?;
    read_rows(alloc, name, found.as_slice(), table.rows.as_slice())
}

/// The rows of a schema's table over all tables, in the order of the table, or the table's first fault: `TableTwice`, `NoTable` (of a table
/// that must be there), `NoColumn` in the order of the schema's columns, then row by row first `NoValue` and `Range` column by column, then
/// `KeyTwice`. A table that may be missing and is has no rows. The time is in the order of the table's fields.
pub fn read_table<R: TypedRow>(
    alloc: Global,
    schema: &Schema,
    tables: &[Table],
) -> Result<Vec<R>, Refusal>
    requires { All (λ table. length table.rows < 2 ^ 32) tables.now }
    ensures value { IfOk result (λ read. read.items ≡ typed R.row_of 0 (rows_of schema.now tables.now)) }
    ensures few { IfOk result (λ read. vec_len read < 2 ^ 32) }
    ensures right { OnOk result (table_faults schema.now tables.now ≡ []) }
    ensures wrong { IfErr result (IsRefusal (table_faults schema.now tables.now)) }
{
    let name = schema.name.as_slice();
    if count_named(tables, name) > 1 {
        return Err(refusal_of(alloc, TableKind::TableTwice, name, b"", 0));
    }
    match table_named(tables, name) {
        Some(table) => read_found(alloc, schema, table),
        None => {
            if schema.is_optional {
                Ok(Vec::new(alloc))
            } else {
                Err(refusal_of(alloc, TableKind::NoTable, name, b"", 0))
            }
        }
    }
}
