//! The table REC_FRT of the trips of a plan.

ghost use Rattle.std.specs.Prelude.{◌≡◌, ◌<◌, ◌≤◌, ◌^◌, true, [], All, IsTrue, IfOk, IfSome, codes, filter, length, unwrap_or};
ghost use Rattle.std.specs.List.{find};
ghost use Rattle.plan_core.specs.Limits.{most_items};
ghost use Rattle.cover_core.specs.Cover.{AllBelow};
ghost use Rattle.vdv451_text.specs.Plain.{is_plain_table};
ghost use Rattle.umlauf_write.specs.Tables.{block_of, format_at, numbered, uid_field as uid_field_of, with_uid as with_uid_of};
ghost use Rattle.umlauf_write.specs.Trips.{HasOneRow, found_row, found_table as found_table_of, is_number as is_number_of, is_row_of as is_row_of_spec, row_of as row_of_spec};

use crate::numbers::block_numbers;
use cover_core::Column;
use day_model::Day;
use itoa::Buffer;
use number_tables::number_in;
use plan_core::{Bytes, Memory, Seq};
use std::alloc::Global;
use vdv451_text::{Field, FieldBytes, Head, Table, copied_columns, copied_row, is_number_format};
use vdv452_tables::column_place;

/// The number of a block in a column of a format: a number in a column of numbers, else its bare digits.
fn uid_field(alloc: Global, format: &[u8], number: u32) -> Result<Field, Memory>
    ensures { IfOk result (λ field. field ≡ uid_field_of format.now number) }
{
    if is_number_format(format) {
        return Ok(Field::Num(i64::from(number)));
    }
    let mut digits = Buffer::new();
    let bytes = Vec::from_slice(alloc, digits.format(number).as_bytes())?;
    Ok(Field::Raw(FieldBytes::new(alloc, Bytes::from_vec(bytes))?))
}

/// A row once more, with the number of its block.
fn with_uid(
    alloc: Global,
    heads: &[Head],
    place: Option<usize>,
    row: &[Field],
    number: u32,
) -> Result<Seq<Field>, Memory>
    requires { IfSome place (λ place. (place < length heads.now) × (place < length row.now)) }
    ensures { IfOk result (λ copy. copy ≡ with_uid_of heads.now place row.now number) }
{
    let mut copy = copied_row(alloc, row)?;
    match place {
        Some(place) => {
            let field = uid_field(alloc, heads[place].format.as_slice(), number)?;
            copy.set(place, field);
            Ok(copy)
        }
        None => Ok(copy),
    }
}

/// Whether a number is there and is this one.
fn is_number(number: u64, found: Option<i64>) -> bool
    ensures { result ≡ is_number_of number found }
{
    match found {
        Some(found) => found >= 0 && found as u64 == number,
        None => false,
    }
}

/// Whether a row is that of a trip of a version.
fn is_row_of(heads: &[Head], version: u32, fid: u64, row: &[Field]) -> bool
    ensures { result ≡ is_row_of_spec heads.now version fid row.now }
{
    is_number(u64::from(version), number_in(heads, row, b"BASIS_VERSION"))
        && is_number(fid, number_in(heads, row, b"FRT_FID"))
}

/// The row of a trip of a version, by looking through all rows.
fn row_of_trip<'t>(heads: &[Head], rows: &'t [Seq<Field>], version: u32, fid: u64) -> &'t [Field]
    requires one { length (filter (is_row_of_spec heads.now version fid) rows.now) ≡ 1 }
    ensures { result.now ≡ unwrap_or (find (is_row_of_spec heads.now version fid) rows.now) [] }
{
    for row in rows {
        if is_row_of(heads, version, fid, row.as_slice()) {
            return row.as_slice();
        }
    }
    unreachable!()
}

/// The row of a trip of a version. It mostly stands at the place that is told first.
fn row_of<'t>(table: &'t Table, told: u32, version: u32, fid: u64) -> &'t [Field]
    requires one { HasOneRow table.now version fid }
    ensures { result.now ≡ row_of_spec table.now version fid }
{
    let heads = table.columns.as_slice();
    let rows = table.rows.as_slice();
    if let Some(row) = rows.get(told as usize) {
        if is_row_of(heads, version, fid, row.as_slice()) {
            return row.as_slice();
        }
    }
    row_of_trip(heads, rows, version, fid)
}

/// The rows of the day's trips by number, with the numbers of their blocks.
fn found_rows(
    alloc: Global,
    day: &Day,
    table: &Table,
    blocks: &[Column],
) -> Result<Seq<Seq<Field>>, Memory>
    requires plain { IsTrue (is_plain_table table.now) }
    requires one { All (λ trip. HasOneRow table.now day.now.kind.version trip.fid) day.now.trips }
    requires few { length blocks.now ≤ most_items }
    requires items { All (λ block. AllBelow (length day.now.trips) block.items) blocks.now }
    ensures { IfOk result (λ rows. rows ≡ numbered (found_row table.now day.now.kind.version blocks.now) 0 day.now.trips) }
{
    let trips = day.trips();
    let told = day.rows();
    let version = day.kind().version;
    let numbers = block_numbers(alloc, trips.len(), blocks)?;
    let heads = table.columns.as_slice();
    let uid = column_place(heads, b"UM_UID");
    let mut rows = Seq::new(alloc);
    for (number, trip) in trips.iter().enumerate() {
        let row = row_of(table, told[number], version, trip.fid);
        rows.push(with_uid(alloc, heads, uid, row, numbers[number])?)?;
    }
    Ok(rows)
}

/// The table REC_FRT with the rows of the day's trips by number, as they were read but for UM_UID, which has the numbers of their blocks.
pub(crate) fn found_table(
    alloc: Global,
    day: &Day,
    table: &Table,
    blocks: &[Column],
) -> Result<Table, Memory>
    requires plain { IsTrue (is_plain_table table.now) }
    requires one { All (λ trip. HasOneRow table.now day.now.kind.version trip.fid) day.now.trips }
    requires few { length blocks.now ≤ most_items }
    requires items { All (λ block. AllBelow (length day.now.trips) block.items) blocks.now }
    ensures table { IfOk result (λ written. written ≡ found_table_of day.now table.now blocks.now) }
    ensures plain { IfOk result (λ written. is_plain_table written ≡ true) }
{
    Ok(Table {
        name: table.name.clone()?,
        columns: copied_columns(alloc, table.columns.as_slice())?,
        rows: found_rows(alloc, day, table, blocks)?,
    })
}
