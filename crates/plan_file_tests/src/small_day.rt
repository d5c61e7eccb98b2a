//! A small day, by hand: two trips, from 1 to 2 and back, a depot of pool 7 with two vehicles, and the group 5 of two drivers.

use day_model::Day;
use number_tables::{number_table, signed_row};
use plan_core::{Memory, Seq};
use small_networks::{LineRows, SHUTTLE, line_day, line_text};
use std::alloc::Global;
use std::test::Fail;
use vdv451_text::{Field, Table, read_file};

/// The rows of the planning files.
fn rows() -> LineRows {
    LineRows {
        pools: &["7; 2; 9; 1; 2; 1000; 1; 0"],
        drivers: &["5; 2; 9; 2; 500; 1; 600; 300"],
        ..SHUTTLE
    }
}

/// The tables that a text spells.
pub(crate) fn tables_in(alloc: Global, text: &[u8]) -> Result<Seq<Table>, Fail> {
    Ok(read_file(alloc, text, 100_000)?)
}

/// The table of trips is the eighth of the planning files.
pub(crate) const TRIP_TABLE: usize = 7;

/// The tables of the planning files.
pub(crate) fn network(alloc: Global) -> Result<Seq<Table>, Fail> {
    let text = line_text(alloc, &rows())?;
    tables_in(alloc, &text)
}

/// The day.
pub(crate) fn day(alloc: Global) -> Result<Day, Fail> {
    line_day(alloc, &rows(), 1)
}

/// A row of numbers.
fn fields(alloc: Global, row: &[i64]) -> Result<Seq<Field>, Memory> {
    let mut numbers = Vec::new(alloc);
    for number in row {
        numbers.push(Some(*number))?;
    }
    signed_row(alloc, numbers.as_slice())
}

/// A table of rows of numbers.
pub(crate) fn table<const N: usize>(
    alloc: Global,
    name: &str,
    columns: &[&str],
    rows: &[[i64; N]],
) -> Result<Table, Memory> {
    let mut made = Seq::new(alloc);
    for row in rows {
        made.push(fields(alloc, row.as_slice())?)?;
    }
    number_table(alloc, name, columns, made)
}
