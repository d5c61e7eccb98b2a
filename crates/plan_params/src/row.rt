//! The values of a row's columns, by their places.

ghost use Rattle.std.specs.Prelude.{◌≡◌, ℕ, List, IfOk, map, slice_index};
ghost use Rattle.plan_params.specs.Settings.{point_at as point_of};

use plan_core::{Memory, Point, Seq};
use std::alloc::Global;

/// The number at a place from 0, and 0 past the last one.
pub(crate) fn number_at(row: &[u32], place: usize) -> u32
    ensures { result ≡ slice_index row.now place }
{
    match row.get(place) {
        Some(number) => *number,
        None => 0,
    }
}

/// The point whose type and number stand at these places.
pub(crate) fn point_at(row: &[u32], typ: usize, nr: usize) -> Point
    ensures { result ≡ point_of row.now typ nr }
{
    Point {
        typ: number_at(row, typ),
        nr: number_at(row, nr),
    }
}

/// What is made of a row's numbers.
pub(crate) trait TableRow: Drop {
    ghost of_row: { List ℕ → Self };

    fn from_row(row: &[u32]) -> Self
        ensures { result ≡ of_row row.now };
}

/// All rows of a table, in their order.
pub(crate) fn read_rows<T: TableRow>(alloc: Global, rows: &[Seq<u32>]) -> Result<Vec<T>, Memory>
    ensures { IfOk result (λ read. read.items ≡ map T.of_row rows.now) }
{
    let mut read = Vec::with_capacity(alloc, rows.len())?;
    for row in rows {
        read.push(T::from_row(row.as_slice()))?;
    }
    Ok(read)
}
