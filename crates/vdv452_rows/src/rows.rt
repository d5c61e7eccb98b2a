//! Typed rows.

ghost use Rattle.std.specs.Prelude.{◌≡◌, ℕ, List, IfOk};
ghost use Rattle.vdv452_rows.specs.TypedRows as typed_rows;
ghost use Rattle.vdv452_rows.specs.Values as values;
ghost use Rattle.vdv452_rows.specs.declared.cell.Cell.{Cell};

pub mod lines;
pub mod numbers;
pub mod places;
pub mod times;

use crate::cell::{Cell, bytes_of};
use plan_core::{Bytes, Memory, Point};
use std::alloc::Global;

/// A version and the first day on which it may be in force (BASIS_VER_GUELTIGKEIT).
#[derive(Clone, Copy, Debug, PartialEq, Eq)]
pub struct VersionRow {
    /// VER_GUELTIGKEIT, as YYYYMMDD.
    pub day: u32,
    /// BASIS_VERSION.
    pub version: u32,
}

/// The day type of a day in a version (FIRMENKALENDER).
#[derive(Clone, Copy, Debug, PartialEq, Eq)]
pub struct CalendarRow {
    /// BASIS_VERSION.
    pub version: u32,
    /// BETRIEBSTAG, as YYYYMMDD.
    pub day: u32,
    /// TAGESART_NR.
    pub kind: u32,
}

/// A trip (REC_FRT).
#[derive(Drop)]
pub struct TripRow {
    /// BASIS_VERSION.
    pub version: u32,
    /// FRT_FID, at most 10^18.
    pub fid: u64,
    /// FRT_START in seconds, at most 172,800.
    pub start: u32,
    /// LI_NR.
    pub line: u32,
    /// TAGESART_NR.
    pub kind: u32,
    /// FAHRTART_NR; 1 is a trip with passengers.
    pub mode: u32,
    /// FGR_NR, the group of run times.
    pub group: u32,
    /// STR_LI_VAR, the variant of the line; of a number its decimal digits.
    pub variant: Bytes,
    /// The row's place in its table, from 0.
    pub row: u32,
}

/// A row that is made of the values of its columns.
pub trait TypedRow: Drop {
    /// The row of these values at a place.
    ghost row_of: { List Cell → ℕ → Self };

    /// The row of the values of a schema's columns, in the schema's order, and of the row's place in its table, from 0. `Memory` is the
    /// only error.
    fn from_cells(alloc: Global, cells: &[Cell], place: u32) -> Result<Self, Memory>
        ensures { IfOk result (λ row. row ≡ row_of cells.now place) };
}

pub(crate) fn number_at(cells: &[Cell], place: usize) -> u32
    ensures { result ≡ values.number_at cells.now place }
{
    match cells.get(place) {
        Some(Cell::Number(number)) => *number,
        _ => 0,
    }
}

/// The number of a column that may be empty.
pub(crate) fn some_number_at(cells: &[Cell], place: usize) -> Option<u32>
    ensures { result ≡ values.some_number_at cells.now place }
{
    match cells.get(place) {
        Some(Cell::Number(number)) => Some(*number),
        _ => None,
    }
}

/// The point whose type and number stand at these places.
pub(crate) fn point_at(cells: &[Cell], typ: usize, nr: usize) -> Point
    ensures { result ≡ typed_rows.point_at cells.now typ nr }
{
    Point {
        typ: number_at(cells, typ),
        nr: number_at(cells, nr),
    }
}

pub(crate) fn long_at(cells: &[Cell], place: usize) -> u64
    ensures { result ≡ values.long_at cells.now place }
{
    match cells.get(place) {
        Some(Cell::Long(number)) => *number,
        _ => 0,
    }
}

pub(crate) fn word_at(alloc: Global, cells: &[Cell], place: usize) -> Result<Bytes, Memory>
    ensures { IfOk result (λ word. word ≡ values.word_at cells.now place) }
{
    match cells.get(place) {
        Some(Cell::Word(word)) => bytes_of(alloc, word.as_slice()),
        _ => Ok(Bytes::new(alloc)),
    }
}

impl TypedRow for VersionRow {
    ghost row_of = { typed_rows.version_row };

    #[tactic(auto, unfolding(crate::specs::TypedRows::version_row))]
    fn from_cells(_alloc: Global, cells: &[Cell], _place: u32) -> Result<VersionRow, Memory> {
        Ok(VersionRow {
            day: number_at(cells, 0),
            version: number_at(cells, 1),
        })
    }
}

impl TypedRow for CalendarRow {
    ghost row_of = { typed_rows.calendar_row };

    #[tactic(auto, unfolding(crate::specs::TypedRows::calendar_row))]
    fn from_cells(_alloc: Global, cells: &[Cell], _place: u32) -> Result<CalendarRow, Memory> {
        Ok(CalendarRow {
            version: number_at(cells, 0),
            day: number_at(cells, 1),
            kind: number_at(cells, 2),
        })
    }
}

impl TypedRow for TripRow {
    ghost row_of = { typed_rows.trip_row };

    #[tactic(auto, unfolding(crate::specs::TypedRows::trip_row))]
    fn from_cells(alloc: Global, cells: &[Cell], place: u32) -> Result<TripRow, Memory> {
        Ok(TripRow {
            version: number_at(cells, 0),
            fid: long_at(cells, 1),
            start: number_at(cells, 2),
            line: number_at(cells, 3),
            kind: number_at(cells, 4),
            mode: number_at(cells, 5),
            group: number_at(cells, 6),
            variant: word_at(alloc, cells, 7)?,
            row: place,
        })
    }
}
