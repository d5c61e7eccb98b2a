//! Where the columns of the roster's table stand.

ghost use Rattle.std.specs.Prelude.{◌≡◌};
ghost use Rattle.week_check.specs.Roster as spec;

use crate::column::{COLUMNS, RosterColumn, column_name};
use crate::entry::Entry;
use number_tables::number_at;
use vdv451_text::{Field, Head};
use vdv452_tables::{TableKind, column_place};

/// The places of the columns among those of a table, from 0.
#[derive(Clone, Copy, Debug)]
pub(crate) struct Places {
    pub driver: usize,
    pub day: usize,
    pub begin: usize,
    pub end: usize,
    pub driving: usize,
    pub pause: usize,
}

fn is_missing(heads: &[Head], column: RosterColumn) -> bool
    ensures { result ≡ spec.is_missing heads.now column }
{
    column_place(heads, column_name(column).as_bytes()).is_none()
}

/// The first column that the table lacks.
pub(crate) fn missing_column(heads: &[Head]) -> Option<RosterColumn>
    ensures { result ≡ spec.missing_column heads.now }
{
    for column in &COLUMNS {
        if is_missing(heads, *column) {
            return Some(*column);
        }
    }
    None
}

/// The place of a column, 0 where the table lacks it.
fn place_in(heads: &[Head], column: RosterColumn) -> usize
    ensures { result ≡ spec.place_in heads.now column }
{
    match column_place(heads, column_name(column).as_bytes()) {
        Some(place) => place,
        None => 0,
    }
}

/// The places of the columns.
pub(crate) fn places_in(heads: &[Head]) -> Places
    ensures { result ≡ spec.places_in heads.now }
{
    Places {
        driver: place_in(heads, RosterColumn::Driver),
        day: place_in(heads, RosterColumn::Day),
        begin: place_in(heads, RosterColumn::Begin),
        end: place_in(heads, RosterColumn::End),
        driving: place_in(heads, RosterColumn::Driving),
        pause: place_in(heads, RosterColumn::Pause),
    }
}

fn place_of(places: &Places, column: RosterColumn) -> usize
    ensures { result ≡ spec.place_at places.now column }
{
    match column {
        RosterColumn::Driver => places.driver,
        RosterColumn::Day => places.day,
        RosterColumn::Begin => places.begin,
        RosterColumn::End => places.end,
        RosterColumn::Driving => places.driving,
        RosterColumn::Pause => places.pause,
    }
}

/// The numbers of a row.
pub(crate) fn entry_at(places: &Places, row: &[Field]) -> Entry
    ensures { result ≡ spec.entry_of (spec.fields_at places.now row.now) }
{
    Entry {
        driver: number_at(row, places.driver),
        day: number_at(row, places.day),
        begin: number_at(row, places.begin),
        end: number_at(row, places.end),
        driving: number_at(row, places.driving),
        pause: number_at(row, places.pause),
    }
}

/// What is wrong with a value of a row that is not right.
pub(crate) fn kind_at(places: &Places, row: &[Field], column: RosterColumn) -> TableKind
    ensures { result ≡ spec.kind_of (spec.field_of (spec.fields_at places.now row.now) column) }
{
    match row.get(place_of(places, column)) {
        Some(Field::Empty) | None => TableKind::NoValue,
        Some(Field::Num(_) | Field::Text(_) | Field::Raw(_)) => TableKind::Range,
    }
}
