//! The stop sequences of lines.

ghost use Rattle.std.specs.Prelude.{◌≡◌, false, IfOk, OnOk};
ghost use Rattle.indexmap.specs.IndexMap.{get};
ghost use Rattle.vdv452_tables.specs.Indexes.{AreCourses, CourseGrows, course_or_none};
ghost use Rattle.vdv452_tables.specs.Keys.{line_key_eq, stop_key_of};
ghost use Rattle.vdv452_tables.specs.LookUps.{stops_in_order};
ghost use Rattle.vdv452_tables.specs.declared.keys.LineKey.{LineKey};

use crate::keys::{LineKey, LineName};
use indexmap::IndexMap;
use plan_core::{Memory, Point, Seq};
use std::alloc::Global;
use vdv452_rows::{StopRow, bytes_of};

fn copied_stop(alloc: Global, row: &StopRow) -> Result<StopRow, Memory>
    ensures { IfOk result (λ copy. copy ≡ row.now) }
{
    Ok(StopRow {
        version: row.version,
        number: row.number,
        line: row.line,
        variant: bytes_of(alloc, row.variant.as_slice())?,
        at: row.at,
    })
}

fn copied_stops(alloc: Global, rows: &[StopRow]) -> Result<Vec<StopRow>, Memory>
    ensures { IfOk result (λ copies. copies.items ≡ rows.now) }
{
    let mut copies = Vec::with_capacity(alloc, rows.len())?;
    for row in rows {
        copies.push(copied_stop(alloc, row)?)?;
    }
    Ok(copies)
}

/// The rows in the order of LI_LFD_NR.
fn ordered_stops(alloc: Global, rows: &[StopRow]) -> Result<Vec<StopRow>, Memory>
    ensures { IfOk result (λ ordered. ordered.items ≡ stops_in_order rows.now) }
{
    let mut ordered = copied_stops(alloc, rows)?;
    ordered.sort_by_key(|row| row.number)?;
    Ok(ordered)
}

/// The stop sequence of a row's key, without its place in the index; an empty one where there is none.
fn taken_course(
    alloc: Global,
    courses: &mut IndexMap<LineKey, Seq<Point>>,
    row: &StopRow,
) -> Seq<Point>
    ensures course { result ≡ course_or_none (get line_key_eq courses.old (stop_key_of row.now)) }
    ensures others { (key : LineKey) → line_key_eq (stop_key_of row.now) key ≡ false → get line_key_eq courses.new key ≡ get line_key_eq courses.old key }
{
    let name = LineName {
        version: row.version,
        line: row.line,
        variant: &row.variant,
    };
    match courses.swap_remove(name) {
        Some(course) => course,
        None => Seq::new(alloc),
    }
}

/// Puts a row's point at the end of the stop sequence of its key.
fn add_stop(
    alloc: Global,
    courses: &mut IndexMap<LineKey, Seq<Point>>,
    row: &StopRow,
) -> Result<(), Memory>
    ensures { OnOk result (CourseGrows row.now courses.old courses.new) }
{
    let mut course = taken_course(alloc, courses, row);
    course.push(row.at)?;
    let key = LineKey {
        version: row.version,
        line: row.line,
        variant: bytes_of(alloc, row.variant.as_slice())?,
    };
    courses.insert(key, course)?;
    Ok(())
}

/// The points of ordered rows by their keys.
fn grouped_stops(alloc: Global, rows: &[StopRow]) -> Result<IndexMap<LineKey, Seq<Point>>, Memory>
    ensures { IfOk result (λ courses. AreCourses rows.now courses) }
{
    let mut courses = IndexMap::new(alloc);
    for row in rows {
        add_stop(alloc, &mut courses, row)?;
    }
    Ok(courses)
}

/// The stop sequences of lines by their keys.
pub(crate) fn courses_of(
    alloc: Global,
    rows: &[StopRow],
) -> Result<IndexMap<LineKey, Seq<Point>>, Memory>
    ensures { IfOk result (λ courses. AreCourses (stops_in_order rows.now) courses) }
{
    let ordered = ordered_stops(alloc, rows)?;
    grouped_stops(alloc, ordered.as_slice())
}
