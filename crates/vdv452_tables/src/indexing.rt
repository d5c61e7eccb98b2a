//! The indexes of a network, made of its rows.

ghost use Rattle.std.specs.Prelude.{IfOk};
ghost use Rattle.vdv452_tables.specs.Indexes.{AreDwells, AreIndexes, AreLines, AreMoves, ArePlaces};

use crate::course::courses_of;
use crate::index::index_of;
use crate::indexes::{Dwells, Indexes, Lines, Moves, Places};
use crate::net::Net;
use plan_core::Memory;
use std::alloc::Global;

fn places_of(alloc: Global, rows: &Net) -> Result<Places, Memory>
    ensures { IfOk result (ArePlaces rows.now) }
{
    let kinds = index_of(alloc, rows.days.as_slice())?;
    let points = index_of(alloc, rows.points.as_slice())?;
    let types = index_of(alloc, rows.types.as_slice())?;
    Ok(Places {
        kinds,
        points,
        types,
    })
}

fn lines_of(alloc: Global, rows: &Net) -> Result<Lines, Memory>
    ensures { IfOk result (AreLines rows.now) }
{
    let areas = index_of(alloc, rows.lines.as_slice())?;
    let courses = courses_of(alloc, rows.stops.as_slice())?;
    Ok(Lines { areas, courses })
}

fn moves_of(alloc: Global, rows: &Net) -> Result<Moves, Memory>
    ensures { IfOk result (AreMoves rows.now) }
{
    let lengths = index_of(alloc, rows.sections.as_slice())?;
    let runs = index_of(alloc, rows.runs.as_slice())?;
    Ok(Moves { lengths, runs })
}

fn dwells_of(alloc: Global, rows: &Net) -> Result<Dwells, Memory>
    ensures { IfOk result (AreDwells rows.now) }
{
    let groups = index_of(alloc, rows.group_dwells.as_slice())?;
    let trips = index_of(alloc, rows.trip_dwells.as_slice())?;
    Ok(Dwells { groups, trips })
}

/// The indexes of these rows.
pub(crate) fn indexes_of(alloc: Global, rows: &Net) -> Result<Indexes, Memory>
    ensures { IfOk result (AreIndexes rows.now) }
{
    let places = places_of(alloc, rows)?;
    let lines = lines_of(alloc, rows)?;
    let moves = moves_of(alloc, rows)?;
    let dwells = dwells_of(alloc, rows)?;
    Ok(Indexes {
        places,
        lines,
        moves,
        dwells,
    })
}
