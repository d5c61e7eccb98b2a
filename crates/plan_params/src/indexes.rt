//! The indexes of the settings.

ghost use Rattle.std.specs.Prelude.{IfOk};
ghost use Rattle.plan_params.specs.Indexes.{AreIndexes};

use crate::rows::ParamRows;
use crate::rows::admission::Admission;
use crate::rows::way::WayKey;
use indexmap::IndexMap;
use plan_core::{Memory, Point};
use std::alloc::Global;
use vdv452_tables::index_of;

/// What the rows tell, by their keys.
#[derive(Drop)]
pub(crate) struct Indexes {
    /// The lines that have rows in X_LINIE_FZG.
    pub lines: IndexMap<u32, ()>,
    pub admissions: IndexMap<Admission, ()>,
    pub reliefs: IndexMap<Point, ()>,
    pub ways: IndexMap<WayKey, u32>,
}

/// The indexes of these rows.
pub(crate) fn indexes_of(alloc: Global, rows: &ParamRows) -> Result<Indexes, Memory>
    ensures { IfOk result (AreIndexes rows.now) }
{
    let lines = index_of(alloc, rows.admissions.as_slice())?;
    let admissions = index_of(alloc, rows.admissions.as_slice())?;
    let reliefs = index_of(alloc, rows.reliefs.as_slice())?;
    let ways = index_of(alloc, rows.ways.as_slice())?;
    Ok(Indexes {
        lines,
        admissions,
        reliefs,
        ways,
    })
}
