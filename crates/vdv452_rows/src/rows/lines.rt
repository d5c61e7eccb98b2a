//! Rows of lines and of their stop sequences.

ghost use Rattle.vdv452_rows.specs.TypedRows as typed_rows;

use super::{TypedRow, number_at, point_at, word_at};
use crate::cell::Cell;
use plan_core::{Bytes, Memory, Point};
use std::alloc::Global;

/// A variant of a line in a version, and its area (REC_LID).
#[derive(Drop)]
pub struct LineRow {
    /// BASIS_VERSION.
    pub version: u32,
    /// LI_NR.
    pub line: u32,
    /// STR_LI_VAR; of a number its decimal digits.
    pub variant: Bytes,
    /// BEREICH_NR, the area whose run times and lengths count.
    pub area: u32,
}

/// A point in the stop sequence of a variant of a line (LID_VERLAUF).
#[derive(Drop)]
pub struct StopRow {
    /// BASIS_VERSION.
    pub version: u32,
    /// LI_LFD_NR, the number by which the points of a stop sequence are in order.
    pub number: u32,
    /// LI_NR.
    pub line: u32,
    /// STR_LI_VAR; of a number its decimal digits.
    pub variant: Bytes,
    /// ONR_TYP_NR and ORT_NR.
    pub at: Point,
}

impl TypedRow for LineRow {
    ghost row_of = { typed_rows.line_row };

    #[tactic(auto, unfolding(crate::specs::TypedRows::line_row))]
    fn from_cells(alloc: Global, cells: &[Cell], _place: u32) -> Result<LineRow, Memory> {
        Ok(LineRow {
            version: number_at(cells, 0),
            line: number_at(cells, 1),
            variant: word_at(alloc, cells, 2)?,
            area: number_at(cells, 3),
        })
    }
}

impl TypedRow for StopRow {
    ghost row_of = { typed_rows.stop_row };

    #[tactic(auto, unfolding(crate::specs::TypedRows::stop_row))]
    fn from_cells(alloc: Global, cells: &[Cell], _place: u32) -> Result<StopRow, Memory> {
        Ok(StopRow {
            version: number_at(cells, 0),
            number: number_at(cells, 1),
            line: number_at(cells, 2),
            variant: word_at(alloc, cells, 3)?,
            at: point_at(cells, 4, 5),
        })
    }
}
