//! Rows of lengths, run times and dwell times.

ghost use Rattle.vdv452_rows.specs.TypedRows as typed_rows;

use super::{TypedRow, long_at, number_at, point_at, some_number_at};
use crate::cell::Cell;
use plan_core::{Memory, Point};
use std::alloc::Global;

/// A section between neighbouring points of stop sequences, and its length (REC_SEL).
#[derive(Clone, Copy)]
pub struct SectionRow {
    /// BASIS_VERSION.
    pub version: u32,
    /// BEREICH_NR.
    pub area: u32,
    /// ONR_TYP_NR and ORT_NR.
    pub from: Point,
    /// SEL_ZIEL_TYP and SEL_ZIEL.
    pub to: Point,
    /// SEL_LAENGE in metres, at most 1,000,000; None where the field is empty.
    pub length: Option<u32>,
}

/// The run time of a section in a group of run times (SEL_FZT_FELD).
#[derive(Clone, Copy)]
pub struct RunRow {
    /// BASIS_VERSION.
    pub version: u32,
    /// BEREICH_NR.
    pub area: u32,
    /// FGR_NR.
    pub group: u32,
    /// ONR_TYP_NR and ORT_NR.
    pub from: Point,
    /// SEL_ZIEL_TYP and SEL_ZIEL.
    pub to: Point,
    /// SEL_FZT in seconds, at most 172,800.
    pub time: u32,
}

/// How long each trip of a group of run times stands at a point (ORT_HZTF).
#[derive(Clone, Copy)]
pub struct GroupDwellRow {
    /// BASIS_VERSION.
    pub version: u32,
    /// FGR_NR.
    pub group: u32,
    /// ONR_TYP_NR and ORT_NR.
    pub at: Point,
    /// HP_HZT in seconds, at most 172,800.
    pub time: u32,
}

/// How long one trip stands at a point (REC_FRT_HZT).
#[derive(Clone, Copy)]
pub struct TripDwellRow {
    /// BASIS_VERSION.
    pub version: u32,
    /// FRT_FID, at most 10^18.
    pub fid: u64,
    /// ONR_TYP_NR and ORT_NR.
    pub at: Point,
    /// FRT_HZT_ZEIT in seconds, at most 172,800.
    pub time: u32,
}

/// The time of a move without passengers between two points (UEB_FZT).
#[derive(Clone, Copy, Debug, PartialEq, Eq)]
pub struct DeadRow {
    /// BASIS_VERSION.
    pub version: u32,
    /// BEREICH_NR.
    pub area: u32,
    /// FGR_NR.
    pub group: u32,
    /// ONR_TYP_NR and ORT_NR.
    pub from: Point,
    /// UEB_ZIEL_TYP and UEB_ZIEL.
    pub to: Point,
    /// UEB_FAHRZEIT in seconds, at most 172,800.
    pub time: u32,
}

impl TypedRow for SectionRow {
    ghost row_of = { typed_rows.section_row };

    #[tactic(auto, unfolding(crate::specs::TypedRows::section_row))]
    fn from_cells(_alloc: Global, cells: &[Cell], _place: u32) -> Result<SectionRow, Memory> {
        Ok(SectionRow {
            version: number_at(cells, 0),
            area: number_at(cells, 1),
            from: point_at(cells, 2, 3),
            to: point_at(cells, 5, 4),
            length: some_number_at(cells, 6),
        })
    }
}

impl TypedRow for RunRow {
    ghost row_of = { typed_rows.run_row };

    #[tactic(auto, unfolding(crate::specs::TypedRows::run_row))]
    fn from_cells(_alloc: Global, cells: &[Cell], _place: u32) -> Result<RunRow, Memory> {
        Ok(RunRow {
            version: number_at(cells, 0),
            area: number_at(cells, 1),
            group: number_at(cells, 2),
            from: point_at(cells, 3, 4),
            to: point_at(cells, 6, 5),
            time: number_at(cells, 7),
        })
    }
}

impl TypedRow for GroupDwellRow {
    ghost row_of = { typed_rows.group_dwell_row };

    #[tactic(auto, unfolding(crate::specs::TypedRows::group_dwell_row))]
    fn from_cells(_alloc: Global, cells: &[Cell], _place: u32) -> Result<GroupDwellRow, Memory> {
        Ok(GroupDwellRow {
            version: number_at(cells, 0),
            group: number_at(cells, 1),
            at: point_at(cells, 2, 3),
            time: number_at(cells, 4),
        })
    }
}

impl TypedRow for TripDwellRow {
    ghost row_of = { typed_rows.trip_dwell_row };

    #[tactic(auto, unfolding(crate::specs::TypedRows::trip_dwell_row))]
    fn from_cells(_alloc: Global, cells: &[Cell], _place: u32) -> Result<TripDwellRow, Memory> {
        Ok(TripDwellRow {
            version: number_at(cells, 0),
            fid: long_at(cells, 1),
            at: point_at(cells, 2, 3),
            time: number_at(cells, 4),
        })
    }
}

impl TypedRow for DeadRow {
    ghost row_of = { typed_rows.dead_row };

    #[tactic(auto, unfolding(crate::specs::TypedRows::dead_row))]
    fn from_cells(_alloc: Global, cells: &[Cell], _place: u32) -> Result<DeadRow, Memory> {
        Ok(DeadRow {
            version: number_at(cells, 0),
            area: number_at(cells, 1),
            group: number_at(cells, 2),
            from: point_at(cells, 3, 4),
            to: point_at(cells, 5, 6),
            time: number_at(cells, 7),
        })
    }
}
