//! Rows of points and of types of vehicles.

ghost use Rattle.vdv452_rows.specs.TypedRows as typed_rows;

use super::{TypedRow, number_at, point_at};
use crate::cell::Cell;
use plan_core::{Memory, Point};
use std::alloc::Global;

/// A point of the network in a version (REC_ORT).
#[derive(Clone, Copy)]
pub struct PointRow {
    /// BASIS_VERSION.
    pub version: u32,
    /// ONR_TYP_NR and ORT_NR.
    pub at: Point,
}

/// A type of vehicles in a version (MENGE_FZG_TYP).
#[derive(Clone, Copy)]
pub struct TypeRow {
    /// BASIS_VERSION.
    pub version: u32,
    /// FZG_TYP_NR.
    pub typ: u32,
}

impl TypedRow for PointRow {
    ghost row_of = { typed_rows.point_row };

    #[tactic(auto, unfolding(crate::specs::TypedRows::point_row))]
    fn from_cells(_alloc: Global, cells: &[Cell], _place: u32) -> Result<PointRow, Memory> {
        Ok(PointRow {
            version: number_at(cells, 0),
            at: point_at(cells, 1, 2),
        })
    }
}

impl TypedRow for TypeRow {
    ghost row_of = { typed_rows.type_row };

    #[tactic(auto, unfolding(crate::specs::TypedRows::type_row))]
    fn from_cells(_alloc: Global, cells: &[Cell], _place: u32) -> Result<TypeRow, Memory> {
        Ok(TypeRow {
            version: number_at(cells, 0),
            typ: number_at(cells, 1),
        })
    }
}
