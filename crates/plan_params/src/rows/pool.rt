//! The vehicles of depots.

ghost use Rattle.plan_params.specs.Settings.{pool_of};

use crate::row::{TableRow, number_at, point_at};
use plan_core::Point;

/// The vehicles of one type at a depot (X_HOF).
#[derive(Clone, Copy, Debug, PartialEq, Eq)]
pub struct Pool {
    /// HOF_NR.
    pub number: u32,
    /// ONR_TYP_NR and ORT_NR, the depot's point.
    pub depot: Point,
    /// FZG_TYP_NR, the type of the vehicles.
    pub typ: u32,
    /// ANZAHL, how many vehicles there are, at most 10,000.
    pub cap: u32,
    /// FIX_KOSTEN in cost units for each vehicle that is used, at most 100,000,000.
    pub fixed: u32,
    /// LEER_SATZ, the rate of moves without passengers, at most 10,000.
    pub dead_rate: u32,
    /// STAND_SATZ, the rate of stands, at most 10,000.
    pub stand_rate: u32,
}

impl TableRow for Pool {
    ghost of_row = { pool_of };

    fn from_row(row: &[u32]) -> Pool {
        Pool {
            number: number_at(row, 0),
            depot: point_at(row, 1, 2),
            typ: number_at(row, 3),
            cap: number_at(row, 4),
            fixed: number_at(row, 5),
            dead_rate: number_at(row, 6),
            stand_rate: number_at(row, 7),
        }
    }
}
