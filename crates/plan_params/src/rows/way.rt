//! The ways of drivers between points.

ghost use Rattle.std.specs.Prelude.{◌≡◌};
ghost use Rattle.plan_params.specs.Settings.{way_of};
ghost use Rattle.plan_params.specs.LookUps.{way_key_of};

use crate::row::{TableRow, number_at, point_at};
use plan_core::{Memory, Point};
use std::alloc::Global;
use vdv452_tables::KeyedRow;

/// How long a driver is on the way from point to point (X_WEG).
#[derive(Clone, Copy, Debug, PartialEq, Eq)]
pub struct Way {
    /// ONR_TYP_NR and ORT_NR.
    pub from: Point,
    /// ZIEL_TYP and ZIEL_NR.
    pub to: Point,
    /// WEG_SEK in seconds, at most 172,800.
    pub time: u32,
}

/// The two points of a way.
#[derive(Clone, Copy, PartialEq, Eq, Hash)]
pub(crate) struct WayKey {
    pub from: Point,
    pub to: Point,
}

impl TableRow for Way {
    ghost of_row = { way_of };

    fn from_row(row: &[u32]) -> Way {
        Way {
            from: point_at(row, 0, 1),
            to: point_at(row, 2, 3),
            time: number_at(row, 4),
        }
    }
}

impl KeyedRow<WayKey, u32> for Way {
    ghost key_of = { way_key_of };

    ghost value_of = { λ way. way.time };

    fn entry(&self, _alloc: Global) -> Result<(WayKey, u32), Memory> {
        let key = WayKey {
            from: self.from,
            to: self.to,
        };
        Ok((key, self.time))
    }
}
