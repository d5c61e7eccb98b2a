//! Groups of drivers.

ghost use Rattle.plan_params.specs.Settings.{group_of};

use crate::row::{TableRow, number_at, point_at};
use plan_core::Point;

/// A group of drivers (X_FAHRER).
#[derive(Clone, Copy, Debug, PartialEq, Eq)]
pub struct Group {
    /// GRUPPE_NR.
    pub number: u32,
    /// ONR_TYP_NR and ORT_NR, the point where the drivers sign on and off.
    pub home: Point,
    /// ANZAHL, how many drivers there are, at most 10,000.
    pub cap: u32,
    /// FIX_KOSTEN in cost units for each duty, at most 100,000,000.
    pub fixed: u32,
    /// SATZ, the rate of a duty's time, at most 10,000.
    pub rate: u32,
    /// ANMELDE_SEK, the seconds of signing on, at most 172,800.
    pub sign_on: u32,
    /// ABMELDE_SEK, the seconds of signing off, at most 172,800.
    pub sign_off: u32,
    /// ZEHN_STD is 1: a duty may have ten hours of driving (article 6(1) of Regulation (EC) 561/2006).
    pub ten: bool,
    /// KURZE_RUHE is 1: a reduced daily rest may follow a duty (article 8(2)).
    pub reduced: bool,
}

impl TableRow for Group {
    ghost of_row = { group_of };

    fn from_row(row: &[u32]) -> Group {
        let ten = number_at(row, 8) == 1;
        let reduced = number_at(row, 9) == 1;
        Group {
            number: number_at(row, 0),
            home: point_at(row, 1, 2),
            cap: number_at(row, 3),
            fixed: number_at(row, 4),
            rate: number_at(row, 5),
            sign_on: number_at(row, 6),
            sign_off: number_at(row, 7),
            ten,
            reduced,
        }
    }
}
