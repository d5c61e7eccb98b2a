//! Settings of the whole plan.

ghost use Rattle.plan_params.specs.Settings.{settings_of};

use crate::row::{TableRow, number_at};

/// Settings of the whole plan (X_PLAN).
#[derive(Clone, Copy, Debug, PartialEq, Eq)]
pub struct Settings {
    /// UEB_BEREICH_NR, the area of the moves without passengers.
    pub area: u32,
    /// UEB_FGR_NR, the group of run times of the moves without passengers.
    pub group: u32,
    /// WENDE_SEK, the seconds that a vehicle stands at least between two trips, at most 172,800.
    pub turn: u32,
    /// MAX_WARTE_SEK, the seconds that a vehicle stands at most between two trips, at most 172,800.
    pub max_wait: u32,
    /// UEBERGABE_SEK, the seconds of handing a vehicle over, at most 172,800.
    pub handover: u32,
}

impl TableRow for Settings {
    ghost of_row = { settings_of };

    fn from_row(row: &[u32]) -> Settings {
        Settings {
            area: number_at(row, 0),
            group: number_at(row, 1),
            turn: number_at(row, 2),
            max_wait: number_at(row, 3),
            handover: number_at(row, 4),
        }
    }
}
