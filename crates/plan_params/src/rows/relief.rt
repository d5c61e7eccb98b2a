//! The points where drivers are relieved (X_ABLOESE: ONR_TYP_NR and ORT_NR).

ghost use Rattle.std.specs.Prelude.{◌≡◌};
ghost use Rattle.plan_params.specs.Settings.{relief_of};

use crate::row::{TableRow, point_at};
use plan_core::Point;

impl TableRow for Point {
    ghost of_row = { relief_of };

    fn from_row(row: &[u32]) -> Point {
        point_at(row, 0, 1)
    }
}
