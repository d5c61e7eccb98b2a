//! The settings of a few groups of drivers, who have a depot and a stop.

ghost use Rattle.std.specs.Prelude.{IfOk};
ghost use Rattle.plan_params.specs.Limits.{HaveRanges};

use crate::given_rows::{Rows, TableRows, text_of};
use crate::reading::network_in;
use plan_core::Point;
use plan_params::{Params, read_params};
use std::alloc::Global;
use std::test::Fail;
use vdv452_tables::Needs;

/// The depot's point.
pub const DEPOT: Point = Point { typ: 2, nr: 9 };

/// The point of the stop.
pub const STOP: Point = Point { typ: 1, nr: 2 };

/// The tables with these groups. The way between the depot and the stop takes 1,200 seconds.
fn text_with(alloc: Global, groups: Rows) -> Result<Vec<u8>, Fail> {
    let tables: [TableRows; 14] = [
        ("BASIS_VER_GUELTIGKEIT", &[]),
        ("FIRMENKALENDER", &[]),
        ("REC_ORT", &["1; 1; 2", "1; 2; 9"]),
        ("REC_SEL", &[]),
        ("SEL_FZT_FELD", &[]),
        ("REC_LID", &[]),
        ("LID_VERLAUF", &[]),
        ("REC_FRT", &[]),
        ("UEB_FZT", &[]),
        ("MENGE_FZG_TYP", &[]),
        ("X_PLAN", &["1; 1; 300; 7200; 300"]),
        ("X_HOF", &[]),
        ("X_WEG", &["1; 2; 2; 9; 1200", "2; 9; 1; 2; 1200"]),
        ("X_FAHRER", groups),
    ];
    text_of(alloc, &tables, "; ZEHN_STD; KURZE_RUHE")
}

/// The settings with these groups of drivers, rows of X_FAHRER with ZEHN_STD and KURZE_RUHE.
pub fn driver_settings(alloc: Global, groups: Rows) -> Result<Params, Fail>
    ensures { IfOk result HaveRanges }
{
    let text = text_with(alloc, groups)?;
    let net = network_in(alloc, &text, Needs::All)?;
    Ok(read_params(alloc, &net, 1)?)
}
