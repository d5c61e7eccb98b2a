//! Days of one line: trips between 1 and 2, and a depot at 9.

use crate::given_rows::{Rows, TableRows, text_of};
use crate::reading::day_in;
use day_model::Day;
use std::alloc::Global;
use std::test::Fail;

/// The rows that tests give of such days.
#[derive(Clone, Copy)]
pub struct LineRows {
    /// The run times, of SEL_FZT_FELD.
    pub run_times: Rows,
    /// The trips, of REC_FRT: variant 1 goes from 1 to 2, and variant 2 back.
    pub trips: Rows,
    /// The moves without passengers, of UEB_FZT.
    pub moves: Rows,
    /// The pools, of X_HOF.
    pub pools: Rows,
    /// The groups of drivers, of X_FAHRER.
    pub drivers: Rows,
    /// The relief points, of X_ABLOESE.
    pub reliefs: Rows,
}

/// On day 1 a trip from 1 to 2 ends at 32,400, and the trip back begins at 33,000. The depot is 600 from 1 and 900 from 2; it has two
/// vehicles, and there is a group of two drivers, who may be relieved at 2.
pub const SHUTTLE: LineRows = LineRows {
    run_times: &["1; 1; 1; 1; 1; 1; 2; 3600", "1; 1; 1; 1; 2; 1; 1; 3600"],
    trips: &[
        "1; 1; 28800; 1; 1; 1; 1; 1; ",
        "1; 2; 33000; 1; 1; 1; 1; 2; ",
    ],
    moves: &[
        "1; 1; 1; 2; 9; 1; 1; 600",
        "1; 1; 1; 1; 1; 2; 9; 600",
        "1; 1; 1; 2; 9; 1; 2; 900",
        "1; 1; 1; 1; 2; 2; 9; 900",
    ],
    pools: &["1; 2; 9; 1; 2; 1000; 1; 0"],
    drivers: &["1; 2; 9; 2; 500; 1; 600; 300"],
    reliefs: &["1; 2"],
};

/// The text of the tables with these rows.
pub fn line_text(alloc: Global, rows: &LineRows) -> Result<Vec<u8>, Fail> {
    let tables: [TableRows; 14] = [
        ("BASIS_VER_GUELTIGKEIT", &[]),
        ("FIRMENKALENDER", &[]),
        ("REC_ORT", &["1; 1; 1", "1; 1; 2", "1; 2; 9"]),
        ("REC_SEL", &[]),
        ("SEL_FZT_FELD", rows.run_times),
        ("REC_LID", &["1; 1; 1; 1", "1; 1; 2; 1"]),
        (
            "LID_VERLAUF",
            &[
                "1; 1; 1; 1; 1; 1",
                "1; 1; 1; 2; 1; 2",
                "1; 1; 2; 1; 1; 2",
                "1; 1; 2; 2; 1; 1",
            ],
        ),
        ("REC_FRT", rows.trips),
        ("UEB_FZT", rows.moves),
        ("MENGE_FZG_TYP", &["1; 1"]),
        ("X_PLAN", &["1; 1; 300; 7200; 300"]),
        ("X_HOF", rows.pools),
        ("X_FAHRER", rows.drivers),
        ("X_ABLOESE", rows.reliefs),
    ];
    text_of(alloc, &tables, "")
}

/// The day of a kind with these rows.
pub fn line_day(alloc: Global, rows: &LineRows, kind: u32) -> Result<Day, Fail> {
    let text = line_text(alloc, rows)?;
    day_in(alloc, &text, kind)
}
