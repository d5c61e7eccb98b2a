//! The tables that tell of each line or point, pool or group: their names, their columns, and whose rows they have.

ghost use Rattle.std.specs.Prelude.{◌≡◌, ◌≤◌, All, IfOk};
ghost use Rattle.day_maker.specs.Made as made;
ghost use Rattle.day_maker.specs.Made.{texts};

use crate::parts::{PLACES, Part, rows_for};
use crate::tables::table_over;
use plan_core::Memory;
use std::alloc::Global;
use vdv451_text::Table;

/// The lines.
const LINES: [u64; 7] = [1, 2, 3, 4, 5, 6, 7];

/// All points.
const POINTS: [u64; 17] = [1, 2, 3, 4, 5, 6, 7, 8, 11, 12, 13, 14, 15, 16, 17, 101, 102];

/// The terminals.
const TERMINALS: [u64; 8] = [1, 2, 3, 4, 5, 6, 7, 8];

/// The pools, and the groups of drivers.
const SHARES: [u64; 2] = [1, 2];

/// The name of the table.
fn name_of(part: Part) -> &'static str
    ensures { result.now ≡ made.part_name part }
{
    match part {
        Part::Points => "REC_ORT",
        Part::Lengths => "REC_SEL",
        Part::Times => "SEL_FZT_FELD",
        Part::Dwells => "ORT_HZTF",
        Part::Variants => "REC_LID",
        Part::Courses => "LID_VERLAUF",
        Part::Deadheads => "UEB_FZT",
        Part::Ways => "X_WEG",
        Part::Reliefs => "X_ABLOESE",
        Part::Pools(_) => "X_HOF",
        Part::Groups(_) => "X_FAHRER",
    }
}

/// The columns of the table.
fn columns_of(part: Part) -> &'static [&'static str]
    ensures { texts result.now ≡ made.part_columns part }
{
    match part {
        Part::Points => &["BASIS_VERSION", "ONR_TYP_NR", "ORT_NR"],
        Part::Lengths => &[
            "BASIS_VERSION",
            "BEREICH_NR",
            "ONR_TYP_NR",
            "ORT_NR",
            "SEL_ZIEL",
            "SEL_ZIEL_TYP",
            "SEL_LAENGE",
        ],
        Part::Times => &[
            "BASIS_VERSION",
            "BEREICH_NR",
            "FGR_NR",
            "ONR_TYP_NR",
            "ORT_NR",
            "SEL_ZIEL",
            "SEL_ZIEL_TYP",
            "SEL_FZT",
        ],
        Part::Dwells => &["BASIS_VERSION", "FGR_NR", "ONR_TYP_NR", "ORT_NR", "HP_HZT"],
        Part::Variants => &["BASIS_VERSION", "LI_NR", "STR_LI_VAR", "BEREICH_NR"],
        Part::Courses => &[
            "BASIS_VERSION",
            "LI_LFD_NR",
            "LI_NR",
            "STR_LI_VAR",
            "ONR_TYP_NR",
            "ORT_NR",
        ],
        Part::Deadheads => &[
            "BASIS_VERSION",
            "BEREICH_NR",
            "FGR_NR",
            "ONR_TYP_NR",
            "ORT_NR",
            "UEB_ZIEL_TYP",
            "UEB_ZIEL",
            "UEB_FAHRZEIT",
        ],
        Part::Ways => &["ONR_TYP_NR", "ORT_NR", "ZIEL_TYP", "ZIEL_NR", "WEG_SEK"],
        Part::Reliefs => &["ONR_TYP_NR", "ORT_NR"],
        Part::Pools(_) => &[
            "HOF_NR",
            "ONR_TYP_NR",
            "ORT_NR",
            "FZG_TYP_NR",
            "ANZAHL",
            "FIX_KOSTEN",
            "LEER_SATZ",
            "STAND_SATZ",
        ],
        Part::Groups(_) => &[
            "GRUPPE_NR",
            "ONR_TYP_NR",
            "ORT_NR",
            "ANZAHL",
            "FIX_KOSTEN",
            "SATZ",
            "ANMELDE_SEK",
            "ABMELDE_SEK",
        ],
    }
}

/// The lines or points, pools or groups of which the table tells.
fn numbers_of(part: Part) -> &'static [u64]
    ensures value { result.now ≡ made.part_numbers part }
    ensures small { All (λ n. n ≤ 1000) result.now }
{
    match part {
        Part::Points => &POINTS,
        Part::Lengths | Part::Times | Part::Dwells | Part::Variants | Part::Courses => &LINES,
        Part::Deadheads | Part::Ways => &PLACES,
        Part::Reliefs => &TERMINALS,
        Part::Pools(_) | Part::Groups(_) => &SHARES,
    }
}

/// The table of a part, with its rows.
pub(crate) fn part_table(alloc: Global, part: Part) -> Result<Table, Memory>
    ensures { IfOk result (λ table. table ≡ made.part_table part) }
{
    let rows = rows_for(alloc, part, numbers_of(part))?;
    table_over(alloc, name_of(part), columns_of(part), rows)
}
