//! Small rosters.

ghost use Rattle.std.specs.Prelude.{◌↔◌, ◌<◌, ◌^◌, All, IsTrue, length};

use number_tables::{number_table, signed_row};
use plan_core::{Bytes, Memory, Seq};
use std::alloc::Global;
use std::test::Fail;
use vdv451_text::{Table, write_tables};
use vdv452_tables::TableKind;
use week_check::{Denial, RosterFault, denials, read_roster, verdict_table};

const COLUMNS: [&str; 6] = [
    "FAHRER_NR",
    "BETRIEBSTAG",
    "BEGINN",
    "ENDE",
    "LENKZEIT",
    "DREI",
];

/// A table of the roster's columns with these rows.
fn table(
    alloc: Global,
    name: &str,
    columns: &[&str],
    rows: &[[Option<i64>; 6]],
) -> Result<Table, Memory> {
    let mut fields = Seq::new(alloc);
    for row in rows {
        fields.push(signed_row(alloc, row)?)?;
    }
    number_table(alloc, name, columns, fields)
}

/// The fields of a duty.
fn duty(row: [i64; 6]) -> [Option<i64>; 6] {
    [
        Some(row[0]),
        Some(row[1]),
        Some(row[2]),
        Some(row[3]),
        Some(row[4]),
        Some(row[5]),
    ]
}

fn have_few_rows(tables: &[Table]) -> bool
    ensures { IsTrue result ↔ All (λ table. length table.rows < 2 ^ 32) tables.now }
{
    tables.iter().all(|table| table.rows.len() < 4_294_967_296)
}

/// What is denied of the roster of these tables, None where it is refused.
fn denied_in(alloc: Global, tables: &[Table]) -> Result<Option<Seq<Denial>>, Memory> {
    if !have_few_rows(tables) {
        return Ok(None);
    }
    match read_roster(alloc, tables) {
        Ok(turns) => Ok(Some(denials(alloc, turns.as_slice())?)),
        Err(_) => Ok(None),
    }
}

/// What is denied of a roster of these rows, None where it is refused.
fn denials_of(alloc: Global, rows: &[[i64; 6]]) -> Result<Option<Seq<Denial>>, Memory> {
    let mut duties = Vec::new(alloc);
    for row in rows {
        duties.push(duty(*row))?;
    }
    let tables = [table(alloc, "X_EINSATZ", &COLUMNS, duties.as_slice())?];
    denied_in(alloc, &tables)
}

/// Whether a denial is the one with these numbers.
fn is_denial(denial: &Denial, wanted: [i64; 5]) -> bool {
    i64::from(denial.driver) == wanted[0]
        && i64::from(denial.article) == wanted[1]
        && i64::from(denial.from) == wanted[2]
        && i64::from(denial.to) == wanted[3]
        && denial.value == wanted[4]
}

fn are_denials(found: &[Denial], wanted: &[[i64; 5]]) -> bool {
    if found.len() != wanted.len() {
        return false;
    }
    for (place, denial) in found.iter().enumerate() {
        if !is_denial(denial, wanted[place]) {
            return false;
        }
    }
    true
}

/// Whether this is denied of a roster of these rows.
fn is_denied(alloc: Global, rows: &[[i64; 6]], wanted: &[[i64; 5]]) -> Result<bool, Memory> {
    match denials_of(alloc, rows)? {
        Some(found) => Ok(are_denials(found.as_slice(), wanted)),
        None => Ok(false),
    }
}

/// Rows of driver, day, begin, end, driving and pause, and what is denied: driver, article, first day, last day and value. The days from
/// 2 to 8 March 2026 are a week.
type Case = (&'static [[i64; 6]], &'static [[i64; 5]]);

const LONG_DUTIES: [Case; 5] = [
    // Ten hours of driving are allowed, a second more is not.
    (&[[1, 20_260_302, 0, 50_000, 36_000, 0]], &[]),
    (
        &[[1, 20_260_302, 0, 50_000, 36_001, 0]],
        &[[1, 61, 20_260_302, 20_260_302, 36_001]],
    ),
    // More than nine hours are allowed twice a week.
    (
        &[
            [1, 20_260_302, 20_000, 60_000, 34_000, 0],
            [1, 20_260_303, 20_000, 60_000, 34_000, 0],
            [1, 20_260_304, 20_000, 60_000, 34_000, 0],
        ],
        &[[1, 61, 20_260_304, 20_260_304, 34_000]],
    ),
    (
        &[
            [1, 20_260_302, 20_000, 60_000, 34_000, 0],
            [1, 20_260_303, 20_000, 60_000, 34_000, 0],
            [1, 20_260_304, 20_000, 60_000, 32_400, 0],
        ],
        &[],
    ),
    // The third one in another week, and of another driver.
    (
        &[
            [1, 20_260_307, 20_000, 60_000, 34_000, 0],
            [1, 20_260_308, 20_000, 60_000, 34_000, 0],
            [1, 20_260_309, 20_000, 60_000, 34_000, 0],
            [2, 20_260_309, 20_000, 60_000, 34_000, 0],
        ],
        &[],
    ),
];

#[test]
fn denies_long_driving_in_a_duty(rt: HostRuntime) -> Result<(), Memory> {
    for (rows, wanted) in LONG_DUTIES {
        assert!(rt; is_denied(rt.alloc(), rows, wanted)?);
    }
    Ok(())
}

const LONG_WEEKS: [Case; 4] = [
    // 56 hours a week: six duties of nine hours, and of two hours or a second more.
    (
        &[
            [1, 20_260_302, 0, 40_000, 32_400, 0],
            [1, 20_260_303, 0, 40_000, 32_400, 0],
            [1, 20_260_304, 0, 40_000, 32_400, 0],
            [1, 20_260_305, 0, 40_000, 32_400, 0],
            [1, 20_260_306, 0, 40_000, 32_400, 0],
            [1, 20_260_307, 0, 40_000, 32_400, 0],
            [1, 20_260_308, 0, 40_000, 7_200, 0],
        ],
        &[],
    ),
    (
        &[
            [1, 20_260_302, 0, 40_000, 32_400, 0],
            [1, 20_260_303, 0, 40_000, 32_400, 0],
            [1, 20_260_304, 0, 40_000, 32_400, 0],
            [1, 20_260_305, 0, 40_000, 32_400, 0],
            [1, 20_260_306, 0, 40_000, 32_400, 0],
            [1, 20_260_307, 0, 40_000, 32_400, 0],
            [1, 20_260_308, 0, 40_000, 7_201, 0],
        ],
        &[[1, 62, 20_260_302, 20_260_308, 201_601]],
    ),
    // 90 hours in two weeks: ten duties of nine hours, and a second more.
    (
        &[
            [1, 20_260_302, 0, 40_000, 32_400, 0],
            [1, 20_260_303, 0, 40_000, 32_400, 0],
            [1, 20_260_304, 0, 40_000, 32_400, 0],
            [1, 20_260_305, 0, 40_000, 32_400, 0],
            [1, 20_260_306, 0, 40_000, 32_400, 0],
            [1, 20_260_309, 0, 40_000, 32_400, 0],
            [1, 20_260_310, 0, 40_000, 32_400, 0],
            [1, 20_260_311, 0, 40_000, 32_400, 0],
            [1, 20_260_312, 0, 40_000, 32_400, 0],
            [1, 20_260_313, 0, 40_000, 32_400, 0],
        ],
        &[],
    ),
    (
        &[
            [1, 20_260_302, 0, 40_000, 32_400, 0],
            [1, 20_260_303, 0, 40_000, 32_400, 0],
            [1, 20_260_304, 0, 40_000, 32_400, 0],
            [1, 20_260_305, 0, 40_000, 32_400, 0],
            [1, 20_260_306, 0, 40_000, 32_400, 0],
            [1, 20_260_309, 0, 40_000, 32_400, 0],
            [1, 20_260_310, 0, 40_000, 32_400, 0],
            [1, 20_260_311, 0, 40_000, 32_400, 0],
            [1, 20_260_312, 0, 40_000, 32_400, 0],
            [1, 20_260_313, 0, 40_000, 32_401, 0],
        ],
        &[[1, 63, 20_260_302, 20_260_315, 324_001]],
    ),
];

#[test]
fn denies_long_driving_in_a_week_or_two(rt: HostRuntime) -> Result<(), Memory> {
    for (rows, wanted) in LONG_WEEKS {
        assert!(rt; is_denied(rt.alloc(), rows, wanted)?);
    }
    Ok(())
}

const SHORT_RESTS: [Case; 3] = [
    // A rest of nine hours within the 24 hours, and a second less.
    (&[[1, 20_260_302, 0, 54_000, 100, 0]], &[]),
    (
        &[[1, 20_260_302, 0, 54_001, 100, 0]],
        &[[1, 82, 20_260_302, 20_260_302, 32_399]],
    ),
    // The next duty begins before the first one ends.
    (
        &[
            [1, 20_260_302, 0, 90_000, 100, 0],
            [1, 20_260_303, 0, 40_000, 100, 0],
        ],
        &[[1, 82, 20_260_302, 20_260_303, -3_600]],
    ),
];

#[test]
fn denies_short_rests(rt: HostRuntime) -> Result<(), Memory> {
    for (rows, wanted) in SHORT_RESTS {
        assert!(rt; is_denied(rt.alloc(), rows, wanted)?);
    }
    Ok(())
}

const REDUCED_RESTS: [Case; 6] = [
    // The fourth rest of fewer than eleven hours.
    (
        &[
            [1, 20_260_302, 20_000, 70_000, 20_000, 0],
            [1, 20_260_303, 20_000, 70_000, 20_000, 0],
            [1, 20_260_304, 20_000, 70_000, 20_000, 0],
            [1, 20_260_305, 20_000, 70_000, 20_000, 0],
            [1, 20_260_306, 20_000, 70_000, 20_000, 0],
        ],
        &[[1, 84, 20_260_305, 20_260_306, 4]],
    ),
    // The rests are split.
    (
        &[
            [1, 20_260_302, 20_000, 70_000, 20_000, 1],
            [1, 20_260_303, 20_000, 70_000, 20_000, 1],
            [1, 20_260_304, 20_000, 70_000, 20_000, 1],
            [1, 20_260_305, 20_000, 70_000, 20_000, 1],
            [1, 20_260_306, 20_000, 70_000, 20_000, 1],
        ],
        &[],
    ),
    // Rests of eleven hours, and of a second less.
    (
        &[
            [1, 20_260_302, 0, 46_800, 20_000, 0],
            [1, 20_260_303, 0, 46_800, 20_000, 0],
            [1, 20_260_304, 0, 46_800, 20_000, 0],
            [1, 20_260_305, 0, 46_800, 20_000, 0],
            [1, 20_260_306, 0, 46_800, 20_000, 0],
        ],
        &[],
    ),
    (
        &[
            [1, 20_260_302, 0, 46_801, 20_000, 0],
            [1, 20_260_303, 0, 46_801, 20_000, 0],
            [1, 20_260_304, 0, 46_801, 20_000, 0],
            [1, 20_260_305, 0, 46_801, 20_000, 0],
            [1, 20_260_306, 0, 46_801, 20_000, 0],
        ],
        &[[1, 84, 20_260_305, 20_260_306, 4]],
    ),
    // A weekly rest of 24 hours begins the count anew, one of a second less does not.
    (
        &[
            [1, 20_260_302, 0, 50_000, 100, 0],
            [1, 20_260_303, 0, 50_000, 100, 0],
            [1, 20_260_304, 0, 50_000, 100, 0],
            [1, 20_260_305, 0, 50_000, 100, 0],
            [1, 20_260_306, 50_000, 90_000, 100, 0],
            [1, 20_260_307, 40_000, 90_000, 100, 0],
        ],
        &[],
    ),
    (
        &[
            [1, 20_260_302, 0, 50_000, 100, 0],
            [1, 20_260_303, 0, 50_000, 100, 0],
            [1, 20_260_304, 0, 50_000, 100, 0],
            [1, 20_260_305, 0, 50_000, 100, 0],
            [1, 20_260_306, 49_999, 90_000, 100, 0],
            [1, 20_260_307, 40_000, 90_000, 100, 0],
        ],
        &[
            [1, 84, 20_260_305, 20_260_306, 4],
            [1, 84, 20_260_306, 20_260_307, 5],
        ],
    ),
];

#[test]
fn denies_the_fourth_reduced_rest(rt: HostRuntime) -> Result<(), Memory> {
    for (rows, wanted) in REDUCED_RESTS {
        assert!(rt; is_denied(rt.alloc(), rows, wanted)?);
    }
    Ok(())
}

const SEVERAL_DRIVERS: [Case; 1] = [
    // Drivers in the order of their numbers, whatever the order of the rows; a duty that begins on the day before.
    (
        &[
            [2, 20_260_303, 0, 54_001, 100, 0],
            [1, 20_260_303, 0, 54_001, 36_001, 0],
            [1, 20_260_304, -30_000, 10, 100, 0],
        ],
        &[
            [1, 61, 20_260_303, 20_260_303, 36_001],
            [1, 82, 20_260_303, 20_260_304, 2_399],
            [2, 82, 20_260_303, 20_260_303, 32_399],
        ],
    ),
];

#[test]
fn denies_driver_by_driver(rt: HostRuntime) -> Result<(), Memory> {
    for (rows, wanted) in SEVERAL_DRIVERS {
        assert!(rt; is_denied(rt.alloc(), rows, wanted)?);
    }
    Ok(())
}

/// A fault by its kind, column and row; None where there is none.
type Wanted = Option<(TableKind, &'static str, u32)>;

/// Whether the roster of these tables has the fault.
fn has_fault(alloc: Global, tables: &[Table], wanted: Wanted) -> bool {
    if !have_few_rows(tables) {
        return false;
    }
    match (read_roster(alloc, tables), wanted) {
        (Ok(_), None) => true,
        (Err(RosterFault::Table(fault)), Some((kind, column, row))) => {
            fault.kind == kind
                && fault.table.as_slice() == "X_EINSATZ".as_bytes()
                && fault.column.as_slice() == column.as_bytes()
                && fault.row == row
        }
        _ => false,
    }
}

/// A duty without a fault.
const GOOD: [i64; 6] = [1, 20_260_302, 0, 10, 10, 0];

/// Second rows behind the good one, and their faults.
const SECOND_ROWS: [([i64; 6], Wanted); 26] = [
    ([1, 20_260_303, 0, 10, 10, 0], None),
    ([2, 20_260_302, 0, 10, 10, 0], None),
    (GOOD, Some((TableKind::KeyTwice, "", 2))),
    ([0, 20_260_303, 0, 10, 10, 0], None),
    (
        [-1, 20_260_303, 0, 10, 10, 0],
        Some((TableKind::Range, "FAHRER_NR", 2)),
    ),
    ([4_294_967_295, 20_260_303, 0, 10, 10, 0], None),
    (
        [4_294_967_296, 20_260_303, 0, 10, 10, 0],
        Some((TableKind::Range, "FAHRER_NR", 2)),
    ),
    (
        [1, 20_260_230, 0, 10, 10, 0],
        Some((TableKind::Range, "BETRIEBSTAG", 2)),
    ),
    ([1, 20_260_228, 0, 10, 10, 0], None),
    (
        [1, 20_260_229, 0, 10, 10, 0],
        Some((TableKind::Range, "BETRIEBSTAG", 2)),
    ),
    (
        [1, 99_990_101, 0, 10, 10, 0],
        Some((TableKind::Range, "BETRIEBSTAG", 2)),
    ),
    (
        [1, 1_231, 0, 10, 10, 0],
        Some((TableKind::Range, "BETRIEBSTAG", 2)),
    ),
    (
        [1, 4_294_967_296, 0, 10, 10, 0],
        Some((TableKind::Range, "BETRIEBSTAG", 2)),
    ),
    ([1, 20_260_303, -172_800, 10, 10, 0], None),
    (
        [1, 20_260_303, -172_801, 10, 10, 0],
        Some((TableKind::Range, "BEGINN", 2)),
    ),
    ([1, 20_260_303, 345_600, 345_600, 10, 0], None),
    (
        [1, 20_260_303, 345_601, 345_601, 10, 0],
        Some((TableKind::Range, "BEGINN", 2)),
    ),
    (
        [1, 20_260_303, 10, 9, 10, 0],
        Some((TableKind::Range, "ENDE", 2)),
    ),
    (
        [1, 20_260_303, 10, 345_601, 10, 0],
        Some((TableKind::Range, "ENDE", 2)),
    ),
    ([1, 20_260_303, 0, 10, 172_800, 0], None),
    (
        [1, 20_260_303, 0, 10, 172_801, 0],
        Some((TableKind::Range, "LENKZEIT", 2)),
    ),
    (
        [1, 20_260_303, 0, 10, -1, 0],
        Some((TableKind::Range, "LENKZEIT", 2)),
    ),
    ([1, 20_260_303, 0, 10, 10, 1], None),
    (
        [1, 20_260_303, 0, 10, 10, 2],
        Some((TableKind::Range, "DREI", 2)),
    ),
    (
        [1, 20_260_303, 0, 10, 10, -1],
        Some((TableKind::Range, "DREI", 2)),
    ),
    (
        [-1, 20_260_230, 1, 0, -1, 2],
        Some((TableKind::Range, "FAHRER_NR", 2)),
    ),
];

/// Whether a roster with this second row has the fault.
fn second_has_fault(alloc: Global, row: [i64; 6], wanted: Wanted) -> Result<bool, Memory> {
    let rows = [duty(GOOD), duty(row)];
    let tables = [table(alloc, "X_EINSATZ", &COLUMNS, &rows)?];
    Ok(has_fault(alloc, &tables, wanted))
}

#[test]
fn refuses_wrong_values(rt: HostRuntime) -> Result<(), Memory> {
    for (row, wanted) in SECOND_ROWS {
        assert!(rt; second_has_fault(rt.alloc(), row, wanted)?);
    }
    Ok(())
}

/// Whether a roster of one duty with another table of these rows behind it has the fault.
fn has_fault_behind(
    alloc: Global,
    name: &str,
    rows: &[[Option<i64>; 6]],
    wanted: Wanted,
) -> Result<bool, Memory> {
    let roster = table(alloc, "X_EINSATZ", &COLUMNS, &[duty(GOOD)])?;
    let other = table(alloc, name, &COLUMNS, rows)?;
    Ok(has_fault(alloc, &[roster, other], wanted))
}

#[test]
fn refuses_a_second_roster_and_none(rt: HostRuntime) -> Result<(), Memory> {
    let alloc = rt.alloc();
    let twice = Some((TableKind::TableTwice, "", 0));
    assert!(rt; has_fault_behind(alloc, "X_URTEIL", &[duty(GOOD)], None)?);
    assert!(rt; has_fault_behind(alloc, "X_EINSATZ", &[], twice)?);
    assert!(rt; has_fault(alloc, &[], Some((TableKind::NoTable, "", 0))));
    Ok(())
}

/// The columns, of which the one at a place has another name.
fn renamed_columns(place: usize) -> [&'static str; 6] {
    let mut columns = COLUMNS;
    if place < 6 {
        columns[place] = "X";
    }
    columns
}

/// A duty that has no value at a place.
fn emptied_duty(place: usize) -> [Option<i64>; 6] {
    let mut fields = duty([1, 20_260_303, 0, 10, 10, 0]);
    if place < 6 {
        fields[place] = None;
    }
    fields
}

fn lacks_column(alloc: Global, place: usize, name: &'static str) -> Result<bool, Memory> {
    let tables = [table(alloc, "X_EINSATZ", &renamed_columns(place), &[duty(GOOD)])?];
    Ok(has_fault(alloc, &tables, Some((TableKind::NoColumn, name, 0))))
}

/// Whether the second of three rows has the fault, of which the third one is wrong in each column.
fn has_fault_before(alloc: Global, row: [Option<i64>; 6], wanted: Wanted) -> Result<bool, Memory> {
    let rows = [duty(GOOD), row, duty([-1, 0, 0, 0, 0, 0])];
    let tables = [table(alloc, "X_EINSATZ", &COLUMNS, &rows)?];
    Ok(has_fault(alloc, &tables, wanted))
}

#[test]
fn refuses_wrong_tables(rt: HostRuntime) -> Result<(), Memory> {
    let alloc = rt.alloc();
    for (place, name) in COLUMNS.into_iter().enumerate() {
        assert!(rt; lacks_column(alloc, place, name)?, "{name}");
        let wanted = Some((TableKind::NoValue, name, 2));
        assert!(rt;
            has_fault_before(alloc, emptied_duty(place), wanted)?,
            "{name}"
        );
    }
    let wanted = Some((TableKind::KeyTwice, "", 2));
    assert!(rt; has_fault_before(alloc, duty(GOOD), wanted)?);
    Ok(())
}

/// The first and the last day of a roster that has too many, else 0.
fn far_days(alloc: Global, days: [i64; 2]) -> Result<(u32, u32), Memory> {
    let rows = [
        duty([1, days[0], 0, 10, 10, 0]),
        duty([2, days[1], 0, 10, 10, 0]),
    ];
    let tables = [table(alloc, "X_EINSATZ", &COLUMNS, &rows)?];
    if !have_few_rows(&tables) {
        return Ok((0, 0));
    }
    match read_roster(alloc, &tables) {
        Err(RosterFault::Days { first, last }) => Ok((first, last)),
        _ => Ok((0, 0)),
    }
}

#[test]
fn refuses_more_than_two_weeks(rt: HostRuntime) -> Result<(), Memory> {
    let cases = [
        ([20_260_302, 20_260_315], (0, 0)),
        ([20_260_302, 20_260_316], (20_260_302, 20_260_316)),
        ([20_260_316, 20_260_302], (20_260_302, 20_260_316)),
        ([20_251_225, 20_260_107], (0, 0)),
        ([20_251_225, 20_260_108], (20_251_225, 20_260_108)),
        ([20_240_222, 20_240_306], (0, 0)),
        ([20_240_222, 20_240_307], (20_240_222, 20_240_307)),
    ];
    for (days, wanted) in cases {
        assert!(rt; far_days(rt.alloc(), days)? == wanted);
    }
    Ok(())
}

/// The text of what is denied of a roster of these rows.
fn text_of(alloc: Global, rows: &[[i64; 6]]) -> Result<Bytes, Fail> {
    match denials_of(alloc, rows)? {
        Some(found) => {
            let tables = [verdict_table(alloc, found.as_slice())?];
            Ok(write_tables(alloc, &tables)?)
        }
        None => Err(Fail::from("refused")),
    }
}

const DENIED_ROWS: [[i64; 6]; 2] = [
    [1, 20_260_302, 0, 90_000, 36_001, 0],
    [1, 20_260_303, 0, 40_000, 100, 0],
];

/// What follows the header lines.
const BODY: &[u8] = b"tbl; X_URTEIL\r
atr; FAHRER_NR; ARTIKEL; VON_TAG; BIS_TAG; WERT\r
frm; num[19.0]; num[19.0]; num[19.0]; num[19.0]; num[19.0]\r
rec; 1; 61; 20260302; 20260302; 36001\r
rec; 1; 82; 20260302; 20260303; -3600\r
end; 2\r
eof; 1\r
";

#[test]
fn writes_denials(rt: HostRuntime) -> Result<(), Fail> {
    let text = text_of(rt.alloc(), &DENIED_ROWS)?;
    assert!(rt; text.as_slice().ends_with(BODY));
    Ok(())
}
