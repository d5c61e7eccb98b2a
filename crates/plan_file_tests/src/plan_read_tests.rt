//! Plans that are read back, and plans that are wrong.

ghost use Rattle.std.specs.Prelude.{◌<◌, ◌^◌, ◌↔◌, All, IsTrue, length};

use crate::small_day::{day, table, tables_in};
use crate::written_plan::plan_of;
use day_model::Day;
use plan_core::{Bytes, Memory, Seq};
use plan_read::{plans_are_read_back, printed_once, read_plan};
use std::alloc::Global;
use std::test::Fail;
use umlauf_write::{PlanFault, PlanText};
use vdv451_text::{Table, is_plain, write_tables};

fn have_few_rows(tables: &[Table]) -> bool
    ensures { IsTrue result ↔ All (λ table. length table.rows < 2 ^ 32) tables.now }
{
    tables.iter().all(|table| table.rows.len() < 4_294_967_296)
}

/// The plan of tables that are one.
fn read(alloc: Global, day: &Day, tables: &[Table]) -> Result<PlanText, Fail> {
    if !have_few_rows(tables) {
        return Err(Fail::from("too many rows"));
    }
    match read_plan(alloc, day, tables) {
        Ok(text) => Ok(text),
        Err(_) => Err(Fail::from("no plan")),
    }
}

/// The text of tables that can be written.
fn text_of_tables(alloc: Global, tables: &[Table]) -> Result<Bytes, Fail> {
    if is_plain(tables) {
        Ok(write_tables(alloc, tables)?)
    } else {
        Err(Fail::from("no plain tables"))
    }
}

/// Whether a plan is that of the day: the block has the trips 0 and 1, and the duty both pieces.
fn is_plan(text: &PlanText) -> bool {
    let [block] = text.blocks.columns.as_slice() else {
        return false;
    };
    let [duty] = text.duties.as_slice() else {
        return false;
    };
    block.class == 0
        && block.worth == 0
        && block.items.as_slice() == [0, 1].as_slice()
        && duty.group == 5
        && duty.parts.as_slice() == [(1, 1), (1, 2)].as_slice()
        && text.bounds.as_slice() == [1, 2_200, 1, 9_223_372_036_854_775_807].as_slice()
}

/// Whether tables are read as the plan of the day.
fn is_plan_in(alloc: Global, day: &Day, tables: &[Table]) -> Result<bool, Fail> {
    let text = read(alloc, day, tables)?;
    Ok(is_plan(&text))
}

/// Whether the text of tables is read as the plan of the day.
fn is_plan_in_text(alloc: Global, day: &Day, tables: &[Table]) -> Result<bool, Fail> {
    let bytes = text_of_tables(alloc, tables)?;
    let again = tables_in(alloc, bytes.as_slice())?;
    is_plan_in(alloc, day, again.as_slice())
}

/// Whether tables are read as the plan of the day, also from their text.
fn is_plan_in_both(alloc: Global, day: &Day, tables: &[Table]) -> Result<bool, Fail> {
    Ok(is_plan_in(alloc, day, tables)? && is_plan_in_text(alloc, day, tables)?)
}

/// Whether what is written of a day is read back.
fn is_read_back_of(alloc: Global, day: &Day) -> Result<bool, Fail> {
    let tables = plan_of(alloc, day)?;
    is_plan_in_both(alloc, day, tables.as_slice())
}

/// Whether what is written is read back.
fn is_read_back(alloc: Global) -> Result<bool, Fail> {
    let day = day(alloc)?;
    is_read_back_of(alloc, &day)
}

#[test]
fn a_plan_is_read_back(rt: HostRuntime) -> Result<(), Fail> {
    plans_are_read_back();
    printed_once();
    assert!(rt; is_read_back(rt.alloc())?);
    Ok(())
}

/// The rows of the five tables, as they are read.
#[derive(Clone, Copy)]
struct Rows {
    trips: &'static [[i64; 2]],
    blocks: &'static [[i64; 2]],
    duties: &'static [[i64; 2]],
    parts: &'static [[i64; 3]],
    bounds: &'static [[i64; 2]],
}

/// The rows of the plan of the day.
fn rows_of_plan() -> Rows {
    Rows {
        trips: &[[1, 1], [2, 1]],
        blocks: &[[1, 7]],
        duties: &[[1, 5]],
        parts: &[[1, 1, 1], [1, 1, 2]],
        bounds: &[[1, 1], [2, 2_200], [3, 1], [4, 10_400]],
    }
}

/// The tables of blocks, duties, pieces and bounds, behind others.
fn push_others(alloc: Global, rows: &Rows, tables: &mut Seq<Table>) -> Result<(), Memory> {
    tables.push(table(alloc, "X_UMLAUF", &["UM_UID", "HOF_NR"], rows.blocks)?)?;
    tables.push(table(alloc, "X_DIENST", &["DIENST_NR", "GRUPPE_NR"], rows.duties)?)?;
    let columns = &["DIENST_NR", "UM_UID", "STUECK_NR"];
    tables.push(table(alloc, "X_DIENST_STUECK", columns, rows.parts)?)?;
    tables.push(table(alloc, "X_SCHRANKE", &["ART", "SCHRANKE"], rows.bounds)?)?;
    Ok(())
}

/// The five tables with such rows.
fn tables_of(alloc: Global, rows: &Rows) -> Result<Seq<Table>, Memory> {
    let mut tables = Seq::new(alloc);
    tables.push(table(alloc, "REC_FRT", &["FRT_FID", "UM_UID"], rows.trips)?)?;
    push_others(alloc, rows, &mut tables)?;
    Ok(tables)
}

/// Whether tables are a plan (no name), or are wrong first at this place.
fn is_first(alloc: Global, day: &Day, tables: &[Table], name: &[u8], at: u32) -> bool {
    if !have_few_rows(tables) {
        return false;
    }
    match read_plan(alloc, day, tables) {
        Ok(_) => name.is_empty(),
        Err(PlanFault::Form { table, row }) => table.as_slice() == name && row == at,
        Err(PlanFault::Memory) => false,
    }
}

/// Rows in the place of some of the plan's, and the table and the row that are wrong then.
#[derive(Clone, Copy)]
struct Case {
    rows: Rows,
    name: &'static [u8],
    at: u32,
}

/// Other rows of trips: one is not of the day, or of a block that is not there.
fn trip_case(place: usize) -> Case {
    let trips: &'static [[i64; 2]] = match place {
        0 => &[[1, 1], [3, 1]],
        1 => &[[1, 1], [-1, 1]],
        2 => &[[1, 1], [2, 0]],
        3 => &[[1, 1], [2, 2]],
        _ => &[[1, 1], [2, -1]],
    };
    let mut rows = rows_of_plan();
    rows.trips = trips;
    Case {
        rows,
        name: b"REC_FRT",
        at: 2,
    }
}

/// Other rows of blocks: a number is not that of its row, a pool is not there.
fn block_case(place: usize) -> Case {
    let blocks: &'static [[i64; 2]] = match place {
        0 => &[[1, 7], [1, 7]],
        1 => &[[1, 7], [3, 7]],
        2 => &[[1, 7], [2, 8]],
        _ => &[[1, 7], [2, -7]],
    };
    let mut rows = rows_of_plan();
    rows.blocks = blocks;
    Case {
        rows,
        name: b"X_UMLAUF",
        at: 2,
    }
}

/// Other rows of duties: a number is not that of its row, a group is not there.
fn duty_case(place: usize) -> Case {
    let duties: &'static [[i64; 2]] = match place {
        0 => &[[1, 5], [1, 5]],
        1 => &[[1, 5], [3, 5]],
        2 => &[[1, 5], [2, 7]],
        _ => &[[1, 5], [2, 4_294_967_301]],
    };
    let mut rows = rows_of_plan();
    rows.duties = duties;
    Case {
        rows,
        name: b"X_DIENST",
        at: 2,
    }
}

/// Other rows of pieces: a duty or a block is not there, an index has more than 32 bits.
fn part_case(place: usize) -> Case {
    let parts: &'static [[i64; 3]] = match place {
        0 => &[[1, 1, 1], [2, 1, 1]],
        1 => &[[1, 1, 1], [0, 1, 1]],
        2 => &[[1, 1, 1], [1, 2, 1]],
        3 => &[[1, 1, 1], [1, 1, 4_294_967_296]],
        _ => &[[1, 1, 1], [1, 1, -1]],
    };
    let mut rows = rows_of_plan();
    rows.parts = parts;
    Case {
        rows,
        name: b"X_DIENST_STUECK",
        at: 2,
    }
}

/// Other rows of bounds: a bound below 0, a pass that is not that of the row, a row too many, a row too few.
fn bound_case(place: usize) -> Case {
    let (bounds, at): (&'static [[i64; 2]], u32) = match place {
        0 => (&[[1, 1], [2, -1], [3, 1], [4, 10_400]], 2),
        1 => (&[[1, 1], [3, 0], [3, 1], [4, 10_400]], 2),
        2 => (&[[1, 1], [1, 0], [3, 1], [4, 10_400]], 2),
        3 => (&[[1, 1], [2, 2_200], [3, 1], [4, 10_400], [5, 0]], 5),
        _ => (&[[1, 1], [2, 2_200], [3, 1]], 0),
    };
    let mut rows = rows_of_plan();
    rows.bounds = bounds;
    Case {
        rows,
        name: b"X_SCHRANKE",
        at,
    }
}

/// The plan as it is, and two faults: a row of blocks comes before a row of bounds too few, and REC_FRT before X_UMLAUF.
fn order_case(place: usize) -> Case {
    let mut rows = rows_of_plan();
    if place == 0 {
        return Case {
            rows,
            name: b"",
            at: 0,
        };
    }
    rows.blocks = &[[2, 7]];
    rows.bounds = &[[1, 1], [2, 2_200], [3, 1]];
    if place == 1 {
        return Case {
            rows,
            name: b"X_UMLAUF",
            at: 1,
        };
    }
    rows.trips = &[[1, 1], [1, 2]];
    Case {
        rows,
        name: b"REC_FRT",
        at: 2,
    }
}

fn case_at(place: usize) -> Case {
    match place {
        0..5 => trip_case(place),
        5..9 => block_case(place - 5),
        9..13 => duty_case(place - 9),
        13..18 => part_case(place - 13),
        18..23 => bound_case(place - 18),
        _ => order_case(place.saturating_sub(23)),
    }
}

/// Whether a case is told as it should be.
fn is_told(alloc: Global, day: &Day, case: &Case) -> Result<bool, Fail> {
    let tables = tables_of(alloc, &case.rows)?;
    Ok(is_first(alloc, day, tables.as_slice(), case.name, case.at))
}

/// The first case that is told otherwise, where there is one.
fn first_other_of(alloc: Global, day: &Day) -> Result<Option<usize>, Fail> {
    for place in 0..26 {
        let case = case_at(place);
        if !is_told(alloc, day, &case)? {
            return Ok(Some(place));
        }
    }
    Ok(None)
}

fn first_other(alloc: Global) -> Result<Option<usize>, Fail> {
    let day = day(alloc)?;
    first_other_of(alloc, &day)
}

#[test]
fn the_first_wrong_row_is_named(rt: HostRuntime) -> Result<(), Fail> {
    assert_eq!(rt; first_other(rt.alloc())?, None);
    Ok(())
}

/// Whether rows are read as blocks with these trips.
fn have_trips(alloc: Global, day: &Day, rows: &Rows, blocks: &[&[u32]]) -> Result<bool, Fail> {
    let tables = tables_of(alloc, rows)?;
    let text = read(alloc, day, tables.as_slice())?;
    let columns = text.blocks.columns.as_slice();
    Ok(
        columns.len() == blocks.len()
            && columns
                .iter()
                .zip(blocks)
                .all(|(column, trips)| column.items.as_slice() == *trips),
    )
}

/// Whether a trip may be missing, a trip and a piece may stand twice, and an index may be the greatest.
fn are_read_as_they_are(alloc: Global, day: &Day) -> Result<bool, Fail> {
    let mut rows = rows_of_plan();
    rows.trips = &[[2, 1], [2, 1]];
    rows.parts = &[[1, 1, 4_294_967_295], [1, 1, 4_294_967_295]];
    have_trips(alloc, day, &rows, &[&[1, 1]])
}

/// Whether blocks keep the order of their rows.
fn are_in_the_order_of_rows(alloc: Global, day: &Day) -> Result<bool, Fail> {
    let mut rows = rows_of_plan();
    rows.trips = &[[2, 1], [1, 2]];
    rows.blocks = &[[1, 7], [2, 7]];
    have_trips(alloc, day, &rows, &[&[1], &[0]])
}

fn are_right_of(alloc: Global, day: &Day) -> Result<bool, Fail> {
    Ok(are_read_as_they_are(alloc, day)? && are_in_the_order_of_rows(alloc, day)?)
}

fn are_right(alloc: Global) -> Result<bool, Fail> {
    let day = day(alloc)?;
    are_right_of(alloc, &day)
}

#[test]
fn rows_that_are_right(rt: HostRuntime) -> Result<(), Fail> {
    assert!(rt; are_right(rt.alloc())?);
    Ok(())
}

/// Whether the first of some tables lack this one first.
fn is_lacking_in(alloc: Global, day: &Day, tables: &[Table], first: usize, name: &[u8]) -> bool {
    first <= tables.len() && is_first(alloc, day, &tables[..first], name, 0)
}

/// Whether tables without the first one lack this one first.
fn is_lacking_behind(alloc: Global, day: &Day, tables: &[Table], name: &[u8]) -> bool {
    match tables {
        [_, others @ ..] => is_first(alloc, day, others, name, 0),
        [] => false,
    }
}

/// The tables of the plan of the day but for a trip that is not of the day: a row that is wrong comes after the tables as wholes.
fn tables_of_another_trip(alloc: Global) -> Result<Seq<Table>, Memory> {
    let mut rows = rows_of_plan();
    rows.trips = &[[3, 1]];
    tables_of(alloc, &rows)
}

/// Whether tables that are lacking are told before a row that is wrong.
fn are_lacking(alloc: Global, day: &Day) -> Result<bool, Fail> {
    let tables = tables_of_another_trip(alloc)?;
    let tables = tables.as_slice();
    Ok(
        is_lacking_behind(alloc, day, tables, b"REC_FRT")
            && is_lacking_in(alloc, day, tables, 4, b"X_SCHRANKE")
            && is_lacking_in(alloc, day, tables, 2, b"X_DIENST")
            && is_lacking_in(alloc, day, tables, 3, b"X_DIENST_STUECK")
            && is_first(alloc, day, tables, b"REC_FRT", 1),
    )
}

/// Whether the table of blocks, which stands twice, is told before a row that is wrong.
fn is_told_twice(alloc: Global, day: &Day) -> Result<bool, Fail> {
    let mut tables = tables_of_another_trip(alloc)?;
    tables.push(table(alloc, "X_UMLAUF", &["UM_UID", "HOF_NR"], &[[1, 7]])?)?;
    Ok(is_first(alloc, day, tables.as_slice(), b"X_UMLAUF", 0))
}

/// Whether one table, of trips with no column UM_UID, is told as a whole.
fn is_told_without_a_column(alloc: Global, day: &Day) -> Result<bool, Fail> {
    let mut tables = Seq::new(alloc);
    tables.push(table(alloc, "REC_FRT", &["FRT_FID", "UM_UIDS"], &[[1, 1], [2, 1]])?)?;
    Ok(is_first(alloc, day, tables.as_slice(), b"REC_FRT", 0))
}

fn are_told_as_wholes_of(alloc: Global, day: &Day) -> Result<bool, Fail> {
    Ok(
        are_lacking(alloc, day)?
            && is_told_twice(alloc, day)?
            && is_told_without_a_column(alloc, day)?,
    )
}

fn are_told_as_wholes(alloc: Global) -> Result<bool, Fail> {
    let day = day(alloc)?;
    are_told_as_wholes_of(alloc, &day)
}

#[test]
fn tables_as_wholes(rt: HostRuntime) -> Result<(), Fail> {
    assert!(rt; are_told_as_wholes(rt.alloc())?);
    Ok(())
}

/// Trips, one of which is in a block that is no number.
const NO_NUMBER: &[u8] =
    b"tbl; REC_FRT\r\natr; FRT_FID; UM_UID\r\nfrm; num[10.0]; char[9]\r\nrec; 1; X\r\nend; 1\r\neof; 1\r\n";

/// Trips, one of which has no number.
const NO_VALUE: &[u8] =
    b"tbl; REC_FRT\r\natr; FRT_FID; UM_UID\r\nfrm; num[10.0]; char[9]\r\nrec; NULL; 1\r\nend; 1\r\neof; 1\r\n";

/// Whether the first row of a table of trips is wrong in it, before the other tables of the plan.
fn is_wrong_trip(alloc: Global, day: &Day, text: &[u8]) -> Result<bool, Fail> {
    let mut tables = tables_in(alloc, text)?;
    push_others(alloc, &rows_of_plan(), &mut tables)?;
    Ok(is_first(alloc, day, tables.as_slice(), b"REC_FRT", 1))
}

fn are_wrong_trips_of(alloc: Global, day: &Day) -> Result<bool, Fail> {
    Ok(is_wrong_trip(alloc, day, NO_NUMBER)? && is_wrong_trip(alloc, day, NO_VALUE)?)
}

fn are_wrong_trips(alloc: Global) -> Result<bool, Fail> {
    let day = day(alloc)?;
    are_wrong_trips_of(alloc, &day)
}

/// A text that spells no number, and an empty field.
#[test]
fn fields_that_are_no_numbers(rt: HostRuntime) -> Result<(), Fail> {
    assert!(rt; are_wrong_trips(rt.alloc())?);
    Ok(())
}
