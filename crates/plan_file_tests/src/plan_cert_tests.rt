//! Certificates of the small day: one that is read and written again, and some that are wrong.

use crate::small_day::{day, table, tables_in};
use day_model::Day;
use plan_cert::{CertFault, CertTable, Place, certificates_are_read_back, read_cert, write_cert};
use plan_core::{Bytes, Memory, Seq};
use std::alloc::Global;
use std::test::Fail;
use vdv451_text::{Table, write_tables};

/// The text of the certificate behind its header lines.
const CERT: &[u8] = b"tbl; X_PREIS\r
atr; ART; LFD_NR; PREIS\r
frm; num[19.0]; num[19.0]; num[19.0]\r
rec; 1; 1; 500\r
rec; 1; 2; 500\r
rec; 2; 1; 1100000\r
rec; 2; 2; 1100000\r
rec; 3; 1; 500\r
rec; 3; 2; 500\r
rec; 4; 1; 5200000\r
rec; 4; 2; 5200000\r
end; 8\r
tbl; X_KLASSENPREIS\r
atr; ART; KLASSE; PREIS\r
frm; num[19.0]; num[19.0]; num[19.0]\r
rec; 1; 7; 0\r
rec; 2; 7; 0\r
rec; 3; 5; 0\r
rec; 4; 5; 0\r
end; 4\r
tbl; X_MARKE\r
atr; ART; GRUPPE_NR; STUECK; BEGINN; LENK; VIERTEL; GESAMT; DREI; WERT\r
frm; num[19.0]; num[19.0]; num[19.0]; num[19.0]; num[19.0]; num[19.0]; num[19.0]; num[19.0]; num[19.0]\r
rec; 3; 5; 1; 27600; 4200; 0; 4200; 0; 500\r
rec; 3; 5; 2; 27600; 8400; 0; 8400; 0; 0\r
rec; 4; 5; 1; -27600; 4200; 1; 4200; 0; -32300000\r
rec; 4; 5; 2; 27600; 8400; 0; 8400; 1; -37500000\r
end; 4\r
tbl; X_UMARKE\r
atr; ART; HOF_NR; LFD_NR; LENK; WERT\r
frm; num[19.0]; num[19.0]; num[19.0]; num[19.0]; num[19.0]\r
rec; 1; 7; 1; 4200; 500\r
rec; 1; 7; 2; 3600; 0\r
rec; 2; 7; 1; 4200; 500000\r
rec; 2; 7; 2; 3600; -600000\r
end; 4\r
eof; 4\r
";

/// The text that tables have, which are read and written again.
fn written_again(alloc: Global, day: &Day, tables: &[Table]) -> Result<Bytes, Fail> {
    match read_cert(alloc, tables, day, 2) {
        Ok(cert) => {
            let tables = write_cert(alloc, &cert, day)?;
            Ok(write_tables(alloc, tables.as_slice())?)
        }
        Err(_) => Err(Fail::from("no certificate")),
    }
}

/// The same of the tables of a text.
fn text_again(alloc: Global, day: &Day, text: &[u8]) -> Result<Bytes, Fail> {
    let tables = tables_in(alloc, text)?;
    written_again(alloc, day, tables.as_slice())
}

/// Whether a text of a certificate is written again, behind its header lines.
fn is_text_again(alloc: Global, text: &[u8]) -> Result<bool, Fail> {
    let day = day(alloc)?;
    let again = text_again(alloc, &day, text)?;
    Ok(again.as_slice().ends_with(text))
}

fn is_written_again(alloc: Global) -> Result<bool, Fail> {
    is_text_again(alloc, CERT)
}

#[test]
fn certificates_are_read_and_written(rt: HostRuntime) -> Result<(), Fail> {
    certificates_are_read_back();
    assert!(rt; is_written_again(rt.alloc())?);
    Ok(())
}

/// Rows of the four tables.
#[derive(Clone, Copy)]
struct Rows {
    prices: &'static [[i64; 3]],
    classes: &'static [[i64; 3]],
    duties: &'static [[i64; 9]],
    blocks: &'static [[i64; 5]],
}

/// Prices and class prices that are all there, in another order, with numbers at the ends of their ranges; and no marks.
fn all_rows() -> Rows {
    Rows {
        prices: &[
            [4, 2, -3_000_000_000_000_000],
            [1, 1, 500],
            [1, 2, 500],
            [2, 1, 3_000_000_000_000_000],
            [2, 2, 0],
            [3, 1, 500],
            [3, 2, 500],
            [4, 1, 1],
        ],
        classes: &[
            [1, 7, 0],
            [2, 7, -9_000_000_000_000_000_000],
            [3, 5, 0],
            [4, 5, 0],
        ],
        duties: &[],
        blocks: &[],
    }
}

/// The table of marks of duties.
fn duty_table(alloc: Global, rows: &Rows) -> Result<Table, Memory> {
    let columns = &[
        "ART",
        "GRUPPE_NR",
        "STUECK",
        "BEGINN",
        "LENK",
        "VIERTEL",
        "GESAMT",
        "DREI",
        "WERT",
    ];
    table(alloc, "X_MARKE", columns, rows.duties)
}

/// The tables of rows.
fn tables_of(alloc: Global, rows: &Rows) -> Result<Seq<Table>, Memory> {
    let mut tables = Seq::new(alloc);
    tables.push(table(alloc, "X_PREIS", &["ART", "LFD_NR", "PREIS"], rows.prices)?)?;
    tables.push(table(
        alloc,
        "X_KLASSENPREIS",
        &["ART", "KLASSE", "PREIS"],
        rows.classes,
    )?)?;
    tables.push(duty_table(alloc, rows)?)?;
    let columns = &["ART", "HOF_NR", "LFD_NR", "LENK", "WERT"];
    tables.push(table(alloc, "X_UMARKE", columns, rows.blocks)?)?;
    Ok(tables)
}

/// The first place that is wrong in tables, where there is one.
fn place_in(alloc: Global, day: &Day, tables: &[Table]) -> Result<Option<Place>, Memory> {
    match read_cert(alloc, tables, day, 2) {
        Ok(_) => Ok(None),
        Err(CertFault::Form(place)) => Ok(Some(place)),
        Err(CertFault::Memory) => Err(Memory),
    }
}

fn at(table: CertTable, row: usize) -> Option<Place> {
    Some(Place { table, row })
}

/// Rows, and the first place that is wrong in them, where there is one.
#[derive(Clone, Copy)]
struct Case {
    rows: Rows,
    place: Option<Place>,
}

/// Prices: behind the first one a price too great, a price twice, a pass or an item that is not there; and one that is missing.
fn price_case(place: usize) -> Case {
    let (prices, row): (&'static [[i64; 3]], usize) = match place {
        0 => (&[[4, 2, 7], [1, 1, 3_000_000_000_000_001]], 2),
        1 => (&[[4, 2, 7], [4, 2, 0]], 2),
        2 => (&[[4, 2, 7], [5, 1, 0]], 2),
        3 => (&[[4, 2, 7], [0, 1, 0]], 2),
        4 => (&[[4, 2, 7], [1, 0, 0]], 2),
        5 => (&[[4, 2, 7], [1, 3, 0]], 2),
        _ => (
            &[
                [1, 1, 500],
                [1, 2, 500],
                [2, 1, 7],
                [2, 2, 0],
                [3, 1, 500],
                [3, 2, 500],
                [4, 1, 1],
            ],
            0,
        ),
    };
    let mut rows = all_rows();
    rows.prices = prices;
    Case {
        rows,
        place: at(CertTable::Prices, row),
    }
}

/// Class prices: behind the first one a price twice, and classes that are not there; and one that is missing.
fn class_case(place: usize) -> Case {
    let (classes, row): (&'static [[i64; 3]], usize) = match place {
        0 => (&[[2, 7, -1], [2, 7, 1]], 2),
        1 => (&[[2, 7, -1], [2, 5, 1]], 2),
        2 => (&[[2, 7, -1], [3, 7, 1]], 2),
        3 => (&[[2, 7, -1], [3, -5, 1]], 2),
        _ => (&[[1, 7, 0], [2, 7, -1], [3, 5, 0]], 0),
    };
    let mut rows = all_rows();
    rows.classes = classes;
    Case {
        rows,
        place: at(CertTable::ClassPrices, row),
    }
}

/// Marks of duties behind another: a pass, a group or a piece that is not there, and numbers out of their ranges.
fn mark_case(place: usize) -> Case {
    let duties: &'static [[i64; 9]] = match place {
        0 => &[[3, 5, 1, 0, 0, 0, 0, 0, 0], [2, 5, 1, 0, 0, 0, 0, 0, 0]],
        1 => &[[3, 5, 1, 0, 0, 0, 0, 0, 0], [3, 7, 1, 0, 0, 0, 0, 0, 0]],
        2 => &[[3, 5, 1, 0, 0, 0, 0, 0, 0], [3, 5, 3, 0, 0, 0, 0, 0, 0]],
        3 => &[
            [3, 5, 1, 0, 0, 0, 0, 0, 0],
            [3, 5, 1, 0, 4_294_967_296, 0, 0, 0, 0],
        ],
        4 => &[[3, 5, 1, 0, 0, 0, 0, 0, 0], [3, 5, 1, 0, 0, 2, 0, 0, 0]],
        5 => &[[3, 5, 1, 0, 0, 0, 0, 0, 0], [3, 5, 1, 0, 0, 0, -1, 0, 0]],
        _ => &[[3, 5, 1, 0, 0, 0, 0, 0, 0], [3, 5, 1, 0, 0, 0, 0, -1, 0]],
    };
    let mut rows = all_rows();
    rows.duties = duties;
    Case {
        rows,
        place: at(CertTable::DutyMarks, 2),
    }
}

/// Marks of blocks: a pass, a pool or a trip that is not there, and a number out of its range.
fn block_mark_case(place: usize) -> Case {
    let blocks: &'static [[i64; 5]] = match place {
        0 => &[[3, 7, 1, 0, 0]],
        1 => &[[1, 5, 1, 0, 0]],
        2 => &[[1, 7, 0, 0, 0]],
        _ => &[[1, 7, 1, -1, 0]],
    };
    let mut rows = all_rows();
    rows.blocks = blocks;
    Case {
        rows,
        place: at(CertTable::BlockMarks, 1),
    }
}

/// All is there: without marks; with a mark of duties that stands twice, and one with numbers at the ends of their ranges; and with such
/// a mark of blocks.
fn right_case(place: usize) -> Case {
    let mut rows = all_rows();
    match place {
        0 => {}
        1 => rows.duties = &[[3, 5, 1, 0, 0, 0, 0, 0, 0], [3, 5, 1, 0, 0, 0, 0, 0, 0]],
        2 => {
            rows.duties = &[
                [3, 5, 1, 0, 0, 0, 0, 0, 0],
                [
                    4,
                    5,
                    2,
                    -9_000_000_000_000_000_000,
                    4_294_967_295,
                    1,
                    4_294_967_295,
                    1,
                    -9_000_000_000_000_000_000,
                ],
            ];
        }
        _ => rows.blocks = &[[2, 7, 2, 4_294_967_295, -1]],
    }
    Case { rows, place: None }
}

fn case_at(place: usize) -> Case {
    match place {
        0..7 => price_case(place),
        7..12 => class_case(place - 7),
        12..19 => mark_case(place - 12),
        19..23 => block_mark_case(place - 19),
        _ => right_case(place.saturating_sub(23)),
    }
}

/// Whether the first wrong place of a case is the one that it should be.
fn is_told(alloc: Global, day: &Day, case: &Case) -> Result<bool, Fail> {
    let tables = tables_of(alloc, &case.rows)?;
    Ok(place_in(alloc, day, tables.as_slice())? == case.place)
}

/// The first case with another first wrong place, where there is one.
fn first_other_of(alloc: Global, day: &Day) -> Result<Option<usize>, Fail> {
    for place in 0..27 {
        let case = case_at(place);
        if !is_told(alloc, day, &case)? {
            return Ok(Some(place));
        }
    }
    Ok(None)
}

fn first_other(alloc: Global) -> Result<Option<usize>, Fail> {
    let day = day(alloc)?;
    first_other_of(alloc, &day)
}

#[test]
fn the_first_wrong_row_is_named(rt: HostRuntime) -> Result<(), Fail> {
    assert_eq!(rt; first_other(rt.alloc())?, None);
    Ok(())
}

/// The first place that is wrong in the first of some tables.
fn place_before(
    alloc: Global,
    day: &Day,
    tables: &[Table],
    first: usize,
) -> Result<Option<Place>, Memory> {
    place_in(alloc, day, tables.get(..first).unwrap_or(&[]))
}

/// The first place that is wrong in tables without the first ones.
fn place_behind(
    alloc: Global,
    day: &Day,
    tables: &[Table],
    first: usize,
) -> Result<Option<Place>, Memory> {
    place_in(alloc, day, tables.get(first..).unwrap_or(&[]))
}

/// Whether the last and the first table are told where they are missing.
fn are_missed(alloc: Global, day: &Day) -> Result<bool, Fail> {
    let tables = tables_of(alloc, &all_rows())?;
    let before = place_before(alloc, day, tables.as_slice(), 3)?;
    let behind = place_behind(alloc, day, tables.as_slice(), 1)?;
    Ok(before == at(CertTable::BlockMarks, 0) && behind == at(CertTable::Prices, 0))
}

/// The tables of all rows, and that of class prices a second time.
fn tables_with_two_of_classes(alloc: Global) -> Result<Seq<Table>, Memory> {
    let mut tables = tables_of(alloc, &all_rows())?;
    let rows: [[i64; 2]; 0] = [];
    tables.push(table(alloc, "X_KLASSENPREIS", &["ART", "KLASSE"], rows.as_slice())?)?;
    Ok(tables)
}

/// Whether a table that stands twice is told, behind one that is missing.
fn is_told_twice(alloc: Global, day: &Day) -> Result<bool, Fail> {
    let tables = tables_with_two_of_classes(alloc)?;
    let twice = place_in(alloc, day, tables.as_slice())?;
    let behind = place_behind(alloc, day, tables.as_slice(), 2)?;
    Ok(twice == at(CertTable::ClassPrices, 0) && behind == at(CertTable::Prices, 0))
}

fn stand_once_of(alloc: Global, day: &Day) -> Result<bool, Fail> {
    Ok(are_missed(alloc, day)? && is_told_twice(alloc, day)?)
}

fn stand_once(alloc: Global) -> Result<bool, Fail> {
    let day = day(alloc)?;
    stand_once_of(alloc, &day)
}

#[test]
fn tables_stand_once(rt: HostRuntime) -> Result<(), Fail> {
    assert!(rt; stand_once(rt.alloc())?);
    Ok(())
}
