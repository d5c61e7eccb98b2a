//! Tables that were compared by hand.

use plan_core::Seq;
use std::alloc::Global;
use std::test::Fail;
use table_differences::{Aside, Difference, first_difference};
use vdv451_text::{Table, read_file};

/// Two tables: one of bounds, and one of other numbers.
const MADE: &str =
    "tbl; X_A\natr; NR; NAME\nfrm; num[9.0]; char[9]\nrec; 1; \"x\"\nrec; 2; \"y\"\nend; 2\ntbl; X_B\natr; ART; SCHRANKE\nfrm; num[9.0]; num[9.0]\nrec; 1; 7\nend; 1\neof; 2\n";

/// The tables of a text.
fn tables_of(alloc: Global, text: &str) -> Result<Seq<Table>, Fail> {
    match read_file(alloc, text.as_bytes(), 4000) {
        Ok(tables) => Ok(tables),
        Err(_fault) => Ok(Seq::new(alloc)),
    }
}

/// The two tables. Their text stands here alone, so that no other proof carries it along.
fn made_tables(alloc: Global) -> Result<Seq<Table>, Fail> {
    tables_of(alloc, MADE)
}

/// The first difference of a text from the two tables.
fn difference_of(alloc: Global, given: &str) -> Result<Option<Difference>, Fail> {
    let made = made_tables(alloc)?;
    let given = tables_of(alloc, given)?;
    let aside = Aside {
        table: b"X_B",
        column: b"SCHRANKE",
    };
    Ok(first_difference(&aside, given.as_slice(), made.as_slice()))
}

/// A text of tables, and the table and row of the first difference, where there is one.
const CASES: [(&str, Option<(usize, usize)>); 13] = [
    (MADE, None),
    // Another table, and the tables in another order, with another bound.
    (
        "tbl; X_B\natr; ART; SCHRANKE\nfrm; num[9.0]; num[9.0]\nrec; 1; 9\nend; 1\ntbl; X_C\natr; NR\nfrm; num[9.0]\nend; 0\ntbl; X_A\natr; NR; NAME\nfrm; num[9.0]; char[9]\nrec; 1; \"x\"\nrec; 2; \"y\"\nend; 2\neof; 3\n",
        None,
    ),
    // A table is missing, or stands twice.
    (
        "tbl; X_B\natr; ART; SCHRANKE\nfrm; num[9.0]; num[9.0]\nrec; 1; 7\nend; 1\neof; 1\n",
        Some((0, 0)),
    ),
    (
        "tbl; X_A\natr; NR; NAME\nfrm; num[9.0]; char[9]\nrec; 1; \"x\"\nrec; 2; \"y\"\nend; 2\ntbl; X_B\natr; ART; SCHRANKE\nfrm; num[9.0]; num[9.0]\nrec; 1; 7\nend; 1\ntbl; X_B\natr; ART; SCHRANKE\nfrm; num[9.0]; num[9.0]\nrec; 1; 7\nend; 1\neof; 3\n",
        Some((1, 0)),
    ),
    // A column has another name, or another format, or there is one more.
    (
        "tbl; X_A\natr; NR; WORT\nfrm; num[9.0]; char[9]\nrec; 1; \"x\"\nrec; 2; \"y\"\nend; 2\neof; 1\n",
        Some((0, 0)),
    ),
    (
        "tbl; X_A\natr; NR; NAME\nfrm; num[8.0]; char[9]\nrec; 1; \"x\"\nrec; 2; \"y\"\nend; 2\neof; 1\n",
        Some((0, 0)),
    ),
    (
        "tbl; X_A\natr; NR; NAME; X\nfrm; num[9.0]; char[9]; num[9.0]\nrec; 1; \"x\"; 1\nrec; 2; \"y\"; 1\nend; 2\neof; 1\n",
        Some((0, 0)),
    ),
    // A number, a text and the kind of a field differ.
    (
        "tbl; X_A\natr; NR; NAME\nfrm; num[9.0]; char[9]\nrec; 3; \"x\"\nrec; 2; \"y\"\nend; 2\neof; 1\n",
        Some((0, 1)),
    ),
    (
        "tbl; X_A\natr; NR; NAME\nfrm; num[9.0]; char[9]\nrec; 1; \"x\"\nrec; 2; \"yy\"\nend; 2\neof; 1\n",
        Some((0, 2)),
    ),
    (
        "tbl; X_A\natr; NR; NAME\nfrm; num[9.0]; char[9]\nrec; 1; x\nrec; 2; \"y\"\nend; 2\neof; 1\n",
        Some((0, 1)),
    ),
    // A row is missing, or there is one too many.
    (
        "tbl; X_A\natr; NR; NAME\nfrm; num[9.0]; char[9]\nrec; 1; \"x\"\nend; 1\neof; 1\n",
        Some((0, 2)),
    ),
    (
        "tbl; X_A\natr; NR; NAME\nfrm; num[9.0]; char[9]\nrec; 1; \"x\"\nrec; 2; \"y\"\nrec; 3; \"z\"\nend; 3\neof; 1\n",
        Some((0, 3)),
    ),
    // Only the column that is left aside may differ: beside it a number counts.
    (
        "tbl; X_A\natr; NR; NAME\nfrm; num[9.0]; char[9]\nrec; 1; \"x\"\nrec; 2; \"y\"\nend; 2\ntbl; X_B\natr; ART; SCHRANKE\nfrm; num[9.0]; num[9.0]\nrec; 2; 7\nend; 1\neof; 2\n",
        Some((1, 1)),
    ),
];

/// Whether the first difference of a text is this one.
fn is_different(alloc: Global, text: &str, wanted: Option<(usize, usize)>) -> Result<bool, Fail> {
    let found = difference_of(alloc, text)?;
    Ok(match found {
        None => wanted.is_none(),
        Some(found) => wanted == Some((found.table, found.row)),
    })
}

/// The first text that differs elsewhere, where there is one.
fn first_other(
    alloc: Global,
    cases: &[(&str, Option<(usize, usize)>)],
) -> Result<Option<usize>, Fail> {
    for place in 0..cases.len() {
        let (text, wanted) = cases[place];
        if !is_different(alloc, text, wanted)? {
            return Ok(Some(place));
        }
    }
    Ok(None)
}

fn first_other_case(alloc: Global) -> Result<Option<usize>, Fail> {
    first_other(alloc, CASES.as_slice())
}

/// Each text differs where it should.
#[test]
fn the_first_difference_is_found(rt: HostRuntime) -> Result<(), Fail> {
    assert_eq!(rt; first_other_case(rt.alloc())?, None);
    Ok(())
}
