//! A table of two columns.

use number_tables::{number_row, number_table};
use plan_core::Seq;
use std::alloc::Global;
use std::test::Fail;
use vdv451_text::{Field, is_plain, write_tables};

/// What follows the header lines.
const BODY: &[u8] =
    b"tbl; X_PAIR\r\natr; FIRST; SECOND\r\nfrm; num[19.0]; num[19.0]\r\nrec; 1; NULL\r\nrec; 0; 9223372036854775807\r\nend; 2\r\neof; 1\r\n";

fn rows(alloc: Global) -> Result<Seq<Seq<Field>>, Fail> {
    let mut rows = Seq::new(alloc);
    rows.push(number_row(alloc, &[Some(1), None])?)?;
    rows.push(number_row(alloc, &[Some(0), Some(9_223_372_036_854_775_807)])?)?;
    Ok(rows)
}

fn is_spelled_as(alloc: Global, rows: Seq<Seq<Field>>, body: &[u8]) -> Result<bool, Fail> {
    let tables = [number_table(alloc, "X_PAIR", &["FIRST", "SECOND"], rows)?];
    if !is_plain(&tables) {
        return Ok(false);
    }
    let bytes = write_tables(alloc, &tables)?;
    Ok(bytes.as_slice().ends_with(body))
}

#[test]
fn has_the_text_of_a_plain_table(rt: HostRuntime) -> Result<(), Fail> {
    let rows = rows(rt.alloc())?;
    assert!(rt; is_spelled_as(rt.alloc(), rows, BODY)?);
    Ok(())
}
