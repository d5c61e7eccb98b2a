//! Files whose answers come from outside: broken in one place, and whole.

use crate::texts::joined;
use plan_core::Bytes;
use std::alloc::Global;
use std::test::Fail;
use vdv451_text::{Field, Table, TextKind, is_plain, read_file, write_tables};

/// The seven header lines.
const HEADER: &[u8] =
    b"mod; DD.MM.YYYY; HH:MM:SS; free\nsrc; \"demo\"; \"01.01.2000\"; \"00:00:00\"\nchs; \"ISO8859-1\"\nver; \"1.4\"\nifv; \"1.4\"\ndve; \"1.4\"\nfft; \"\"\n";

const VERSION_NAME: &[u8] = b"tbl; BASIS_VER_GUELTIGKEIT\n";

const VERSION_COLUMNS: &[u8] = b"atr; VER_GUELTIGKEIT; BASIS_VERSION\nfrm; num[10.0]; num[10.0]\n";

/// A table of vehicle types, up to its `end`.
const TYPES: &[u8] =
    b"tbl; MENGE_FZG_TYP\natr; BASIS_VERSION; FZG_TYP_NR\nfrm; num[9.0]; num[3.0]\nrec; 1; 1\nrec; 1; 2\nrec; 1; 3\n";

/// Whether the first fault of the bytes that these parts are together is this one, in this line.
fn has_fault(alloc: Global, parts: &[&[u8]], line: u32, kind: TextKind) -> Result<bool, Fail> {
    let bytes = joined(alloc, parts)?;
    match read_file(alloc, &bytes, 1000) {
        Ok(_) => Ok(false),
        Err(fault) => Ok(fault.line == line && fault.kind == kind),
    }
}

/// What is broken, by its parts; the line where it is, and how.
const BROKEN: [([&[u8]; 4], u32, TextKind); 8] = [
    (
        [TYPES, b"end; 4\neof; 1\n", b"", b""],
        7,
        TextKind::EndCount,
    ),
    ([TYPES, b"end; 3\n", b"", b""], 8, TextKind::Unended),
    (
        [
            HEADER,
            VERSION_NAME,
            VERSION_COLUMNS,
            b"rec; 20260101; 1\nend; 1\n",
        ],
        13,
        TextKind::Unended,
    ),
    (
        [
            HEADER,
            VERSION_NAME,
            VERSION_COLUMNS,
            b"rec; 20260101; 1\nend; 1\neof; 14\n",
        ],
        13,
        TextKind::EofCount,
    ),
    ([b"\x1f\x8b\x08", b"", b"", b""], 1, TextKind::Keyword),
    (
        [HEADER, VERSION_COLUMNS, b"rec; 20260101; 1\n", b""],
        8,
        TextKind::Order,
    ),
    (
        [HEADER, VERSION_NAME, VERSION_COLUMNS, b"rec; 20260101\n"],
        11,
        TextKind::Count,
    ),
    (
        [
            HEADER,
            VERSION_NAME,
            VERSION_COLUMNS,
            b"rec; 20260101; \"1\n",
        ],
        11,
        TextKind::Field,
    ),
];

#[test]
fn names_the_first_wrong_line(rt: HostRuntime) -> Result<(), Fail> {
    for (parts, line, kind) in BROKEN {
        assert!(rt; has_fault(rt.alloc(), &parts, line, kind)?, "line {line}");
    }
    Ok(())
}

/// Whether so many blanks have this fault.
fn blanks_have_fault(alloc: Global, count: usize, line: u32, kind: TextKind) -> Result<bool, Fail> {
    let blanks = vec![in alloc; b' '; count]?;
    has_fault(alloc, &[blanks.as_slice()], line, kind)
}

/// At most 1,000 bytes are read.
#[test]
fn refuses_too_many_bytes(rt: HostRuntime) -> Result<(), Fail> {
    let alloc = rt.alloc();
    assert!(rt; blanks_have_fault(alloc, 1001, 0, TextKind::TooLarge)?);
    assert!(rt; blanks_have_fault(alloc, 1000, 2, TextKind::Unended)?);
    Ok(())
}

/// Whether a table is that of the three types.
fn has_types(table: &Table) -> bool {
    let numbers = [1, 2, 3];
    for (row, number) in table.rows.as_slice().iter().zip(&numbers) {
        if !matches!(row.as_slice(), [Field::Num(1), Field::Num(n)] if n == number) {
            return false;
        }
    }
    table.rows.len() == 3 && table.name.as_slice() == b"MENGE_FZG_TYP".as_slice()
}

/// The text of the table of types, read and written.
fn text_written_again(alloc: Global) -> Result<Bytes, Fail> {
    let bytes = joined(alloc, &[TYPES, b"end; 3\neof; 1\n"])?;
    let tables = read_file(alloc, &bytes, 1000)?;
    let [table] = tables.as_slice() else {
        return Err(Fail::from("not one table"));
    };
    if !has_types(table) || !is_plain(tables.as_slice()) {
        return Err(Fail::from("another table"));
    }
    Ok(write_tables(alloc, tables.as_slice())?)
}

#[test]
fn reads_and_writes(rt: HostRuntime) -> Result<(), Fail> {
    let text = text_written_again(rt.alloc())?;
    assert!(rt;
        text.as_slice()
            .ends_with(b"rec; 1; 3\r\nend; 3\r\neof; 1\r\n")
    );
    Ok(())
}
