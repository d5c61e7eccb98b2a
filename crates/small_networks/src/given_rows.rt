//! The tables after VDV 452 and those of this project, as a text whose rows a test gives.

use std::alloc::Global;
use std::test::Fail;

/// The fields of rows.
pub type Rows = &'static [&'static str];

/// A table's name, and the fields of its rows.
pub type TableRows = (&'static str, Rows);

/// The columns of each table. Those of X_FAHRER that may be missing are the caller's.
const COLUMNS: [(&str, &str); 18] = [
    ("BASIS_VER_GUELTIGKEIT", "VER_GUELTIGKEIT; BASIS_VERSION"),
    ("FIRMENKALENDER", "BASIS_VERSION; BETRIEBSTAG; TAGESART_NR"),
    ("REC_ORT", "BASIS_VERSION; ONR_TYP_NR; ORT_NR"),
    (
        "REC_SEL",
        "BASIS_VERSION; BEREICH_NR; ONR_TYP_NR; ORT_NR; SEL_ZIEL_TYP; SEL_ZIEL; SEL_LAENGE",
    ),
    (
        "SEL_FZT_FELD",
        "BASIS_VERSION; BEREICH_NR; FGR_NR; ONR_TYP_NR; ORT_NR; SEL_ZIEL_TYP; SEL_ZIEL; SEL_FZT",
    ),
    (
        "ORT_HZTF",
        "BASIS_VERSION; FGR_NR; ONR_TYP_NR; ORT_NR; HP_HZT",
    ),
    (
        "REC_FRT_HZT",
        "BASIS_VERSION; FRT_FID; ONR_TYP_NR; ORT_NR; FRT_HZT_ZEIT",
    ),
    ("REC_LID", "BASIS_VERSION; LI_NR; STR_LI_VAR; BEREICH_NR"),
    (
        "LID_VERLAUF",
        "BASIS_VERSION; LI_NR; STR_LI_VAR; LI_LFD_NR; ONR_TYP_NR; ORT_NR",
    ),
    (
        "REC_FRT",
        "BASIS_VERSION; FRT_FID; FRT_START; LI_NR; TAGESART_NR; FAHRTART_NR; FGR_NR; STR_LI_VAR; UM_UID",
    ),
    (
        "UEB_FZT",
        "BASIS_VERSION; BEREICH_NR; FGR_NR; ONR_TYP_NR; ORT_NR; UEB_ZIEL_TYP; UEB_ZIEL; UEB_FAHRZEIT",
    ),
    ("MENGE_FZG_TYP", "BASIS_VERSION; FZG_TYP_NR"),
    (
        "X_PLAN",
        "UEB_BEREICH_NR; UEB_FGR_NR; WENDE_SEK; MAX_WARTE_SEK; UEBERGABE_SEK",
    ),
    (
        "X_HOF",
        "HOF_NR; ONR_TYP_NR; ORT_NR; FZG_TYP_NR; ANZAHL; FIX_KOSTEN; LEER_SATZ; STAND_SATZ",
    ),
    (
        "X_FAHRER",
        "GRUPPE_NR; ONR_TYP_NR; ORT_NR; ANZAHL; FIX_KOSTEN; SATZ; ANMELDE_SEK; ABMELDE_SEK",
    ),
    ("X_LINIE_FZG", "LI_NR; FZG_TYP_NR"),
    ("X_ABLOESE", "ONR_TYP_NR; ORT_NR"),
    ("X_WEG", "ONR_TYP_NR; ORT_NR; ZIEL_TYP; ZIEL_NR; WEG_SEK"),
];

/// The columns of a table, if it has a name of those.
fn columns_of(name: &str) -> &'static str {
    for (table, columns) in COLUMNS {
        if table == name {
            return columns;
        }
    }
    ""
}

/// The rows that are given of a table, if any.
fn rows_of(given: &[TableRows], name: &str) -> Rows {
    for (table, rows) in given {
        if *table == name {
            return *rows;
        }
    }
    &[]
}

/// Puts texts behind the others.
fn add(bytes: &mut Vec<u8>, texts: &[&str]) -> Result<(), Fail> {
    for text in texts {
        bytes.extend_from_slice(text.as_bytes())?;
    }
    Ok(())
}

/// Puts behind the others a format for each column that follows a `;`. Each field is a number of ten digits.
fn add_formats(bytes: &mut Vec<u8>, columns: &str) -> Result<(), Fail> {
    for byte in columns.as_bytes() {
        if *byte == b';' {
            add(bytes, &["; num[10.0]"])?;
        }
    }
    Ok(())
}

/// Puts a table's name, columns and formats behind the others.
fn add_head(bytes: &mut Vec<u8>, name: &str, columns: &str, further: &str) -> Result<(), Fail> {
    add(bytes, &["tbl; ", name, "\natr; ", columns, further])?;
    add(bytes, &["\nfrm; num[10.0]"])?;
    add_formats(bytes, columns)?;
    add_formats(bytes, further)
}

/// Puts a table behind the others, with its rows.
fn add_table(
    alloc: Global,
    bytes: &mut Vec<u8>,
    table: TableRows,
    allowances: &str,
) -> Result<(), Fail> {
    let (name, rows) = table;
    let further = if name == "X_FAHRER" { allowances } else { "" };
    add_head(bytes, name, columns_of(name), further)?;
    for row in rows {
        add(bytes, &["\nrec; ", row])?;
    }
    let count = rows.len().to_string(alloc)?;
    add(bytes, &["\nend; ", count.as_str(), "\n"])
}

/// Puts the last line behind the tables.
fn add_end(alloc: Global, bytes: &mut Vec<u8>, tables: usize) -> Result<(), Fail> {
    let count = tables.to_string(alloc)?;
    add(bytes, &["eof; ", count.as_str(), "\n"])
}

/// The text of some tables in their order, with the rows that are given. What drivers may be allowed has columns of X_FAHRER that may be
/// missing: `allowances` names those that are there, each after `; `.
pub fn text_of(alloc: Global, tables: &[TableRows], allowances: &str) -> Result<Vec<u8>, Fail> {
    let mut bytes = Vec::new(alloc);
    for table in tables {
        add_table(alloc, &mut bytes, *table, allowances)?;
    }
    add_end(alloc, &mut bytes, tables.len())?;
    Ok(bytes)
}

/// The text of all tables, with the rows that are given; a table that is not given has none.
pub fn whole_text(alloc: Global, given: &[TableRows], allowances: &str) -> Result<Vec<u8>, Fail> {
    let mut bytes = Vec::new(alloc);
    for (name, _columns) in COLUMNS {
        let table = (name, rows_of(given, name));
        add_table(alloc, &mut bytes, table, allowances)?;
    }
    add_end(alloc, &mut bytes, COLUMNS.len())?;
    Ok(bytes)
}
