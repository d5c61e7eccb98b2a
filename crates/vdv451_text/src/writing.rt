//! The one spelling of plain tables.

ghost use Rattle.std.specs.Prelude.{◌≡◌, ◌++◌, ◌∷◌, ◌<◌, ◌^◌, [], List, IsTrue, IfOk, OnOk, codes, length, map};
ghost use Rattle.std.specs.Fmt.{decimal, signed_decimal};
ghost use Rattle.std.specs.List.{flat_map, list_all};
ghost use Rattle.vdv451_text.specs.Grammar.{Spells};
ghost use Rattle.vdv451_text.specs.Lines.{lines_of};
ghost use Rattle.vdv451_text.specs.declared.table.Table.{Table as TextTable};
ghost use Rattle.vdv451_text.specs.Plain.{are_plain, are_sized, is_sized_field, is_sized_row, is_sized_table, is_word, text, doubled, field_text, line_text, row_text, table_text, body_text, header_text};

use crate::table::{Field, Head, Table};
use plan_core::{Bytes, Memory, Seq};
use std::alloc::Global;

fn push_bytes(out: &mut Vec<u8>, bytes: &[u8]) -> Result<(), Memory>
    ensures { OnOk result (out.new.items ≡ out.old.items ++ bytes.now) }
{
    out.extend_from_slice(bytes)?;
    Ok(())
}

/// An inner quote is doubled.
fn push_doubled(out: &mut Vec<u8>, text: &[u8]) -> Result<(), Memory>
    ensures { OnOk result (out.new.items ≡ out.old.items ++ doubled text.now) }
{
    for byte in text {
        if *byte == b'"' {
            out.push(b'"')?;
        }
        out.push(*byte)?;
    }
    Ok(())
}

fn push_number(alloc: Global, out: &mut Vec<u8>, number: usize) -> Result<(), Memory>
    ensures { OnOk result (out.new.items ≡ out.old.items ++ decimal number) }
{
    let digits = number.to_string(alloc)?;
    push_bytes(out, digits.as_bytes())
}

fn push_signed(alloc: Global, out: &mut Vec<u8>, number: i64) -> Result<(), Memory>
    ensures sized { IsTrue (is_word number) }
    ensures written { OnOk result (out.new.items ≡ out.old.items ++ signed_decimal number) }
{
    let digits = number.to_string(alloc)?;
    push_bytes(out, digits.as_bytes())
}

fn push_field(alloc: Global, out: &mut Vec<u8>, field: &Field) -> Result<(), Memory>
    ensures sized { IsTrue (is_sized_field field.now) }
    ensures written { OnOk result (out.new.items ≡ out.old.items ++ field_text field.now) }
{
    match field {
        Field::Num(number) => push_signed(alloc, out, *number),
        Field::Text(text) => {
            push_bytes(out, b"\"")?;
            push_doubled(out, text.as_slice())?;
            push_bytes(out, b"\"")
        }
        Field::Raw(bytes) => push_bytes(out, bytes.as_slice()),
        Field::Empty => push_bytes(out, b"NULL"),
    }
}

fn push_row(alloc: Global, out: &mut Vec<u8>, row: &[Field]) -> Result<(), Memory>
    ensures sized { OnOk result (IsTrue (is_sized_row row.now)) }
    ensures written { OnOk result (out.new.items ≡ out.old.items ++ row_text (13 ∷ 10 ∷ []) row.now) }
{
    push_bytes(out, b"rec")?;
    for field in row {
        push_bytes(out, b"; ")?;
        push_field(alloc, out, field)?;
    }
    push_bytes(out, b"\r\n")
}

fn push_rows(alloc: Global, out: &mut Vec<u8>, rows: &[Seq<Field>]) -> Result<(), Memory>
    ensures few { length rows.now < 10 ^ 18 }
    ensures sized { OnOk result (IsTrue (list_all is_sized_row rows.now)) }
    ensures written { OnOk result (out.new.items ≡ out.old.items ++ flat_map (row_text (13 ∷ 10 ∷ [])) rows.now) }
{
    for row in rows {
        push_row(alloc, out, row.as_slice())?;
    }
    Ok(())
}

fn push_names(out: &mut Vec<u8>, columns: &[Head]) -> Result<(), Memory>
    ensures { OnOk result (out.new.items ≡ out.old.items ++ line_text (13 ∷ 10 ∷ []) (codes "atr") (map (λ column. column.name) columns.now)) }
{
    push_bytes(out, b"atr")?;
    for column in columns {
        push_bytes(out, b"; ")?;
        push_bytes(out, column.name.as_slice())?;
    }
    push_bytes(out, b"\r\n")
}

fn push_formats(out: &mut Vec<u8>, columns: &[Head]) -> Result<(), Memory>
    ensures { OnOk result (out.new.items ≡ out.old.items ++ line_text (13 ∷ 10 ∷ []) (codes "frm") (map (λ column. column.format) columns.now)) }
{
    push_bytes(out, b"frm")?;
    for column in columns {
        push_bytes(out, b"; ")?;
        push_bytes(out, column.format.as_slice())?;
    }
    push_bytes(out, b"\r\n")
}

fn push_table(alloc: Global, out: &mut Vec<u8>, table: &Table) -> Result<(), Memory>
    ensures sized { OnOk result (IsTrue (is_sized_table table.now)) }
    ensures written { OnOk result (out.new.items ≡ out.old.items ++ table_text (13 ∷ 10 ∷ []) table.now) }
{
    push_bytes(out, b"tbl; ")?;
    push_bytes(out, table.name.as_slice())?;
    push_bytes(out, b"\r\n")?;
    push_names(out, table.columns.as_slice())?;
    push_formats(out, table.columns.as_slice())?;
    push_rows(alloc, out, table.rows.as_slice())?;
    push_bytes(out, b"end; ")?;
    push_number(alloc, out, table.rows.len())?;
    push_bytes(out, b"\r\n")
}

fn push_tables(alloc: Global, out: &mut Vec<u8>, tables: &[Table]) -> Result<(), Memory>
    ensures sized { OnOk result (IsTrue (are_sized tables.now)) }
    ensures written { OnOk result (out.new.items ≡ out.old.items ++ body_text (13 ∷ 10 ∷ []) tables.now) }
{
    for table in tables {
        push_table(alloc, out, table)?;
    }
    push_bytes(out, b"eof; ")?;
    push_number(alloc, out, tables.len())?;
    push_bytes(out, b"\r\n")
}

fn push_header(out: &mut Vec<u8>) -> Result<(), Memory>
    ensures { OnOk result (out.new.items ≡ out.old.items ++ header_text (13 ∷ 10 ∷ [])) }
{
    push_bytes(
        out,
        b"mod; DD.MM.YYYY; HH:MM:SS; free\r\nsrc; \"planner\"; \"01.01.2000\"; \"00:00:00\"\r\nchs; \"ISO8859-1\"\r\n",
    )?;
    push_bytes(
        out,
        b"ver; \"1.4\"\r\nifv; \"1.4\"\r\ndve; \"1.4\"\r\nfft; \"\"\r\n",
    )
}

/// The one spelling of plain tables (VDV 451, in the profile that the crate's first page gives): the seven header lines,
/// then each table as `tbl`, `atr`, `frm`, a `rec` for each row and `end`, then `eof`, with CR LF at each line's end.
///
/// `read_file` reads it back to these tables, and no other tables are spelled so.
///
/// # Errors
///
/// `Memory` where memory runs out, and for nothing else.
pub fn write_tables(alloc: Global, tables: &[Table]) -> Result<Bytes, Memory>
    requires { IsTrue (are_plain tables.now) }

    // The bytes are the one spelling, and they spell these tables and no others.
    ensures spelling { IfOk result (λ bytes. bytes ≡ text tables.now) }
    ensures back { IfOk result (λ bytes. Spells (lines_of bytes) tables.now) }
    ensures only { (others : List TextTable) → IfOk result (λ bytes. Spells (lines_of bytes) others → others ≡ tables.now) }

    // No other plain tables have this spelling. That they are of a size that a text can say is true of all tables in memory.
    ensures one { (others : List TextTable) → IsTrue (are_plain others) → IsTrue (are_sized others) → IfOk result (λ bytes. bytes ≡ text others → others ≡ tables.now) }
{
    text_of_tables(alloc, tables)
}

fn text_of_tables(alloc: Global, tables: &[Table]) -> Result<Bytes, Memory>
    ensures sized { OnOk result (IsTrue (are_sized tables.now)) }
    ensures written { IfOk result (λ bytes. bytes ≡ text tables.now) }
{
    let mut out = Vec::new(alloc);
    push_header(&mut out)?;
    push_tables(alloc, &mut out, tables)?;
    Ok(Bytes::from_vec(out))
}
