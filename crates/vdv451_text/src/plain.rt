//! Whether tables have a spelling.

ghost use Rattle.std.specs.Prelude.{◌≡◌, ◌&&◌, ◌==◌, ℤ, Option, codes, not, reverse};
ghost use Rattle.std.specs.Char.{is_ascii_digit, is_ascii_lowercase};
ghost use Rattle.std.specs.List.{list_all, zip};
ghost use Rattle.std.specs.Str.{bytes_eq, str_to_ascii_lowercase};
ghost use Rattle.vdv451_text.specs.Fields.{begins_bare, is_name, is_format, is_num_format, number_of, is_name_byte, is_format_byte, is_digits};
ghost use Rattle.vdv451_text.specs.Fields.{begins_quoted};
ghost use Rattle.vdv451_text.specs.Lines.{is_blank as blank_byte};
ghost use Rattle.vdv451_text.specs.Plain.{are_plain, is_bare, is_plain_name, is_plain_raw, is_plain_field, is_plain_row, is_plain_column, are_plain_columns, is_plain_table};

use crate::number::{are_digits, spelled_number};
use crate::table::{Field, Head, Table};
use plan_core::Seq;

/// Whether a byte is a blank: space or tab.
pub fn is_blank(byte: u8) -> bool
    ensures { result ≡ blank_byte byte }
{
    byte == b' ' || byte == b'\t'
}

fn is_name_letter(byte: u8) -> bool
    ensures { result ≡ is_name_byte byte }
{
    byte.is_ascii_alphanumeric() || byte == b'_' || byte == b'-' || byte == b'.'
}

fn are_name_letters(bytes: &[u8]) -> bool
    ensures { result ≡ list_all is_name_byte bytes.now }
{
    bytes.iter().all(|byte| is_name_letter(*byte))
}

/// A name of a table or a column.
pub fn is_a_name(bytes: &[u8]) -> bool
    ensures { result ≡ is_name bytes.now }
{
    !bytes.is_empty() && are_name_letters(bytes)
}

fn has_no_blank_ends(bytes: &[u8]) -> bool
    ensures { result ≡ (begins_bare bytes.now && begins_bare (reverse bytes.now)) }
{
    match bytes {
        [] => false,
        [only] => !is_blank(*only),
        [first, .., last] => !is_blank(*first) && !is_blank(*last),
    }
}

fn are_format_bytes(bytes: &[u8]) -> bool
    ensures { result ≡ list_all is_format_byte bytes.now }
{
    bytes
        .iter()
        .all(|byte| *byte != b';' && *byte != b'"' && *byte != b'\n')
}

/// The format of a column.
pub fn is_a_format(bytes: &[u8]) -> bool
    ensures { result ≡ is_format bytes.now }
{
    has_no_blank_ends(bytes) && are_format_bytes(bytes)
}

fn is_in_capitals(bytes: &[u8]) -> bool
    ensures { result ≡ list_all (λ b. not (is_ascii_lowercase b)) bytes.now }
{
    bytes.iter().all(|byte| !byte.is_ascii_lowercase())
}

fn is_num_front(front: &[u8]) -> bool
    ensures { result ≡ bytes_eq (str_to_ascii_lowercase front.now) (codes "num[") }
{
    match front {
        [n, u, m, b'['] => {
            n.to_ascii_lowercase() == b'n'
                && u.to_ascii_lowercase() == b'u'
                && m.to_ascii_lowercase() == b'm'
        }
        _ => false,
    }
}

fn is_num_back(back: &[u8]) -> bool
    ensures { result ≡ bytes_eq back.now (codes ".0]") }
{
    let suffix: &[u8] = b".0]";
    back == suffix
}

fn are_num_parts(front: &[u8], digits: &[u8], back: &[u8]) -> bool
    ensures { result ≡ (bytes_eq (str_to_ascii_lowercase front.now) (codes "num[") && (bytes_eq back.now (codes ".0]") && is_digits digits.now)) }
{
    is_num_front(front) && (is_num_back(back) && are_digits(digits))
}

/// `num[`, digits, `.0]`.
pub fn is_number_format(format: &[u8]) -> bool
    ensures { result ≡ is_num_format format.now }
{
    if format.len() < 8 {
        return false;
    }
    let (front, rest) = format.split_at(4);
    let (digits, back) = rest.split_at(rest.len() - 3);
    are_num_parts(front, digits, back)
}

fn is_capital_name(name: &[u8]) -> bool
    ensures { result ≡ is_plain_name name.now }
{
    is_a_name(name) && is_in_capitals(name)
}

fn has_bare_bytes(bytes: &[u8]) -> bool
    ensures { result ≡ list_all (λ b. not (b == 59) && not (b == 10)) bytes.now }
{
    bytes.iter().all(|byte| *byte != b';' && *byte != b'\n')
}

/// Whether bytes begin with a quote.
pub fn begins_with_quote(bytes: &[u8]) -> bool
    ensures { result ≡ begins_quoted bytes.now }
{
    match bytes {
        [] => false,
        [first, ..] => *first == b'"',
    }
}

fn is_bare_field(bytes: &[u8]) -> bool
    ensures { result ≡ is_bare bytes.now }
{
    has_no_blank_ends(bytes) && !begins_with_quote(bytes) && has_bare_bytes(bytes)
}

/// Whether bytes are the bare word that stands for an empty field.
pub fn is_null(bytes: &[u8]) -> bool
    ensures { result ≡ bytes_eq bytes.now (codes "NULL") }
{
    let null: &[u8] = b"NULL";
    bytes == null
}

fn is_plain_bare(format: &[u8], bytes: &[u8]) -> bool
    ensures { result ≡ is_plain_raw format.now bytes.now }
{
    is_bare_field(bytes)
        && !is_null(bytes)
        && (!is_number_format(format) || spelled_number(bytes).is_none())
}

fn has_no_feed(text: &[u8]) -> bool
    ensures { result ≡ list_all (λ b. not (b == 10)) text.now }
{
    text.iter().all(|byte| *byte != b'\n')
}

/// A field that has a spelling in its column.
fn is_plain_value(column: &Head, field: &Field) -> bool
    ensures { result ≡ is_plain_field column.now field.now }
{
    match field {
        Field::Num(_) => is_number_format(column.format.as_slice()),
        Field::Text(text) => has_no_feed(text.as_slice()),
        Field::Raw(bytes) => is_plain_bare(column.format.as_slice(), bytes.as_slice()),
        Field::Empty => true,
    }
}

fn are_plain_pairs(columns: &[Head], row: &[Field]) -> bool
    ensures { result ≡ list_all (λ p. is_plain_field p.0 p.1) (zip columns.now row.now) }
{
    columns
        .iter()
        .zip(row)
        .all(|(column, field)| is_plain_value(column, field))
}

/// A row has one field for each column.
fn is_plain_fields(columns: &[Head], row: &[Field]) -> bool
    ensures { result ≡ is_plain_row columns.now row.now }
{
    columns.len() == row.len() && are_plain_pairs(columns, row)
}

fn is_plain_head(column: &Head) -> bool
    ensures { result ≡ is_plain_column column.now }
{
    is_capital_name(column.name.as_slice()) && is_a_format(column.format.as_slice())
}

fn are_all_plain_heads(columns: &[Head]) -> bool
    ensures { result ≡ list_all is_plain_column columns.now }
{
    columns.iter().all(is_plain_head)
}

fn are_plain_heads(columns: &[Head]) -> bool
    ensures { result ≡ are_plain_columns columns.now }
{
    !columns.is_empty() && (columns.len() <= 200 && are_all_plain_heads(columns))
}

fn are_plain_rows(columns: &[Head], rows: &[Seq<Field>]) -> bool
    ensures { result ≡ list_all (is_plain_row columns.now) rows.now }
{
    rows.iter()
        .all(|row| is_plain_fields(columns, row.as_slice()))
}

fn is_one_plain(table: &Table) -> bool
    ensures { result ≡ is_plain_table table.now }
{
    is_capital_name(table.name.as_slice())
        && (are_plain_heads(table.columns.as_slice())
            && are_plain_rows(table.columns.as_slice(), table.rows.as_slice()))
}

/// Whether the tables have a spelling in the profile that the crate's first page gives.
///
/// Names are of their bytes and in capitals; each table has 1 to 200 columns; each row has as many fields as columns; `Num` stands
/// only in columns `num[w.0]`; `Text` has no LF; `Raw` is not empty, is not `NULL`, does not begin with a quote, has no `;` and no
/// LF, no blank at either end, and spells no number of its column. All tables that `read_file` gives are plain.
pub fn is_plain(tables: &[Table]) -> bool
    ensures { result ≡ are_plain tables.now }
{
    tables.iter().all(is_one_plain)
}
