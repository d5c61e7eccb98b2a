//! Tables of whole numbers.

ghost use Rattle.std.specs.Prelude.{◌≡◌, IfOk, map};
ghost use Rattle.number_tables.specs.Numbers.{PlainNumbers, number_head as head_of, table_over, texts};

use plan_core::{Bytes, Memory, Seq};
use std::alloc::Global;
use vdv451_text::{Field, Head, Table};

fn bytes_of(alloc: Global, text: &str) -> Result<Bytes, Memory>
    ensures { IfOk result (λ bytes. bytes ≡ text.now) }
{
    Ok(Bytes::from_vec(Vec::from_slice(alloc, text.as_bytes())?))
}

/// A column of whole numbers.
fn number_head(alloc: Global, name: &str) -> Result<Head, Memory>
    ensures { IfOk result (λ head. head ≡ head_of name.now) }
{
    Ok(Head {
        name: bytes_of(alloc, name)?,
        format: bytes_of(alloc, "num[19.0]")?,
    })
}

fn number_heads(alloc: Global, names: &[&str]) -> Result<Seq<Head>, Memory>
    ensures { IfOk result (λ heads. heads ≡ map head_of (texts names.now)) }
{
    let mut heads = Seq::new(alloc);
    for name in names {
        heads.push(number_head(alloc, name)?)?;
    }
    Ok(heads)
}

/// The table of a name with columns of whole numbers, each of the format `num[19.0]`, over rows such as `number_row` makes.
///
/// Where the names are plain and each row has a number or nothing for each column, the table is plain (`vdv451_text::is_plain`).
///
/// # Errors
///
/// `Memory` where memory runs out, and for nothing else.
pub fn number_table(
    alloc: Global,
    name: &str,
    columns: &[&str],
    rows: Seq<Seq<Field>>,
) -> Result<Table, Memory>
    ensures value { IfOk result (λ table. table ≡ table_over name.now (texts columns.now) rows) }
    ensures plain { PlainNumbers name.now (texts columns.now) }
{
    Ok(Table {
        name: bytes_of(alloc, name)?,
        columns: number_heads(alloc, columns)?,
        rows,
    })
}
