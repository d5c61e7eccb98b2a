//! Tables over rows.

ghost use Rattle.std.specs.Prelude.{◌≡◌, IfOk, map};
ghost use Rattle.day_maker.specs.Made.{format_of as format_of_spec, head_of, table_over as table_over_spec, texts};

use plan_core::{Bytes, Memory, Seq};
use std::alloc::Global;
use vdv451_text::{Field, Head, Table};

fn bytes_of(alloc: Global, text: &str) -> Result<Bytes, Memory>
    ensures { IfOk result (λ bytes. bytes ≡ text.now) }
{
    Ok(Bytes::from_vec(Vec::from_slice(alloc, text.as_bytes())?))
}

/// The format of a column: names of variants are words, all else whole numbers.
fn format_of(name: &str) -> &'static str
    ensures { result.now ≡ format_of_spec name.now }
{
    if name == "STR_LI_VAR" {
        "char[6]"
    } else {
        "num[19.0]"
    }
}

fn head(alloc: Global, name: &str) -> Result<Head, Memory>
    ensures { IfOk result (λ head. head ≡ head_of name.now) }
{
    Ok(Head {
        name: bytes_of(alloc, name)?,
        format: bytes_of(alloc, format_of(name))?,
    })
}

fn heads(alloc: Global, names: &[&str]) -> Result<Seq<Head>, Memory>
    ensures { IfOk result (λ heads. heads ≡ map head_of (texts names.now)) }
{
    let mut heads = Seq::new(alloc);
    for name in names {
        heads.push(head(alloc, name)?)?;
    }
    Ok(heads)
}

/// The table of a name with these columns over rows.
pub(crate) fn table_over(
    alloc: Global,
    name: &str,
    columns: &[&str],
    rows: Seq<Seq<Field>>,
) -> Result<Table, Memory>
    ensures { IfOk result (λ table. table ≡ table_over_spec name.now (texts columns.now) rows) }
{
    Ok(Table {
        name: bytes_of(alloc, name)?,
        columns: heads(alloc, columns)?,
        rows,
    })
}
