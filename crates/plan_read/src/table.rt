//! The tables of a plan among others, and where their columns stand.

ghost use Rattle.std.specs.Prelude.{◌≡◌, ◌<◌, ◌^◌, All, IfSome, length};
ghost use Rattle.std.specs.Option.{option_copied};
ghost use Rattle.plan_read.specs.Located as spec;
ghost use Rattle.plan_read.specs.Located.{FindsPair, FindsTriple};
ghost use Rattle.plan_read.specs.Places.{name_of};

use crate::fault::{PlanTable, ReadFault, whole};
use number_tables::single_table;
use plan_core::Seq;
use vdv451_text::{Field, Head, Table};
use vdv452_tables::column_place;

/// Where the two columns stand that are read of a table.
#[derive(Clone, Copy)]
pub struct Pair {
    /// The first.
    pub first: usize,
    /// The second.
    pub second: usize,
}

/// Where the three columns stand that are read of a table.
#[derive(Clone, Copy)]
pub struct Triple {
    /// The first.
    pub first: usize,
    /// The second.
    pub second: usize,
    /// The third.
    pub third: usize,
}

/// The rows of a table of which two columns are read.
#[derive(Clone, Copy)]
pub struct PairRows<'t> {
    /// Where the columns stand.
    pub columns: Pair,
    /// The rows.
    pub rows: &'t [Seq<Field>],
}

/// The rows of a table of which three columns are read.
#[derive(Clone, Copy)]
pub struct TripleRows<'t> {
    /// Where the columns stand.
    pub columns: Triple,
    /// The rows.
    pub rows: &'t [Seq<Field>],
}

/// The table of a name, where it stands once.
fn table_of(tables: &[Table], table: PlanTable) -> Option<&Table>
    requires { All (λ table. length table.rows < 2 ^ 32) tables.now }
    ensures once { option_copied result ≡ spec.table_of table tables.now }
    ensures sized { IfSome result (λ table. length table.now.rows < 2 ^ 32) }
{
    single_table(tables, table.name())
}

/// Where two columns stand, if both are there.
fn pair_of(heads: &[Head], first: &[u8], second: &[u8]) -> Option<Pair>
    ensures { result ≡ spec.pair_of heads.now first.now second.now }
{
    let first = column_place(heads, first)?;
    let second = column_place(heads, second)?;
    Some(Pair { first, second })
}

/// Where three columns stand, if all are there.
fn triple_of(heads: &[Head], first: &[u8], second: &[u8], third: &[u8]) -> Option<Triple>
    ensures { result ≡ spec.triple_of heads.now first.now second.now third.now }
{
    let first = column_place(heads, first)?;
    let second = column_place(heads, second)?;
    let third = column_place(heads, third)?;
    Some(Triple {
        first,
        second,
        third,
    })
}

/// The rows of a table that stands once and has two columns.
pub(crate) fn pair_rows<'t>(
    tables: &'t [Table],
    table: PlanTable,
    first: &[u8],
    second: &[u8],
) -> Result<PairRows<'t>, ReadFault>
    requires { All (λ table. length table.rows < 2 ^ 32) tables.now }
    ensures { FindsPair result table first.now second.now tables.now }
{
    let Some(found) = table_of(tables, table) else {
        return Err(whole(table));
    };
    match pair_of(found.columns.as_slice(), first, second) {
        Some(columns) => Ok(PairRows {
            columns,
            rows: found.rows.as_slice(),
        }),
        None => Err(whole(table)),
    }
}

/// The rows of a table that stands once and has three columns.
pub(crate) fn triple_rows<'t>(
    tables: &'t [Table],
    table: PlanTable,
    first: &[u8],
    second: &[u8],
    third: &[u8],
) -> Result<TripleRows<'t>, ReadFault>
    requires { All (λ table. length table.rows < 2 ^ 32) tables.now }
    ensures { FindsTriple result table first.now second.now third.now tables.now }
{
    let Some(found) = table_of(tables, table) else {
        return Err(whole(table));
    };
    match triple_of(found.columns.as_slice(), first, second, third) {
        Some(columns) => Ok(TripleRows {
            columns,
            rows: found.rows.as_slice(),
        }),
        None => Err(whole(table)),
    }
}
