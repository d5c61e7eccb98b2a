//! The tables and columns that are read, as data.

ghost use Rattle.std.specs.Prelude.{◌≡◌, IfOk, map};
ghost use Rattle.vdv452_rows.specs.Outlines.{column_of};
ghost use Rattle.vdv452_rows.specs.Schema as schema;

pub mod own;
pub mod standard;

use crate::cell::bytes_of;
use plan_core::{Bytes, Memory, Seq};
use std::alloc::Global;

/// The greatest number of a column without a narrower range.
const GREATEST: u32 = 4_294_967_295;

/// The greatest number of seconds in a table: two days.
pub const GREATEST_SECONDS: u32 = 172_800;

/// The greatest length of a section in metres.
const GREATEST_LENGTH: u32 = 1_000_000;

/// The greatest number of vehicles or drivers of a kind.
const GREATEST_COUNT: u32 = 10_000;

/// The greatest costs of a vehicle or a driver.
const GREATEST_COSTS: u32 = 100_000_000;

/// The greatest rate.
const GREATEST_RATE: u32 = 10_000;

/// The greatest number of a trip.
const GREATEST_TRIP: u64 = 1_000_000_000_000_000_000;

/// Which values a column has.
#[derive(Clone, Copy, Debug, PartialEq, Eq)]
pub enum Domain {
    /// Numbers from 0 to the greatest one.
    UpTo(u32),
    /// Numbers from 0 to the greatest one, which has more than 32 bits.
    LongUpTo(u64),
    /// Texts of any bytes.
    AnyWord,
    /// Whatever stands there; it is not looked at.
    Unseen,
}

/// A column that is read.
#[derive(Drop)]
pub struct Column {
    pub name: Bytes,
    pub domain: Domain,
    pub is_key: bool,
    pub may_be_empty: bool,
    pub may_be_missing: bool,
}

/// A table that is read.
#[derive(Drop)]
pub struct Schema {
    pub name: Bytes,
    pub is_optional: bool,
    pub columns: Seq<Column>,
}

/// A column that is read, with its name where it stands.
#[derive(Clone, Copy)]
pub(crate) struct Outline<'a> {
    pub name: &'a [u8],
    pub domain: Domain,
    pub is_key: bool,
    pub may_be_empty: bool,
    pub may_be_missing: bool,
}

/// A number of 32 bits in the key.
fn key(name: &[u8]) -> Outline<'_>
    ensures { column_of result ≡ schema.key name.now }
{
    Outline {
        name,
        domain: Domain::UpTo(GREATEST),
        is_key: true,
        may_be_empty: false,
        may_be_missing: false,
    }
}

/// The number of a trip in the key.
fn trip_key(name: &[u8]) -> Outline<'_>
    ensures { column_of result ≡ schema.trip_key name.now }
{
    Outline {
        name,
        domain: Domain::LongUpTo(GREATEST_TRIP),
        is_key: true,
        may_be_empty: false,
        may_be_missing: false,
    }
}

/// A name in the key.
fn word_key(name: &[u8]) -> Outline<'_>
    ensures { column_of result ≡ schema.word_key name.now }
{
    Outline {
        name,
        domain: Domain::AnyWord,
        is_key: true,
        may_be_empty: false,
        may_be_missing: false,
    }
}

/// A column beside the key.
fn plain(name: &[u8], domain: Domain) -> Outline<'_>
    ensures { column_of result ≡ schema.plain name.now domain }
{
    Outline {
        name,
        domain: domain,
        is_key: false,
        may_be_empty: false,
        may_be_missing: false,
    }
}

/// A number of 32 bits.
fn number(name: &[u8]) -> Outline<'_>
    ensures { column_of result ≡ schema.number name.now }
{
    plain(name, Domain::UpTo(GREATEST))
}

/// Seconds of the operating day.
fn seconds(name: &[u8]) -> Outline<'_>
    ensures { column_of result ≡ schema.seconds name.now }
{
    plain(name, Domain::UpTo(GREATEST_SECONDS))
}

/// How many there are.
fn count(name: &[u8]) -> Outline<'_>
    ensures { column_of result ≡ schema.count name.now }
{
    plain(name, Domain::UpTo(GREATEST_COUNT))
}

/// Cost units for each.
fn fixed_costs(name: &[u8]) -> Outline<'_>
    ensures { column_of result ≡ schema.fixed_costs name.now }
{
    plain(name, Domain::UpTo(GREATEST_COSTS))
}

/// Cost units a second.
fn rate(name: &[u8]) -> Outline<'_>
    ensures { column_of result ≡ schema.rate name.now }
{
    plain(name, Domain::UpTo(GREATEST_RATE))
}

/// Metres, or nothing where they are not known.
fn some_metres(name: &[u8]) -> Outline<'_>
    ensures { column_of result ≡ schema.some_metres name.now }
{
    Outline {
        name,
        domain: Domain::UpTo(GREATEST_LENGTH),
        is_key: false,
        may_be_empty: true,
        may_be_missing: false,
    }
}

/// A column that must be there; its values may be anything.
fn unseen_column(name: &[u8]) -> Outline<'_>
    ensures { column_of result ≡ schema.unseen name.now }
{
    Outline {
        name,
        domain: Domain::Unseen,
        is_key: false,
        may_be_empty: true,
        may_be_missing: false,
    }
}

/// 0 or 1; 0 where the field is empty or the table lacks the column.
fn flag(name: &[u8]) -> Outline<'_>
    ensures { column_of result ≡ schema.flag name.now }
{
    Outline {
        name,
        domain: Domain::UpTo(1),
        is_key: false,
        may_be_empty: true,
        may_be_missing: true,
    }
}

fn column_of_outline(alloc: Global, outline: &Outline<'_>) -> Result<Column, Memory>
    ensures { IfOk result (λ column. column ≡ column_of outline.now) }
{
    Ok(Column {
        name: bytes_of(alloc, outline.name)?,
        domain: outline.domain,
        is_key: outline.is_key,
        may_be_empty: outline.may_be_empty,
        may_be_missing: outline.may_be_missing,
    })
}

fn all_copied(alloc: Global, outlines: &[Outline<'_>]) -> Result<Vec<Column>, Memory>
    ensures { IfOk result (λ columns. columns.items ≡ map column_of outlines.now) }
{
    let mut columns = Vec::with_capacity(alloc, outlines.len())?;
    for outline in outlines {
        columns.push(column_of_outline(alloc, outline)?)?;
    }
    Ok(columns)
}

/// A table that must be there.
fn needed_table(alloc: Global, name: &[u8], outlines: &[Outline<'_>]) -> Result<Schema, Memory>
    ensures { IfOk result (λ made. made ≡ schema.needed name.now (map column_of outlines.now)) }
{
    let columns = all_copied(alloc, outlines)?;
    Ok(Schema {
        name: bytes_of(alloc, name)?,
        is_optional: false,
        columns: Seq::from_vec(columns),
    })
}

/// A table that may be absent.
fn optional_table(alloc: Global, name: &[u8], outlines: &[Outline<'_>]) -> Result<Schema, Memory>
    ensures { IfOk result (λ made. made ≡ schema.optional name.now (map column_of outlines.now)) }
{
    let columns = all_copied(alloc, outlines)?;
    Ok(Schema {
        name: bytes_of(alloc, name)?,
        is_optional: true,
        columns: Seq::from_vec(columns),
    })
}
