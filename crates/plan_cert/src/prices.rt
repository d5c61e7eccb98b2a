//! The prices of X_PREIS and X_KLASSENPREIS.

ghost use Rattle.std.specs.Prelude.{◌≡◌, ◌<◌, ◌≤◌, [], IfNone, IfOk, IfSome, is_some, length};
ghost use Rattle.std.specs.List.{filter_map, list_all};
ghost use Rattle.plan_cert.specs.Places.{Gives, needed as needed_of};
ghost use Rattle.plan_cert.specs.Columns as columns_spec;
ghost use Rattle.plan_cert.specs.Prices as spec;
ghost use Rattle.plan_cert.specs.PriceTables as tables_spec;
ghost use Rattle.plan_cert.specs.Shapes.{HaveFew};
ghost use Rattle.plan_cert.specs.declared.prices.Priced.TheVariants as kinds;

use crate::cert::Pass;
use crate::columns::{PriceColumns, price_columns};
use crate::fault::{CertFault, CertTable};
use crate::numbers::{any_pass, class_among, moderate, place_of_number};
use crate::shape::Shape;
use crate::slots::{Entry, Slots, empty_prices};
use crate::table::{no_wrong, table_of, whole};
use number_tables::number_at;
use plan_core::{Memory, Seq};
use std::alloc::{AllocError, Global};
use vdv451_text::{Field, Table};

/// What has prices.
#[derive(Clone, Copy, Debug, PartialEq, Eq)]
pub enum Priced {
    /// The items of the passes.
    Items,
    /// Their classes.
    Classes,
}

/// The prices of the four passes.
#[derive(Drop)]
pub struct FourLists {
    /// Those of pass 1, by their numbers.
    pub block_number: Seq<i64>,
    /// Those of pass 2.
    pub block_cost: Seq<i64>,
    /// Those of pass 3.
    pub duty_number: Seq<i64>,
    /// Those of pass 4.
    pub duty_cost: Seq<i64>,
}

/// The table of the prices.
fn table_for(kind: Priced) -> CertTable
    ensures { result ≡ spec.table_for kind }
{
    match kind {
        Priced::Items => CertTable::Prices,
        Priced::Classes => CertTable::ClassPrices,
    }
}

/// The column that numbers what has the prices.
fn number_column(kind: Priced) -> &'static [u8]
    ensures { result.now ≡ spec.number_column kind }
{
    match kind {
        Priced::Items => b"LFD_NR",
        Priced::Classes => b"KLASSE",
    }
}

/// How many prices a pass has.
fn count_for(kind: Priced, shape: &Shape, pass: Pass) -> u32
    requires { HaveFew shape.now.classes }
    ensures { result ≡ spec.count_for kind shape.now pass }
{
    match kind {
        Priced::Items => shape.items(pass),
        Priced::Classes => shape.classes.numbers(pass).len() as u32,
    }
}

/// The price that a row of X_PREIS gives.
fn item_entry(shape: &Shape, columns: &PriceColumns, row: &[Field]) -> Option<Entry>
    ensures value { result ≡ spec.item_entry shape.now columns.now row.now }
    ensures within { IfSome result (λ e. e.number < spec.count_for kinds.Items shape.now e.pass) }
{
    let pass = any_pass(number_at(row, columns.pass))?;
    let number = place_of_number(shape.items(pass), number_at(row, columns.number))?;
    let price = moderate(number_at(row, columns.price))?;
    Some(Entry {
        pass,
        number,
        price,
    })
}

/// The price that a row of X_KLASSENPREIS gives.
fn class_entry(shape: &Shape, columns: &PriceColumns, row: &[Field]) -> Option<Entry>
    requires { HaveFew shape.now.classes }
    ensures value { result ≡ spec.class_entry shape.now columns.now row.now }
    ensures within { IfSome result (λ e. e.number < spec.count_for kinds.Classes shape.now e.pass) }
{
    let pass = any_pass(number_at(row, columns.pass))?;
    let number = class_among(shape.classes.numbers(pass), number_at(row, columns.number))?;
    let price = number_at(row, columns.price)?;
    Some(Entry {
        pass,
        number,
        price,
    })
}

/// The price that a row gives.
fn entry_of(kind: Priced, shape: &Shape, columns: &PriceColumns, row: &[Field]) -> Option<Entry>
    requires { HaveFew shape.now.classes }
    ensures value { result ≡ spec.entry_of kind shape.now columns.now row.now }
    ensures within { IfSome result (λ e. e.number < spec.count_for kind shape.now e.pass) }
{
    match kind {
        Priced::Items => item_entry(shape, columns, row),
        Priced::Classes => class_entry(shape, columns, row),
    }
}

/// No price was read.
fn no_slots(alloc: Global, kind: Priced, shape: &Shape) -> Result<Slots, Memory>
    requires { HaveFew shape.now.classes }
    ensures { IfOk result (λ slots. slots ≡ spec.found_slots (spec.count_for kind shape.now) []) }
{
    Ok(Slots {
        block_number: empty_prices(alloc, count_for(kind, shape, Pass::BlockNumber))?,
        block_cost: empty_prices(alloc, count_for(kind, shape, Pass::BlockCost))?,
        duty_number: empty_prices(alloc, count_for(kind, shape, Pass::DutyNumber))?,
        duty_cost: empty_prices(alloc, count_for(kind, shape, Pass::DutyCost))?,
    })
}

/// Keeps the prices of rows, and finds the first row that gives none, or one that a row before it gives.
fn keep_prices(
    kind: Priced,
    shape: &Shape,
    columns: &PriceColumns,
    rows: &[Seq<Field>],
    slots: &mut Slots,
) -> Option<usize>
    requires few { HaveFew shape.now.classes }
    requires none { slots.old ≡ spec.found_slots (spec.count_for kind shape.now) [] }
    ensures wrong { result ≡ spec.wrong_price (spec.entry_of kind shape.now columns.now) [] 0 rows.now }
    ensures within { IfSome result (λ place. place < length rows.now) }
    ensures slots { IfNone result (slots.new ≡ spec.found_slots (spec.count_for kind shape.now) (filter_map (spec.entry_of kind shape.now columns.now) rows.now)) }
{
    for (place, row) in rows.iter().enumerate() {
        match entry_of(kind, shape, columns, row.as_slice()) {
            None => return Some(place),
            Some(entry) => {
                if !slots.put(&entry) {
                    return Some(place);
                }
            }
        }
    }
    None
}

/// Whether no price is missing.
fn are_all_there(slots: &[Option<i64>]) -> bool
    ensures { result ≡ list_all is_some slots.now }
{
    slots.iter().all(|slot| slot.is_some())
}

/// The prices that are there.
fn prices_there(alloc: Global, slots: &[Option<i64>]) -> Result<Vec<i64>, AllocError>
    ensures { IfOk result (λ prices. prices.items ≡ filter_map (λ slot. slot) slots.now) }
{
    slots.iter().filter_map(|slot| *slot).collect(alloc)
}

/// All prices of a pass, where none is missing.
fn all_there(alloc: Global, slots: &Seq<Option<i64>>) -> Result<Option<Seq<i64>>, Memory>
    ensures { IfOk result (λ prices. prices ≡ spec.all_there slots.now) }
{
    if are_all_there(slots.as_slice()) {
        let prices = prices_there(alloc, slots.as_slice())?;
        Ok(Some(Seq::from_vec(prices)))
    } else {
        Ok(None)
    }
}

/// The prices of a pass, or the table is wrong as a whole.
fn prices_or_fault(
    alloc: Global,
    which: CertTable,
    slots: &Seq<Option<i64>>,
) -> Result<Seq<i64>, CertFault>
    ensures { Gives result (needed_of which (spec.all_there slots.now)) }
{
    match all_there(alloc, slots)? {
        Some(prices) => Ok(prices),
        None => Err(whole(which)),
    }
}

/// The prices of the four passes, or the table is wrong as a whole.
fn four_lists(alloc: Global, which: CertTable, slots: &Slots) -> Result<FourLists, CertFault>
    ensures { Gives result (tables_spec.four_of which slots.now) }
{
    let block_number = prices_or_fault(alloc, which, &slots.block_number)?;
    let block_cost = prices_or_fault(alloc, which, &slots.block_cost)?;
    let duty_number = prices_or_fault(alloc, which, &slots.duty_number)?;
    let duty_cost = prices_or_fault(alloc, which, &slots.duty_cost)?;
    Ok(FourLists {
        block_number,
        block_cost,
        duty_number,
        duty_cost,
    })
}

/// The prices that the rows of a table give.
fn prices_in(
    alloc: Global,
    kind: Priced,
    shape: &Shape,
    columns: &PriceColumns,
    rows: &[Seq<Field>],
) -> Result<FourLists, CertFault>
    requires { HaveFew shape.now.classes }
    ensures { Gives result (tables_spec.prices_in kind shape.now columns.now rows.now) }
{
    let mut slots = no_slots(alloc, kind, shape)?;
    let wrong = keep_prices(kind, shape, columns, rows, &mut slots);
    no_wrong(table_for(kind), wrong)?;
    four_lists(alloc, table_for(kind), &slots)
}

/// Where the columns of the table of items or classes stand, or the table is wrong as a whole.
fn columns_of(kind: Priced, table: &Table) -> Result<PriceColumns, CertFault>
    ensures { Gives result (needed_of (spec.table_for kind) (columns_spec.price_columns table.now.columns (spec.number_column kind))) }
{
    match price_columns(table.columns.as_slice(), number_column(kind)) {
        Some(columns) => Ok(columns),
        None => Err(whole(table_for(kind))),
    }
}

/// The prices that the table of items or classes gives.
pub(crate) fn read_prices(
    alloc: Global,
    kind: Priced,
    shape: &Shape,
    tables: &[Table],
) -> Result<FourLists, CertFault>
    requires { HaveFew shape.now.classes }
    ensures { Gives result (tables_spec.prices_of kind shape.now tables.now) }
{
    let table = table_of(tables, table_for(kind))?;
    let columns = columns_of(kind, table)?;
    prices_in(alloc, kind, shape, &columns, table.rows.as_slice())
}
