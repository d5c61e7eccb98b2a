//! A plan of the small day, and the tables that it is written as: one block of both trips, and one duty of two pieces.
//!
//! Whether it is in the ranges that writing asks for is looked at first.

ghost use Rattle.std.specs.Prelude.{◌<◌, ◌≤◌, ◌≡◌, ◌^◌, ◌↔◌, All, IsTrue, count_by, length};
ghost use Rattle.plan_core.specs.Limits.{most_items, most_worth};
ghost use Rattle.cover_core.specs.Cover.{AllBelow};
ghost use Rattle.cover_core.specs.FirstLeast.{AreCheap};
ghost use Rattle.umlauf_write.specs.Answers.{IsPiece};
ghost use Rattle.umlauf_write.specs.Trips as spec;
ghost use Rattle.umlauf_write.specs.Trips.{HasOneRow};

use crate::small_day::{TRIP_TABLE, network};
use cover_core::{Column, Items, Plan};
use day_model::Day;
use number_tables::number_in;
use plan_core::{Memory, Piece, Point, Sec, Seq};
use std::alloc::Global;
use std::slice;
use std::test::Fail;
use trip_times::Trip;
use umlauf_write::{Answer, plan_tables};
use vdv451_text::{Field, Head, Table, is_plain};

const DEPOT: Point = Point { typ: 2, nr: 9 };

const STOP: Point = Point { typ: 1, nr: 2 };

/// The pieces of the block: it goes out to 1 for the first trip, and the driver is relieved at 2.
fn pieces(alloc: Global) -> Result<Seq<Piece>, Memory> {
    let first = Piece {
        block: 1,
        index: 1,
        from: DEPOT,
        begin: Sec(28_200),
        to: STOP,
        end: Sec(32_400),
        driving: 4_200,
    };
    let second = Piece {
        block: 1,
        index: 2,
        from: STOP,
        begin: Sec(33_000),
        to: DEPOT,
        end: Sec(37_200),
        driving: 4_200,
    };
    Ok(Seq::from_vec(vec![in alloc; first, second]?))
}

/// A plan of one column, of both items.
fn one_column(alloc: Global, worth: u64) -> Result<Plan, Memory> {
    let column = Column {
        class: 0,
        worth,
        items: Items::from_slice(alloc, &[0, 1])?,
    };
    Ok(Plan {
        columns: Seq::from_vec(vec![in alloc; column]?),
    })
}

/// The bounds of the four passes. The last is the greatest that there may be.
fn bounds(alloc: Global) -> Result<Seq<u64>, Memory> {
    Ok(Seq::from_vec(vec![in alloc; 1, 2_200, 1, 9_223_372_036_854_775_807]?))
}

/// The plan of the day.
fn answer(alloc: Global) -> Result<Answer, Memory> {
    Ok(Answer {
        blocks: one_column(alloc, 2_200)?,
        legs: Seq::new(alloc),
        pieces: pieces(alloc)?,
        duties: one_column(alloc, 10_400)?,
        bounds: bounds(alloc)?,
    })
}

fn is_number(number: u64, found: Option<i64>) -> bool
    ensures { result ≡ spec.is_number number found }
{
    match found {
        Some(found) => found >= 0 && found as u64 == number,
        None => false,
    }
}

fn is_row_of(heads: &[Head], version: u32, fid: u64, row: &[Field]) -> bool
    ensures { result ≡ spec.is_row_of heads.now version fid row.now }
{
    is_number(u64::from(version), number_in(heads, row, b"BASIS_VERSION"))
        && is_number(fid, number_in(heads, row, b"FRT_FID"))
}

/// How many rows there are of a trip of a version.
fn count_of(heads: &[Head], rows: &[Seq<Field>], version: u32, fid: u64) -> usize
    ensures { result ≡ count_by (spec.is_row_of heads.now version fid) rows.now }
{
    rows.iter()
        .filter(|row| is_row_of(heads, version, fid, row.as_slice()))
        .count()
}

fn has_one_row(table: &Table, version: u32, fid: u64) -> bool
    ensures { IsTrue result ↔ HasOneRow table.now version fid }
{
    count_of(
        table.columns.as_slice(),
        table.rows.as_slice(),
        version,
        fid,
    ) == 1
}

fn have_one_row(table: &Table, version: u32, trips: &[Trip]) -> bool
    ensures { IsTrue result ↔ All (λ trip. HasOneRow table.now version trip.fid) trips.now }
{
    trips
        .iter()
        .all(|trip| has_one_row(table, version, trip.fid))
}

fn have_small_fids(trips: &[Trip]) -> bool
    ensures { IsTrue result ↔ All (λ trip. trip.fid ≤ 10 ^ 18) trips.now }
{
    trips
        .iter()
        .all(|trip| trip.fid <= 1_000_000_000_000_000_000)
}

fn have_classes_below(columns: &[Column], classes: usize) -> bool
    ensures { IsTrue result ↔ All (λ column. column.class < classes) columns.now }
{
    columns
        .iter()
        .all(|column| (column.class as usize) < classes)
}

fn each_is_below(items: &[u32], count: usize) -> bool
    ensures { IsTrue result ↔ All (λ item. item < count) items.now }
{
    items.iter().all(|item| (*item as usize) < count)
}

fn are_below(items: &[u32], count: usize) -> bool
    ensures { IsTrue result → AllBelow count items.now }
{
    each_is_below(items, count)
}

fn have_items_below(columns: &[Column], count: usize) -> bool
    ensures { IsTrue result → All (λ column. AllBelow count column.items) columns.now }
{
    columns
        .iter()
        .all(|column| are_below(column.items.as_slice(), count))
}

fn have_few_items(columns: &[Column]) -> bool
    ensures { IsTrue result ↔ All (λ column. length column.items ≤ most_items) columns.now }
{
    columns
        .iter()
        .all(|column| column.items.as_slice().len() <= 3_000)
}

fn each_is_cheap(columns: &[Column]) -> bool
    ensures { IsTrue result ↔ All (λ column. column.worth ≤ most_worth) columns.now }
{
    columns.iter().all(|column| column.worth <= 4_000_000_000)
}

fn are_cheap(columns: &[Column]) -> bool
    ensures { IsTrue result → AreCheap columns.now }
{
    each_is_cheap(columns)
}

fn is_piece(piece: &Piece) -> bool
    ensures { IsTrue result ↔ IsPiece piece.now }
{
    let (begin, end) = (piece.begin.0, piece.end.0);
    0 <= begin && begin <= end && end <= 345_600 && piece.driving <= 345_600
}

fn are_pieces(pieces: &[Piece]) -> bool
    ensures { IsTrue result ↔ All IsPiece pieces.now }
{
    pieces.iter().all(|piece| is_piece(piece))
}

fn are_bounds(bounds: &[u64]) -> bool
    ensures { IsTrue result ↔ All (λ bound. bound < 2 ^ 63) bounds.now }
{
    bounds
        .iter()
        .all(|bound| *bound < 9_223_372_036_854_775_808)
}

/// The tables of an answer, where it is in its ranges.
fn written_tables(
    alloc: Global,
    day: &Day,
    rec_frt: &Table,
    answer: &Answer,
) -> Result<Seq<Table>, Fail> {
    let trips = day.trips();
    if !is_plain(slice::from_ref(rec_frt))
        || !have_one_row(rec_frt, day.kind().version, trips)
        || !have_small_fids(trips)
    {
        return Err(Fail::from("no table of trips"));
    }
    let blocks = answer.blocks.columns.as_slice();
    if blocks.len() > 3_000
        || !have_classes_below(blocks, day.params().pools().len())
        || !have_items_below(blocks, trips.len())
        || !are_cheap(blocks)
    {
        return Err(Fail::from("no blocks"));
    }
    let duties = answer.duties.columns.as_slice();
    if duties.len() > 3_000
        || !have_classes_below(duties, day.params().groups().len())
        || !have_few_items(duties)
        || !are_cheap(duties)
    {
        return Err(Fail::from("no duties"));
    }
    if !are_pieces(answer.pieces.as_slice())
        || answer.bounds.len() > 4
        || !are_bounds(answer.bounds.as_slice())
    {
        return Err(Fail::from("no pieces or no bounds"));
    }
    Ok(plan_tables(alloc, day, rec_frt, answer)?)
}

/// The tables of the plan of the day, over the table of its trips.
fn plan_over(alloc: Global, day: &Day, rec_frt: &Table) -> Result<Seq<Table>, Fail> {
    let answer = answer(alloc)?;
    written_tables(alloc, day, rec_frt, &answer)
}

/// The tables of the plan of the day.
pub(crate) fn plan_of(alloc: Global, day: &Day) -> Result<Seq<Table>, Fail> {
    let network = network(alloc)?;
    match network.as_slice().get(TRIP_TABLE) {
        Some(rec_frt) => plan_over(alloc, day, rec_frt),
        None => Err(Fail::from("no table of trips")),
    }
}
