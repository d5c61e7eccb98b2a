//! The tables of duties.

ghost use Rattle.std.specs.Prelude.{◌≡◌, ◌<◌, ◌≤◌, ◌^◌, ◌+◌, ◌*◌, ◌++◌, true, All, IfOk, OnOk, length, pos};
ghost use Rattle.plan_core.specs.Limits.{most_items, most_worth};
ghost use Rattle.cover_core.specs.FirstLeast.{AreCheap};
ghost use Rattle.plan_params.specs.Limits.{IsGroup};
ghost use Rattle.vdv451_text.specs.Plain.{is_plain_table};
ghost use Rattle.number_tables.specs.Signed.{signed_row as row_of, signed_rows};
ghost use Rattle.umlauf_write.specs.Answers.{IsPiece, all_rows, driving_of as driving_of_spec, duty_numbers, duty_row as duty_row_of, duty_table as duty_table_of, first_of as first_of_spec, last_of as last_of_spec, part_numbers, part_rows, part_table as part_table_of, piece_at as piece_at_of, sign_off as sign_off_of, sign_on as sign_on_of};
ghost use Rattle.umlauf_write.specs.Tables.{numbered};

use crate::legs::{number_of_place, whole};
use cover_core::Column;
use day_model::Day;
use number_tables::{number_table, signed_row};
use plan_core::{Memory, Piece, Point, Sec, Seq};
use plan_params::Group;
use std::alloc::Global;
use vdv451_text::{Field, Table};

/// The piece of a number, or one of no time where there is none.
fn piece_at(pieces: &[Piece], number: u32) -> Piece
    requires { All IsPiece pieces.now }
    ensures value { result ≡ piece_at_of pieces.now number }
    ensures piece { IsPiece result }
{
    let number = number as usize;
    if number < pieces.len() {
        return pieces[number];
    }
    let nowhere = Point { typ: 0, nr: 0 };
    Piece {
        block: 0,
        index: 0,
        from: nowhere,
        begin: Sec(0),
        to: nowhere,
        end: Sec(0),
        driving: 0,
    }
}

/// The first of some items, or 0 where there is none.
fn first_of(items: &[u32]) -> u32
    ensures { result ≡ first_of_spec items.now }
{
    match items {
        [] => 0,
        [first, ..] => *first,
    }
}

/// The last of some items, or 0 where there is none.
fn last_of(items: &[u32]) -> u32
    ensures { result ≡ last_of_spec items.now }
{
    let mut last = 0;
    for item in items {
        last = *item;
    }
    last
}

/// When a duty with a first piece signs on, where the way from home is there.
fn sign_on(day: &Day, group: &Group, first: &Piece) -> Option<i64>
    requires group { IsGroup group.now }
    requires piece { IsPiece first.now }
    ensures { result ≡ sign_on_of day.now group.now first.now }
{
    let way = day.params().way(group.home, first.from)?;
    Some(first.begin.0 - i64::from(way) - i64::from(group.sign_on))
}

/// When a duty with a last piece signs off, where the way home is there.
fn sign_off(day: &Day, group: &Group, last: &Piece) -> Option<i64>
    requires group { IsGroup group.now }
    requires piece { IsPiece last.now }
    ensures { result ≡ sign_off_of day.now group.now last.now }
{
    let way = day.params().way(last.to, group.home)?;
    Some(last.end.0 + i64::from(way) + i64::from(group.sign_off))
}

/// The seconds driven on the pieces of a duty.
fn driving_of(pieces: &[Piece], items: &[u32]) -> i64
    requires pieces { All IsPiece pieces.now }
    requires few { length items.now ≤ most_items }
    ensures { result ≡ pos (driving_of_spec pieces.now items.now) }
{
    let mut seconds: u64 = 0;
    for item in items {
        seconds += u64::from(piece_at(pieces, *item).driving);
    }
    seconds as i64
}

/// The row of a duty in X_DIENST.
fn duty_row(
    alloc: Global,
    day: &Day,
    pieces: &[Piece],
    place: usize,
    group: &Group,
    duty: &Column,
) -> Result<Seq<Field>, Memory>
    requires group { IsGroup group.now }
    requires pieces { All IsPiece pieces.now }
    requires few { length duty.now.items ≤ most_items }
    requires cheap { duty.now.worth ≤ most_worth }
    requires place { place < 2 ^ 62 }
    ensures { IfOk result (λ row. row ≡ row_of (duty_numbers (place + 1) group.now (sign_on_of day.now group.now (piece_at_of pieces.now (first_of_spec duty.now.items))) (sign_off_of day.now group.now (piece_at_of pieces.now (last_of_spec duty.now.items))) (driving_of_spec pieces.now duty.now.items) duty.now.worth)) }
{
    let items = duty.items.as_slice();
    let on = sign_on(day, group, &piece_at(pieces, first_of(items)));
    let off = sign_off(day, group, &piece_at(pieces, last_of(items)));
    let driving = driving_of(pieces, items);
    let number = number_of_place(place);
    signed_row(
        alloc,
        &[
            number,
            whole(group.number),
            on,
            off,
            Some(driving),
            Some(duty.worth as i64),
        ],
    )
}

/// The rows of X_DIENST.
fn duty_rows(
    alloc: Global,
    day: &Day,
    pieces: &[Piece],
    duties: &[Column],
) -> Result<Seq<Seq<Field>>, Memory>
    requires pieces { All IsPiece pieces.now }
    requires classes { All (λ duty. duty.class < length day.now.params.groups) duties.now }
    requires items { All (λ duty. length duty.items ≤ most_items) duties.now }
    requires cheap { AreCheap duties.now }
    ensures { IfOk result (λ rows. rows ≡ signed_rows (numbered (duty_row_of day.now pieces.now) 1 duties.now)) }
{
    let groups = day.params().groups();
    let mut rows = Seq::new(alloc);
    for (place, duty) in duties.iter().enumerate() {
        let group = &groups[duty.class as usize];
        rows.push(duty_row(alloc, day, pieces, place, group, duty)?)?;
    }
    Ok(rows)
}

/// The table X_DIENST of duties: for each its number from 1, its group, sign-on and sign-off, the seconds driven, and its cost. Sign-on
/// and sign-off are empty where the way between home and the piece's point is missing.
pub(crate) fn duty_table(
    alloc: Global,
    day: &Day,
    pieces: &[Piece],
    duties: &[Column],
) -> Result<Table, Memory>
    requires pieces { All IsPiece pieces.now }
    requires classes { All (λ duty. duty.class < length day.now.params.groups) duties.now }
    requires items { All (λ duty. length duty.items ≤ most_items) duties.now }
    requires cheap { AreCheap duties.now }
    ensures table { IfOk result (λ table. table ≡ duty_table_of day.now pieces.now duties.now) }
    ensures plain { IfOk result (λ table. is_plain_table table ≡ true) }
{
    let rows = duty_rows(alloc, day, pieces, duties)?;
    number_table(
        alloc,
        "X_DIENST",
        &[
            "DIENST_NR",
            "GRUPPE_NR",
            "BEGINN",
            "ENDE",
            "LENKZEIT",
            "KOSTEN",
        ],
        rows,
    )
}

/// The row of a piece of a duty in X_DIENST_STUECK.
fn part_row(alloc: Global, duty: usize, place: usize, piece: &Piece) -> Result<Seq<Field>, Memory>
    requires duty { duty < 2 ^ 62 }
    requires place { place < 2 ^ 62 }
    ensures { IfOk result (λ row. row ≡ row_of (part_numbers (duty + 1) (place + 1) piece.now)) }
{
    let duty = number_of_place(duty);
    let number = number_of_place(place);
    signed_row(
        alloc,
        &[
            duty,
            number,
            whole(piece.block),
            whole(piece.index),
            whole(piece.from.typ),
            whole(piece.from.nr),
            Some(piece.begin.0),
            whole(piece.to.typ),
            whole(piece.to.nr),
            Some(piece.end.0),
            whole(piece.driving),
        ],
    )
}

/// Puts behind others the rows of the pieces of a duty.
fn add_parts(
    alloc: Global,
    rows: &mut Seq<Seq<Field>>,
    pieces: &[Piece],
    duty: usize,
    column: &Column,
) -> Result<(), Memory>
    requires pieces { All IsPiece pieces.now }
    requires duty { duty < 2 ^ 62 }
    ensures { OnOk result (rows.new ≡ rows.old ++ signed_rows (part_rows pieces.now (duty + 1) column.now)) }
{
    let items = column.items.as_slice();
    for (place, item) in items.iter().enumerate() {
        let piece = piece_at(pieces, *item);
        rows.push(part_row(alloc, duty, place, &piece)?)?;
    }
    Ok(())
}

/// The rows of X_DIENST_STUECK.
fn all_parts(alloc: Global, pieces: &[Piece], duties: &[Column]) -> Result<Seq<Seq<Field>>, Memory>
    requires pieces { All IsPiece pieces.now }
    ensures { IfOk result (λ rows. rows ≡ signed_rows (all_rows (part_rows pieces.now) 1 duties.now)) }
{
    let mut rows = Seq::new(alloc);
    for (duty, column) in duties.iter().enumerate() {
        add_parts(alloc, &mut rows, pieces, duty, column)?;
    }
    Ok(rows)
}

/// The table X_DIENST_STUECK of the pieces of duties: for each its duty, its number there from 1, its block and its index in the block,
/// where and when it begins and ends, and the seconds driven.
pub(crate) fn part_table(
    alloc: Global,
    pieces: &[Piece],
    duties: &[Column],
) -> Result<Table, Memory>
    requires pieces { All IsPiece pieces.now }
    ensures table { IfOk result (λ table. table ≡ part_table_of pieces.now duties.now) }
    ensures plain { IfOk result (λ table. is_plain_table table ≡ true) }
{
    let rows = all_parts(alloc, pieces, duties)?;
    number_table(
        alloc,
        "X_DIENST_STUECK",
        &[
            "DIENST_NR",
            "LFD_NR",
            "UM_UID",
            "STUECK_NR",
            "VON_TYP",
            "VON_NR",
            "BEGINN",
            "NACH_TYP",
            "NACH_NR",
            "ENDE",
            "LENKZEIT",
        ],
        rows,
    )
}
