//! The table of legs.

ghost use Rattle.std.specs.Prelude.{◌≡◌, ◌<◌, ◌≤◌, ◌^◌, ◌+◌, ◌++◌, true, All, IfOk, IfSome, OnOk, length, pos};
ghost use Rattle.std.specs.Option.{option_map};
ghost use Rattle.vdv451_text.specs.Plain.{is_plain_table};
ghost use Rattle.number_tables.specs.Signed.{signed_row as row_of, signed_rows};
ghost use Rattle.umlauf_write.specs.Answers.{all_rows, fid_of as fid_of_spec, kind_number as kind_number_of, leg_numbers, leg_rows, leg_table as leg_table_of, whole as whole_of};

use day_model::Day;
use number_tables::{number_table, signed_row};
use plan_core::{Leg, LegKind, Memory, Seq};
use std::alloc::Global;
use trip_times::Trip;
use vdv451_text::{Field, Table};

/// A whole number for a field.
pub(crate) fn whole(number: u32) -> Option<i64>
    ensures { result ≡ whole_of number }
{
    Some(i64::from(number))
}

/// A place that counts from 1, for a field.
pub(crate) fn number_of_place(place: usize) -> Option<i64>
    requires { place < 2 ^ 62 }
    ensures { result ≡ whole_of (place + 1) }
{
    Some(place as i64 + 1)
}

/// The number of a kind of leg (ART).
fn kind_number(kind: LegKind) -> u32
    ensures { result ≡ kind_number_of kind }
{
    match kind {
        LegKind::PullOut => 1,
        LegKind::Trip => 2,
        LegKind::Deadhead => 3,
        LegKind::Stand => 4,
        LegKind::PullIn => 5,
    }
}

/// The number (FRT_FID) of a leg's trip, for a field.
fn fid_of(trips: &[Trip], number: Option<u32>) -> Option<i64>
    requires { All (λ trip. trip.fid ≤ 10 ^ 18) trips.now }
    ensures { result ≡ option_map (λ fid. pos fid) (fid_of_spec trips.now number) }
{
    let number = number? as usize;
    if number < trips.len() {
        Some(trips[number].fid as i64)
    } else {
        None
    }
}

/// The row of a leg.
fn leg_row(
    alloc: Global,
    trips: &[Trip],
    block: usize,
    place: usize,
    leg: &Leg,
) -> Result<Seq<Field>, Memory>
    requires fids { All (λ trip. trip.fid ≤ 10 ^ 18) trips.now }
    requires block { block < 2 ^ 62 }
    requires place { place < 2 ^ 62 }
    ensures { IfOk result (λ row. row ≡ row_of (leg_numbers trips.now (block + 1) (place + 1) leg.now)) }
{
    let block = number_of_place(block);
    let number = number_of_place(place);
    let fid = fid_of(trips, leg.trip);
    signed_row(
        alloc,
        &[
            block,
            number,
            whole(kind_number(leg.kind)),
            fid,
            whole(leg.from.typ),
            whole(leg.from.nr),
            Some(leg.begin.0),
            whole(leg.to.typ),
            whole(leg.to.nr),
            Some(leg.end.0),
        ],
    )
}

/// Puts behind others the rows of the legs of a block.
fn add_legs(
    alloc: Global,
    rows: &mut Seq<Seq<Field>>,
    trips: &[Trip],
    block: usize,
    legs: &[Leg],
) -> Result<(), Memory>
    requires fids { All (λ trip. trip.fid ≤ 10 ^ 18) trips.now }
    requires block { block < 2 ^ 62 }
    ensures { OnOk result (rows.new ≡ rows.old ++ signed_rows (leg_rows trips.now (block + 1) legs.now)) }
{
    for (place, leg) in legs.iter().enumerate() {
        rows.push(leg_row(alloc, trips, block, place, leg)?)?;
    }
    Ok(())
}

/// The rows of the legs of all blocks.
fn all_legs(alloc: Global, trips: &[Trip], blocks: &[Seq<Leg>]) -> Result<Seq<Seq<Field>>, Memory>
    requires fids { All (λ trip. trip.fid ≤ 10 ^ 18) trips.now }
    ensures { IfOk result (λ rows. rows ≡ signed_rows (all_rows (leg_rows trips.now) 1 blocks.now)) }
{
    let mut rows = Seq::new(alloc);
    for (block, legs) in blocks.iter().enumerate() {
        add_legs(alloc, &mut rows, trips, block, legs.as_slice())?;
    }
    Ok(rows)
}

/// The table X_UMLAUF_TEIL of the legs of blocks, which are numbered from 1: for each its number in the block from 1, its kind, its trip,
/// where and when it begins, and where and when it ends.
pub(crate) fn leg_table(alloc: Global, day: &Day, legs: &[Seq<Leg>]) -> Result<Table, Memory>
    requires fids { All (λ trip. trip.fid ≤ 10 ^ 18) day.now.trips }
    ensures table { IfOk result (λ table. table ≡ leg_table_of day.now legs.now) }
    ensures plain { IfOk result (λ table. is_plain_table table ≡ true) }
{
    let rows = all_legs(alloc, day.trips(), legs)?;
    number_table(
        alloc,
        "X_UMLAUF_TEIL",
        &[
            "UM_UID", "TEIL_NR", "ART", "FRT_FID", "VON_TYP", "VON_NR", "BEGINN", "NACH_TYP",
            "NACH_NR", "ENDE",
        ],
        rows,
    )
}
