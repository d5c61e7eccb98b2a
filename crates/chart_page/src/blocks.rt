//! The chart of the blocks: their legs as bars, by pool.
#![tactic(auto, using(crate::proofs::PageLemmas::page_steps))]

ghost use Rattle.std.specs.Prelude.{◌≡◌, ◌++◌, OnOk, IfOk, map};
ghost use Rattle.std.specs.List.{enumerate_from};
ghost use Rattle.chart_page.specs.Blocks as spec;
ghost use Rattle.chart_page.specs.Layout.{lanes_by};
ghost use Rattle.chart_page.specs.Parts.{written};

use crate::frame::{push_ends, push_frame, push_label_open, push_scale, push_share};
use crate::layout::{Hours, Lane, lane_at, lanes_of};
use crate::marks::Mark;
use crate::parts::{Bar, BarKind, Part, push_parts};
use plan_core::{LegKind, Memory, Seq};
use plan_rows::{BlockRow, BlockSheet, LegRow, TripRow, VehicleRow};
use std::alloc::{AllocError, Global};
use vdv451_text::Table;

fn bar_kind(kind: LegKind) -> BarKind
    ensures { result ≡ spec.bar_kind kind }
{
    match kind {
        LegKind::PullOut => BarKind::PullOut,
        LegKind::Trip => BarKind::Trip,
        LegKind::Deadhead => BarKind::Deadhead,
        LegKind::Stand => BarKind::Stand,
        LegKind::PullIn => BarKind::PullIn,
    }
}

/// The words for a leg that is no trip.
fn kind_words(kind: LegKind) -> Mark
    ensures { result ≡ spec.kind_words kind }
{
    match kind {
        LegKind::PullOut => Mark::PullOutTitle,
        LegKind::Trip => Mark::TripTitle,
        LegKind::Deadhead => Mark::DeadheadTitle,
        LegKind::Stand => Mark::StandTitle,
        LegKind::PullIn => Mark::PullInTitle,
    }
}

/// The bar of a leg: from its start to its end, in the lane of its block.
fn leg_bar(lanes: &[Lane], leg: &LegRow) -> Bar
    ensures { result ≡ spec.leg_bar lanes.now leg.now }
{
    Bar {
        kind: bar_kind(leg.work.kind),
        left: leg.ends.span.begin,
        right: leg.ends.span.end,
        lane: lane_at(lanes, leg.block.place).place,
    }
}

/// The trip at a place.
#[tactic(auto)]
fn trip_at(trips: &[TripRow], place: usize) -> TripRow
    ensures { result ≡ spec.trip_at trips.now place }
{
    match trips.get(place) {
        Some(trip) => *trip,
        None => TripRow { fid: 0, line: 0 },
    }
}

/// What names a leg.
fn push_leg_name(
    out: &mut Vec<u8>,
    table: &Table,
    trips: &[TripRow],
    leg: &LegRow,
) -> Result<(), Memory>
    ensures { OnOk result (out.new.items ≡ out.old.items ++ written table.now (spec.leg_name trips.now leg.now)) }
{
    match leg.work.trip {
        Some(place) => {
            let trip = trip_at(trips, place);
            push_parts(
                out,
                table,
                &[
                    Part::Own(Mark::DataTrip),
                    Part::Number(trip.fid),
                    Part::Own(Mark::TripTitle),
                    Part::Number(trip.fid),
                    Part::Own(Mark::OfLine),
                    Part::Number(trip.line as u64),
                    Part::Own(Mark::Blank),
                    Part::Variant(place),
                    Part::Own(Mark::Colon),
                ],
            )
        }
        None => push_parts(
            out,
            table,
            &[Part::Own(kind_words(leg.work.kind)), Part::Own(Mark::Colon)],
        ),
    }
}

/// The number of a leg and of its block.
fn push_leg_place(out: &mut Vec<u8>, table: &Table, leg: &LegRow) -> Result<(), Memory>
    ensures { OnOk result (out.new.items ≡ out.old.items ++ written table.now (spec.leg_place leg.now)) }
{
    push_parts(
        out,
        table,
        &[
            Part::Own(Mark::InBlock),
            Part::Number(leg.block.number as u64),
            Part::Own(Mark::LegNumber),
            Part::Number(leg.number as u64),
            Part::Own(Mark::TitleClose),
        ],
    )
}

/// The numbers within the bar of a trip.
fn push_trip_label(
    out: &mut Vec<u8>,
    table: &Table,
    trip: TripRow,
    place: usize,
) -> Result<(), Memory>
    ensures { OnOk result (out.new.items ≡ out.old.items ++ written table.now (spec.trip_label trip place)) }
{
    push_parts(
        out,
        table,
        &[
            Part::Number(trip.fid),
            Part::Own(Mark::LabelNext),
            Part::Number(trip.line as u64),
            Part::Own(Mark::Blank),
            Part::Variant(place),
            Part::Own(Mark::LabelClose),
        ],
    )
}

fn push_leg_label(
    out: &mut Vec<u8>,
    table: &Table,
    trips: &[TripRow],
    lanes: &[Lane],
    leg: &LegRow,
) -> Result<(), Memory>
    ensures { OnOk result (out.new.items ≡ out.old.items ++ written table.now (spec.leg_label trips.now lanes.now leg.now)) }
{
    match leg.work.trip {
        Some(place) => {
            let lane = lane_at(lanes, leg.block.place).place;
            push_label_open(out, table, leg.ends.span, lane)?;
            push_trip_label(out, table, trip_at(trips, place), place)
        }
        None => push_parts(out, table, &[]),
    }
}

/// A leg as a bar with its words.
fn push_leg(
    out: &mut Vec<u8>,
    table: &Table,
    trips: &[TripRow],
    lanes: &[Lane],
    leg: &LegRow,
) -> Result<(), Memory>
    ensures { OnOk result (out.new.items ≡ out.old.items ++ written table.now (spec.leg_parts trips.now lanes.now leg.now)) }
{
    push_parts(out, table, &[Part::Shape(leg_bar(lanes, leg))])?;
    push_leg_name(out, table, trips, leg)?;
    push_ends(out, table, leg.ends)?;
    push_leg_place(out, table, leg)?;
    push_leg_label(out, table, trips, lanes, leg)
}

fn push_legs(
    out: &mut Vec<u8>,
    table: &Table,
    trips: &[TripRow],
    lanes: &[Lane],
    legs: &[LegRow],
) -> Result<(), Memory>
    ensures { OnOk result (out.new.items ≡ out.old.items ++ spec.legs_text table.now trips.now lanes.now legs.now) }
{
    for leg in legs {
        push_leg(out, table, trips, lanes, leg)?;
    }
    Ok(())
}

/// The first vehicle row of a block.
fn vehicle_of(vehicles: &[VehicleRow], number: u32) -> Option<u32>
    ensures { result ≡ spec.vehicle_of vehicles.now number }
{
    match vehicles.iter().find(|vehicle| vehicle.number == number) {
        Some(vehicle) => Some(vehicle.typ),
        None => None,
    }
}

/// The type of a vehicle, where there is one.
fn typ_part(typ: Option<u32>) -> Part
    ensures { result ≡ spec.typ_part typ }
{
    match typ {
        Some(typ) => Part::Number(typ as u64),
        None => Part::Own(Mark::NoVehicle),
    }
}

/// The name of a block beside its lane.
fn push_block_name(
    out: &mut Vec<u8>,
    table: &Table,
    vehicles: &[VehicleRow],
    block: &BlockRow,
    lane: Lane,
) -> Result<(), Memory>
    ensures { OnOk result (out.new.items ≡ out.old.items ++ written table.now (spec.block_name vehicles.now block.now lane)) }
{
    let typ = typ_part(vehicle_of(vehicles, block.number));
    push_parts(
        out,
        table,
        &[
            Part::Own(Mark::NameOpen),
            Part::Number(lane.place as u64),
            Part::Own(Mark::BlockName),
            Part::Number(block.number as u64),
            Part::Own(Mark::Cost),
            Part::Number(block.cost),
            Part::Own(Mark::TextClose),
            Part::Own(Mark::NameOpen),
            Part::Number(lane.place as u64),
            Part::Own(Mark::VehicleName),
            typ,
            Part::Own(Mark::TextClose),
        ],
    )
}

fn push_block(
    out: &mut Vec<u8>,
    table: &Table,
    vehicles: &[VehicleRow],
    block: &BlockRow,
    lane: Lane,
) -> Result<(), Memory>
    ensures { OnOk result (out.new.items ≡ out.old.items ++ written table.now (spec.block_parts vehicles.now block.now lane)) }
{
    push_share(out, table, Mark::PoolBegin, block.pool, lane)?;
    push_block_name(out, table, vehicles, block, lane)
}

fn push_blocks(
    out: &mut Vec<u8>,
    table: &Table,
    vehicles: &[VehicleRow],
    lanes: &[Lane],
    blocks: &[BlockRow],
) -> Result<(), Memory>
    ensures { OnOk result (out.new.items ≡ out.old.items ++ spec.blocks_text table.now vehicles.now lanes.now blocks.now) }
{
    for (place, block) in blocks.iter().enumerate() {
        push_block(out, table, vehicles, block, lane_at(lanes, place))?;
    }
    Ok(())
}

fn pools_of(alloc: Global, blocks: &[BlockRow]) -> Result<Vec<u32>, AllocError>
    ensures { IfOk result (λ pools. pools.items ≡ spec.pools_of blocks.now) }
{
    blocks.iter().map(|block| block.pool).collect(alloc)
}

/// The lanes of the blocks, by pool.
fn block_lanes(alloc: Global, sheet: &BlockSheet) -> Result<Seq<Lane>, Memory>
    ensures { IfOk result (λ lanes. lanes ≡ lanes_by (spec.pools_of sheet.now.blocks)) }
{
    let pools = pools_of(alloc, sheet.blocks.as_slice())?;
    lanes_of(alloc, pools.as_slice())
}

/// The bars of the legs and the names of the blocks, in lanes.
fn push_lanes(
    out: &mut Vec<u8>,
    table: &Table,
    sheet: &BlockSheet,
    lanes: &[Lane],
    hours: Hours,
    starts: &[u32],
) -> Result<(), Memory>
    ensures { OnOk result (out.new.items ≡ out.old.items ++ written table.now (spec.inner_parts sheet.now lanes.now hours starts.now)) }
{
    let trips = sheet.trips.as_slice();
    let legs = sheet.legs.as_slice();
    push_legs(out, table, trips, lanes, legs)?;
    push_scale(out, table, hours, starts, sheet.blocks.len())?;
    push_blocks(
        out,
        table,
        sheet.vehicles.as_slice(),
        lanes,
        sheet.blocks.as_slice(),
    )
}

/// The chart of the blocks.
pub(crate) fn push_block_chart(
    alloc: Global,
    out: &mut Vec<u8>,
    table: &Table,
    sheet: &BlockSheet,
    hours: Hours,
    starts: &[u32],
) -> Result<(), Memory>
    ensures { OnOk result (out.new.items ≡ out.old.items ++ written table.now (spec.chart_parts sheet.now hours starts.now)) }
{
    let lanes = block_lanes(alloc, sheet)?;
    push_frame(out, table, hours, starts, sheet.blocks.len())?;
    push_lanes(out, table, sheet, lanes.as_slice(), hours, starts)?;
    push_parts(out, table, &[Part::Own(Mark::ChartClose)])
}
