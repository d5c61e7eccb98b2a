//! Where bars lie: the hours of a chart, and the lanes of blocks and duties.

ghost use Rattle.std.specs.Prelude.{◌≡◌, ◌≤◌, IfOk};
ghost use Rattle.chart_page.specs.Layout as spec;

use plan_core::{Memory, Seq};
use plan_rows::{DutyRow, LegRow, PieceRow, Sheet};
use std::alloc::{AllocError, Global};

/// The hours that a chart shows, counted from 280 hours before the day's midnight.
#[derive(Clone, Copy)]
pub struct Hours {
    /// The first hour.
    pub first: u32,
    /// How many hours there are.
    pub count: u32,
}

/// A lane of a chart.
#[derive(Clone, Copy)]
pub struct Lane {
    /// Its place from the top, from 0.
    pub place: usize,
    /// Whether it is the first of its pool or group.
    pub is_first: bool,
}

fn first_of_legs(legs: &[LegRow], least: u32) -> u32
    ensures { result ≡ spec.first_of_legs legs.now least }
{
    legs.iter()
        .fold(least, |least, leg| least.min(leg.ends.span.begin))
}

fn last_of_legs(legs: &[LegRow], greatest: u32) -> u32
    ensures { result ≡ spec.last_of_legs legs.now greatest }
{
    legs.iter()
        .fold(greatest, |greatest, leg| greatest.max(leg.ends.span.end))
}

fn first_of_duties(duties: &[DutyRow], least: u32) -> u32
    ensures { result ≡ spec.first_of_duties duties.now least }
{
    duties
        .iter()
        .fold(least, |least, duty| least.min(duty.span.begin))
}

fn last_of_duties(duties: &[DutyRow], greatest: u32) -> u32
    ensures { result ≡ spec.last_of_duties duties.now greatest }
{
    duties
        .iter()
        .fold(greatest, |greatest, duty| greatest.max(duty.span.end))
}

fn first_of_pieces(pieces: &[PieceRow], least: u32) -> u32
    ensures { result ≡ spec.first_of_pieces pieces.now least }
{
    pieces
        .iter()
        .fold(least, |least, piece| least.min(piece.ends.span.begin))
}

fn last_of_pieces(pieces: &[PieceRow], greatest: u32) -> u32
    ensures { result ≡ spec.last_of_pieces pieces.now greatest }
{
    pieces.iter().fold(
        greatest,
        |greatest, piece| greatest.max(piece.ends.span.end),
    )
}

/// The hours between a first and a last moment.
fn hours_between(first: u32, last: u32) -> Hours
    ensures value { result ≡ spec.hours_between first last }
    ensures first { result.first ≤ 2000000 }
    ensures count { result.count ≤ 2000000 }
{
    let first = first / 3_600;
    Hours {
        first,
        count: (last / 3_600 + 1).saturating_sub(first),
    }
}

/// The hours from the first start to the last end of anything in a plan.
pub(crate) fn hours_of(sheet: &Sheet) -> Hours
    ensures value { result ≡ spec.hours_of sheet.now }
    ensures first { result.first ≤ 2000000 }
    ensures count { result.count ≤ 2000000 }
{
    let legs = sheet.blocks.legs.as_slice();
    let duties = sheet.duties.duties.as_slice();
    let pieces = sheet.duties.pieces.as_slice();
    let first = first_of_pieces(
        pieces,
        first_of_duties(duties, first_of_legs(legs, u32::MAX)),
    );
    let last = last_of_pieces(pieces, last_of_duties(duties, last_of_legs(legs, 0)));
    hours_between(first, last)
}

fn count_below(keys: &[u32], key: u32) -> usize
    ensures { result ≡ spec.count_below keys.now key }
{
    keys.iter().filter(|other| **other < key).count()
}

fn count_before(keys: &[u32], key: u32, place: usize) -> usize
    ensures { result ≡ spec.count_before keys.now key place }
{
    keys.iter()
        .take(place)
        .filter(|other| **other == key)
        .count()
}

/// The lane of the key at a place: by keys, and then by places.
fn lane_of(keys: &[u32], place: usize, key: u32) -> Lane
    ensures { result ≡ spec.lane_of keys.now place key }
{
    let below = count_below(keys, key);
    let before = count_before(keys, key, place);
    Lane {
        place: below + before,
        is_first: before == 0,
    }
}

fn lanes_by(alloc: Global, keys: &[u32]) -> Result<Vec<Lane>, AllocError>
    ensures { IfOk result (λ lanes. lanes.items ≡ spec.lanes_by keys.now) }
{
    keys.iter()
        .enumerate()
        .map(|(place, key)| lane_of(keys, place, *key))
        .collect(alloc)
}

/// The lanes of rows with these keys, such as their pools or groups.
pub(crate) fn lanes_of(alloc: Global, keys: &[u32]) -> Result<Seq<Lane>, Memory>
    ensures { IfOk result (λ lanes. lanes ≡ spec.lanes_by keys.now) }
{
    Ok(Seq::from_vec(lanes_by(alloc, keys)?))
}

/// The lane at a place.
pub(crate) fn lane_at(lanes: &[Lane], place: usize) -> Lane
    ensures { result ≡ spec.lane_at lanes.now place }
{
    match lanes.get(place) {
        Some(lane) => *lane,
        None => Lane {
            place: 0,
            is_first: false,
        },
    }
}
