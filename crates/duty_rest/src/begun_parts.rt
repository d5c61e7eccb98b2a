//! The parts of the earlier plan that stand for begun pieces.

ghost use Rattle.std.specs.Prelude.{◌≡◌, IfOk};
ghost use Rattle.duty_rest.specs.Heads as spec;

use cover_core::Column;
use plan_core::{Memory, Piece, Seq};
use std::alloc::Global;

/// A part of a duty: the number of a block, from 1, and an index in it.
pub(crate) type Part = (u64, u32);

/// The first trip of a block.
fn first_trip(block: &Column) -> Option<u32>
    ensures { result ≡ spec.first_trip block.now }
{
    block.items.as_slice().first().copied()
}

/// Whether a block begins with a trip.
fn begins_with(trip: u32, block: &Column) -> bool
    ensures { result ≡ spec.begins_with trip block.now }
{
    match first_trip(block) {
        None => false,
        Some(first) => first == trip,
    }
}

/// The number of the first block that begins with a trip, from 1.
fn block_with(blocks: &[Column], trip: u32) -> Option<u64>
    ensures { result ≡ spec.block_with blocks.now 1 trip }
{
    let mut number: u64 = 1;
    for block in blocks {
        if begins_with(trip, block) {
            return Some(number);
        }
        number += 1;
    }
    None
}

/// The first trip of the block of a number, from 1.
fn first_of(blocks: &[Column], number: u32) -> Option<u32>
    ensures { result ≡ spec.first_of blocks.now number }
{
    if number == 0 {
        return None;
    }
    match blocks.get(number as usize - 1) {
        None => None,
        Some(block) => first_trip(block),
    }
}

/// The part of the earlier plan that stands for a piece of the new blocks.
fn part_of(blocks: &[Column], earlier: &[Column], piece: &Piece) -> Option<Part>
    ensures { result ≡ spec.part_of blocks.now earlier.now piece.now }
{
    let trip = first_of(blocks, piece.block)?;
    let number = block_with(earlier, trip)?;
    Some((number, piece.index))
}

/// The same where the piece begins before the moment.
fn begun_part(blocks: &[Column], earlier: &[Column], moment: u32, piece: &Piece) -> Option<Part>
    ensures { result ≡ spec.begun_part blocks.now earlier.now moment piece.now }
{
    if piece.begin.0 < i64::from(moment) {
        part_of(blocks, earlier, piece)
    } else {
        None
    }
}

/// For each piece of the new blocks that has begun before a moment the part of the earlier plan that stands for it.
pub(crate) fn begun_parts(
    alloc: Global,
    blocks: &[Column],
    earlier: &[Column],
    moment: u32,
    pieces: &[Piece],
) -> Result<Seq<Option<Part>>, Memory>
    ensures { IfOk result (λ parts. parts ≡ spec.begun_parts blocks.now earlier.now moment pieces.now) }
{
    let mut parts = Seq::new(alloc);
    for piece in pieces {
        parts.push(begun_part(blocks, earlier, moment, piece))?;
    }
    Ok(parts)
}
