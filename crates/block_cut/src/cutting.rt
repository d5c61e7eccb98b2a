//! The pieces of the blocks of a plan.

ghost use Rattle.std.specs.Prelude.{◌≡◌, ◌<◌, ◌≤◌, ◌++◌, All, AllPairs, IfOk, OnOk, length};
ghost use Rattle.plan_core.specs.Limits.{most_items};
ghost use Rattle.cover_core.specs.Cover.{Problem};
ghost use Rattle.cover_core.specs.Plans.{HasListedColumns, IsPlan, all_items};
ghost use Rattle.block_cut.specs.Cuts.{IsEarlier, IsShift, block_pieces, moment as moment_of, pieces_by_block, pieces_of_plan};
ghost use Rattle.plan_params.specs.Settings.{in_order as in_order_of};
ghost use Rattle.block_cut.specs.Legs.{HasWorth};

use crate::block::add_pieces;
use crate::leg_list::legs;
use cover_core::{Column, Plan};
use day_model::Day;
use plan_core::{Memory, Piece, Seq};
use std::alloc::Global;

/// Puts behind others the pieces of a block.
fn add_block(
    alloc: Global,
    pieces: &mut Seq<Piece>,
    day: &Day,
    number: u32,
    column: &Column,
) -> Result<(), Memory>
    requires worth { HasWorth day.now column.now }
    requires shifts { All IsShift pieces.old }
    ensures pieces { OnOk result (pieces.new ≡ pieces.old ++ block_pieces day.now number column.now) }
    ensures shifts { OnOk result (All IsShift pieces.new) }
{
    // The day has few trips, and so has a block: the day says so.
    let _ = day.trips();
    let legs = legs(alloc, day, column)?;
    let pool = &day.params().pools()[column.class as usize];
    add_pieces(pieces, day, pool, number, legs.as_slice())
}

/// The pieces of blocks that are numbered from 1, block after block.
fn pieces_of_blocks(alloc: Global, day: &Day, blocks: &[Column]) -> Result<Seq<Piece>, Memory>
    requires few { length blocks.now ≤ most_items }
    requires worths { All (HasWorth day.now) blocks.now }
    ensures pieces { IfOk result (λ pieces. pieces ≡ pieces_by_block day.now 1 blocks.now) }
    ensures shifts { IfOk result (λ pieces. All IsShift pieces) }
{
    let mut pieces = Seq::new(alloc);
    for (place, block) in blocks.iter().enumerate() {
        add_block(alloc, &mut pieces, day, place as u32 + 1, block)?;
    }
    Ok(pieces)
}

/// When a piece begins.
fn moment(piece: &Piece) -> u64
    ensures { result ≡ moment_of piece.now }
{
    piece.begin.0.unsigned_abs()
}

/// Pieces by their starts; of those that begin at one moment the earlier first.
fn in_order(pieces: Seq<Piece>) -> Result<Seq<Piece>, Memory>
    ensures { IfOk result (λ sorted. sorted ≡ in_order_of moment_of pieces) }
{
    let mut pieces = pieces.into_vec();
    pieces.sort_by_key(|piece| moment(piece))?;
    Ok(Seq::from_vec(pieces))
}

/// The pieces of the blocks of a plan, by start, of those that begin at one moment by block, and of those by index.
///
/// Blocks are numbered from 1 by their places in the plan, of which there are at most 3,000, and the pieces of a block from 1 in time
/// order. A block is cut at each stand of at least the handover time that lies at a relief point or at its pool's depot; the stand belongs
/// to no piece. Each block has a worth: its list of trips is a block of the pool of its class. `Memory` is the only error.
pub fn cut(alloc: Global, day: &Day, blocks: &Plan) -> Result<Seq<Piece>, Memory>
    requires few { length blocks.now.columns ≤ most_items }
    requires worths { All (HasWorth day.now) blocks.now.columns }
    ensures pieces { IfOk result (λ pieces. pieces ≡ pieces_of_plan day.now blocks.now.columns) }
    ensures order { IfOk result (λ pieces. AllPairs IsEarlier pieces) }

    // Each begins at 0 or later, ends not before that and within four days, and is driven no longer than it lasts.
    ensures shifts { IfOk result (λ pieces. All IsShift pieces) }

    // There are never more pieces than trips.
    ensures few { IfOk result (λ pieces. length pieces ≤ length (all_items blocks.now.columns)) }
    ensures plan { (p : Problem) → HasListedColumns p → IsPlan p blocks.now.columns → IfOk result (λ pieces. length pieces ≤ p.items) }
{
    let pieces = pieces_of_blocks(alloc, day, blocks.columns.as_slice())?;
    in_order(pieces)
}
