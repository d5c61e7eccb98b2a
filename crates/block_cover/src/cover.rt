//! Covers of the blocks of a day, made and tested.
#![tactic(auto)]

ghost use Rattle.std.specs.Prelude.{◌≡◌, ◌<◌, IfErr, IfNone, IfOk, IfSome, None, OnOk, length};
ghost use Rattle.plan_core.specs.Limits.{most_kept_price};
ghost use Rattle.cover_core.specs.FirstLeast.{AllWithin};
ghost use Rattle.mark_cover.specs.Covers.{IsFirstGap, IsMarkCover};
ghost use Rattle.mark_cover.specs.Minimal.{AreMinimal};
ghost use Rattle.mark_cover.specs.Searches.{AreThere};
ghost use Rattle.depot_network.specs.BlockMarks.{block_marking};
ghost use Rattle.depot_network.specs.Network.{blocks};
ghost use Rattle.unpaid_list.specs.Unpaid.{AreClassesPaid, IsUnpaidCause};
ghost use Rattle.block_cover.specs.Seen.{mark_order};

use crate::marks::BlockMarks;
use cover_core::{BlockCover, CoverFault, Gap, Prices};
use depot_network::PoolNet;
use mark_cover::first_gap;
use std::alloc::Global;
use unpaid_list::least_cover;

/// The least cover of the blocks of a day under prices and class prices: the marks of all open blocks to which no other mark is at least
/// as good, each once, sorted by the fields in their order. It is a cover, and so all blocks are paid.
///
/// There is a price for each trip, from -3,000,000,000,000,000 to 3,000,000,000,000,000 thousandths of a cost unit; values are computed in
/// 128 bits. Class prices may be any, and a class past them has price 0. It takes the time of making all marks; where a block is unpaid,
/// that of a search with dominance and no completion bound more.
///
/// # Errors
///
/// `Unpaid` exactly where a block has a value below minus the price of its class: with the first least of the first such class. `Memory`
/// where memory runs out.
pub fn make_block_cover(
    alloc: Global,
    net: &PoolNet<'_>,
    prices: &Prices,
    class_prices: &[i64],
) -> Result<BlockCover, CoverFault>
    requires { AllWithin most_kept_price prices.now.items }
    ensures minimal { IfOk result (λ cover. AreMinimal (block_marking net.now.day net.now.counts prices.now.items) mark_order cover.marks) }
    ensures cover { IfOk result (λ cover. IsMarkCover (block_marking net.now.day net.now.counts prices.now.items) cover.marks class_prices.now) }
    ensures paid { OnOk result (AreClassesPaid (blocks net.now) prices.now.items class_prices.now (length (blocks net.now).caps)) }
    ensures unpaid { IfErr result (λ fault. IsUnpaidCause (blocks net.now) prices.now.items class_prices.now fault) }
{
    let marks = BlockMarks::new(net, prices.items.as_slice());
    match least_cover(alloc, net, &marks, class_prices) {
        Ok(marks) => Ok(BlockCover { marks }),
        Err(fault) => Err(fault),
    }
}

/// The first place where marks are no cover of the blocks of a day, by prices and class prices: an open block of one trip to which no mark
/// is at least as good as its own, an open extension of a mark by a later trip to which none is, or a mark whose block can be driven in
/// and closes with a value below minus the price of its class. In this order of kinds, and of a kind the first by its numbers; `piece` of
/// the gap is the trip's number. None exactly where the marks are a cover.
///
/// There are fewer than 2^32 marks, and their classes and trips are there; all else may come from anywhere. Prices are from
/// -3,000,000,000,000,000 to 3,000,000,000,000,000 thousandths of a cost unit; values are computed in 128 bits. It takes no memory, and is
/// fast where the marks stand by class and trip.
pub fn first_block_gap(
    cover: &BlockCover,
    net: &PoolNet<'_>,
    prices: &Prices,
    class_prices: &[i64],
) -> Option<Gap>
    requires moderate { AllWithin most_kept_price prices.now.items }
    requires there { AreThere (block_marking net.now.day net.now.counts prices.now.items) cover.now.marks }
    requires few { length cover.now.marks < 4294967296 }
    ensures first { IfSome result (λ gap. IsFirstGap (block_marking net.now.day net.now.counts prices.now.items) cover.now.marks class_prices.now gap) }
    ensures none { IfNone result (IsMarkCover (block_marking net.now.day net.now.counts prices.now.items) cover.now.marks class_prices.now) }
    ensures onto { IsMarkCover (block_marking net.now.day net.now.counts prices.now.items) cover.now.marks class_prices.now → result ≡ None }
{
    let marks = BlockMarks::new(net, prices.items.as_slice());
    first_gap(&marks, cover.marks.as_slice(), class_prices)
}
