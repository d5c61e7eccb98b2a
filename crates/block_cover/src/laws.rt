//! What a cover of blocks shows.
#![tactic(auto)]

ghost use Rattle.std.specs.Prelude.{Bool, List};
ghost use Rattle.plan_core.specs.declared.Price.{Price};
ghost use Rattle.day_model.specs.Facts.{DayFacts};
ghost use Rattle.mark_cover.specs.Covers.{CoverIsPaid};
ghost use Rattle.depot_network.specs.BlockMarks.{block_marking};
ghost use Rattle.depot_network.specs.Network.{blocks_of};

/// A cover of the blocks of a day with class prices of at least 0 implies that prices are paid over all blocks of the day: no block has a
/// value below minus its class price. It holds of every list of marks, whoever made them, and of every list of prices.
pub fn block_cover_is_paid()
    ensures { (day : DayFacts) (counts : Bool) (prices : List Price) → CoverIsPaid (block_marking day counts prices) (blocks_of day counts) prices }
{}
