//! What holds of the blocks of every day. The function does nothing: its contract is the theorem.

ghost use Rattle.std.specs.Prelude.{false, true};
ghost use Rattle.cover_core.specs.Laws.{IsCountOf};
ghost use Rattle.day_model.specs.Facts.{DayFacts};
ghost use Rattle.depot_network.specs.Network.{blocks_of};

/// Blocks that are counted are those that have costs: the trips and the pools' vehicles are the same, and each list that has a cost is
/// worth 1. So a bound on the number of columns that is made of counted blocks holds of each plan of blocks with costs.
pub fn counted_blocks()
    ensures { (day : DayFacts) → IsCountOf (blocks_of day false) (blocks_of day true) }
{}
