//! The marks of the open blocks of a day.
#![tactic(auto)]

ghost use Rattle.std.specs.Prelude.{◌≡◌, ◌≤◌, All, length};
ghost use Rattle.plan_core.specs.Limits.{most_items, most_kept_price};
ghost use Rattle.cover_core.specs.FirstLeast.{AllWithin};
ghost use Rattle.plan_params.specs.Limits.{IsPool};
ghost use Rattle.day_model.specs.Ranges.{IsDaily};
ghost use Rattle.depot_network.specs.BlockMarks.{block_marking};
ghost use Rattle.depot_network.specs.Network.{blocks};
ghost use Rattle.block_cover.specs.Seen.{AllWithin-prop, seen_mark};
ghost use Rattle.block_cover.specs.Laws.{marks-ordered, marks-placed, marks-tied};

use crate::made::OpenMark;
use crate::moves::{closed_value, first_made, next_made};
use cover_core::{BlockMark, Columns};
use depot_network::PoolNet;
use mark_cover::Marks;
use plan_core::Price;

/// The marks of the open blocks of a day under prices from -3,000,000,000,000,000 to 3,000,000,000,000,000, in thousandths of a cost unit.
/// Trips are items, pools are classes.
#[derive(Drop)]
pub struct BlockMarks<'n> {
    pub net: &'n PoolNet<'n>,
    pub prices: &'n [Price],
    ghost few: { length net.now.day.trips ≤ most_items },
    ghost daily: { All IsDaily net.now.day.trips },
    ghost ranges: { All IsPool net.now.day.params.pools },
    ghost moderate: { AllWithin most_kept_price prices.now } by { AllWithin-prop most_kept_price prices.now },
}

impl<'n> BlockMarks<'n> {
    /// The marks of the open blocks of a net under prices: one for each trip; a trip past them has price 0.
    pub fn new(net: &'n PoolNet<'n>, prices: &'n [Price]) -> BlockMarks<'n>
        requires { AllWithin most_kept_price prices.now }
        ensures net { result.net.now ≡ net.now }
        ensures prices { result.prices.now ≡ prices.now }
    {
        // Trips are few and daily, and settings are in their ranges: the day says so.
        let _ = net.day().trips();
        let _ = net.day().params();
        BlockMarks { net, prices }
    }
}

impl Marks for BlockMarks<'_> {
    type Mark = BlockMark;

    type Open = OpenMark;

    ghost marking = { λ s. block_marking s.net.now.day s.net.now.counts s.prices.now };

    ghost problem = { λ s. blocks s.net.now };

    ghost prices = { λ s. s.prices.now };

    ghost seen = { λ s. seen_mark };

    ghost ordered = { λ s. marks-ordered s.net.now.day s.net.now.counts s.prices.now };

    ghost placed = { λ s. marks-placed s.net.now.day s.net.now.counts s.prices.now };

    ghost tied = { λ s. marks-tied s.net.now.day s.net.now.counts s.prices.now };

    fn items(&self) -> u32 {
        self.net.items()
    }

    fn classes(&self) -> u32 {
        self.net.classes()
    }

    fn class_of(&self, mark: &BlockMark) -> u32 {
        mark.class
    }

    fn last(&self, mark: &BlockMark) -> u32 {
        mark.trip
    }

    fn first(&self, class: u32, item: u32) -> Option<OpenMark> {
        first_made(self.net.day(), self.net.counts(), self.prices, class, item)
    }

    fn next(&self, mark: &BlockMark, item: u32) -> Option<OpenMark> {
        next_made(self.net.day(), self.net.counts(), self.prices, mark, item)
    }

    fn close(&self, mark: &BlockMark) -> Option<i128> {
        closed_value(self.net.day(), self.net.counts(), mark)
    }

    fn is_as_good(&self, mark: &BlockMark, made: &OpenMark) -> bool {
        (mark.class == made.class && mark.trip == made.trip)
            && (u64::from(mark.driving) <= made.driving && mark.value as i128 <= made.value)
    }
}
