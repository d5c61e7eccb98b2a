//! The blocks of a day as columns.

ghost use Rattle.std.specs.Prelude.{◌≡◌, true, IfSome};
ghost use Rattle.cover_core.specs.declared.Worth.TheVariants.{Count};
ghost use Rattle.depot_network.specs.Network.{is_count};

use crate::cost::block_worth;
use cover_core::{Columns, Worth};
use day_model::Day;
use std::marker::Model;

/// The blocks of a day: lists of trips with what they are worth in each pool. A list has a worth as a block of a pool where it is not
/// empty and rises by number, each trip's line admits the pool's type of vehicles, the pull-out leaves at 0 or later, the pull-in is
/// there, neighbours have connections, and each piece that its legs are cut into has a driving of at most 16,200 seconds.
#[derive(Drop)]
pub struct PoolNet<'d> {
    day: &'d Day,
    worth: Worth,
}

impl<'d> Model for PoolNet<'d> {
    ghost use Rattle.depot_network.specs.Network.{NetFacts, is_count};

    ghost Value = { NetFacts };

    ghost view = { λ net. record { day = net.day.now; counts = is_count net.worth } };
}

impl<'d> PoolNet<'d> {
    /// The blocks of a day, each worth its cost, or 1 where blocks are counted. It takes no memory.
    pub fn new(day: &'d Day, worth: Worth) -> PoolNet<'d>
        ensures day { result.day ≡ day.now }
        ensures counts { result.counts ≡ is_count worth }
    {
        PoolNet { day, worth }
    }

    /// The day.
    pub fn day(&self) -> &Day
        ensures { result.now ≡ self.now.day }
    {
        self.day
    }

    /// Whether blocks are counted: each is worth 1.
    pub fn counts(&self) -> bool
        ensures { result ≡ self.now.counts }
    {
        self.worth == Worth::Count
    }
}

impl Columns for PoolNet<'_> {
    ghost use Rattle.depot_network.specs.Network.{blocks};
    ghost use Rattle.depot_network.specs.Listed.{blocks_listed};

    ghost problem = { blocks };

    ghost listed = { blocks_listed };

    /// The trips of the day.
    fn items(&self) -> u32 {
        self.day.trips().len() as u32
    }

    /// The pools, by HOF_NR.
    fn classes(&self) -> u32 {
        // Trips are daily, so their blocks are worth little: the day says so.
        let _ = self.day.trips();
        self.day.params().pools().len() as u32
    }

    /// How many vehicles a pool has (ANZAHL).
    fn cap(&self, class: u32) -> u32 {
        self.day.params().pools()[class as usize].cap
    }

    /// The worth of a list of trips as a block of a pool: its cost, or 1 where blocks are counted. The cost is the pool's fixed cost, plus
    /// its deadhead rate times all deadhead seconds, plus its standing rate times the seconds of stands of direct connections at points
    /// other than the depot point. It takes no memory.
    fn worth(&self, class: u32, list: &[u32]) -> Option<u64> {
        block_worth(self.day, self.worth, class, list)
    }
}
