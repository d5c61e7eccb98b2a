//! The pricer of blocks.

ghost use Rattle.std.specs.Prelude.{◌≡◌, ◌<◌, ◌≤◌, ◌*◌, IfOk, IfSome, Some, length, slice_get};
ghost use Rattle.plan_core.specs.Limits.{most_price, most_worth};
ghost use Rattle.cover_core.specs.Best.{best_of, within};
ghost use Rattle.cover_core.specs.FirstLeast.{AllWithin};
ghost use Rattle.plan_params.specs.Limits.{IsPool};
ghost use Rattle.depot_network.specs.Network.{blocks, caps_of};
ghost use Rattle.path_pricing.specs.Blocks.{AreBoundsFrom};

use crate::labels::BlockLabels;
use crate::rests::rests_from;
use cover_core::{Column, Columns, Pricer, Prices};
use depot_network::PoolNet;
use label_dive::{dive_from_least, likely};
use label_search::best_column;
use plan_core::{Memory, Price};
use plan_params::Pool;
use std::alloc::Global;
use std::marker::Model;

/// Finds the blocks of least value of a day. Only `best` takes memory.
#[derive(Drop)]
pub struct PathPricer<'n> {
    net: &'n PoolNet<'n>,
}

impl<'n> Model for PathPricer<'n> {
    ghost use Rattle.depot_network.specs.Network.{NetFacts};

    ghost Value = { NetFacts };

    ghost view = { λ pricer. pricer.net.now };
}

impl<'n> PathPricer<'n> {
    /// The blocks of a network, each with what it is worth there.
    pub fn new(net: &'n PoolNet<'n>) -> PathPricer<'n>
        ensures { result ≡ net.now }
    {
        PathPricer { net }
    }
}

impl Columns for PathPricer<'_> {
    ghost use Rattle.depot_network.specs.Network.{blocks};
    ghost use Rattle.depot_network.specs.Listed.{blocks_listed};

    ghost problem = { blocks };

    ghost listed = { blocks_listed };

    fn items(&self) -> u32 {
        self.net.items()
    }

    fn classes(&self) -> u32 {
        self.net.classes()
    }

    fn cap(&self, class: u32) -> u32 {
        self.net.cap(class)
    }

    fn worth(&self, class: u32, list: &[u32]) -> Option<u64> {
        self.net.worth(class, list)
    }
}

/// The best block of a pool and group within a limit, where no continuation behind a trip of the group or a later one adds less than its rest.
fn best_of_pool(
    alloc: Global,
    net: &PoolNet<'_>,
    class: u32,
    pool: Pool,
    prices: &[Price],
    rests: &[i64],
    group: u32,
    limit: i64,
) -> Result<Option<Column>, Memory>
    requires class { class < length (caps_of net.now.day.params.pools) }
    requires there { slice_get net.now.day.params.pools class ≡ Some pool }
    requires ranges { IsPool pool }
    requires moderate { AllWithin most_price prices.now }
    requires group { 16 * group < length net.now.day.trips }
    requires bounds { AreBoundsFrom net.now.day net.now.counts prices.now pool rests.now (16 * group) }
    ensures best { IfOk result (λ answer. answer ≡ within limit prices.now (best_of (blocks net.now) prices.now class group)) }
    ensures bound { IfOk result (λ answer. IfSome answer (λ column. column.worth ≤ most_worth)) }
{
    // Trips are few and daily: the day says so.
    let _ = net.day().trips();
    let labels = BlockLabels {
        net,
        class,
        pool,
        prices,
        rests,
        first: 16 * group,
        end: 16 * group + 16,
    };
    let likely = likely(dive_from_least(&labels, limit), limit, [0, 33]);
    best_column(alloc, net, &labels, class, &likely, limit)
}

impl Pricer for PathPricer<'_> {
    fn best(
        &self,
        alloc: Global,
        class: u32,
        prices: &Prices,
        group: u32,
        limit: i64,
    ) -> Result<Option<Column>, Memory> {
        let prices = prices.items.as_slice();
        let pool = self.net.day().params().pools()[class as usize];
        // Trips are few: the day says so.
        let _ = self.net.day().trips();
        let rests = rests_from(alloc, self.net, class, &pool, prices, 16 * group)?;
        best_of_pool(
            alloc,
            self.net,
            class,
            pool,
            prices,
            rests.as_slice(),
            group,
            limit,
        )
    }
}
