//! The network of a day with one pool.

ghost use Rattle.std.specs.Prelude.{◌≡◌, ◌≤◌, ◌+◌, ◌*◌, length};
ghost use Rattle.plan_core.specs.Limits.{most_items, most_places};
ghost use Rattle.depot_network.specs.Walk.{dear_of};
ghost use Rattle.one_pool_flow.specs.DayNets.{IsLaid};

use day_model::Day;
use path_cover::Arcs;
use plan_core::Seq;
use plan_params::Pool;

/// The arcs of a day with one pool, over the table of what they cost.
#[derive(Drop)]
pub(crate) struct DayArcs<'d> {
    pub day: &'d Day,
    pub pool: &'d Pool,
    pub rows: &'d [Seq<Option<u32>>],
    pub nodes: u32,
    ghost count: { nodes ≡ length day.now.trips },
    ghost few: { nodes ≤ most_items },
    ghost cap: { pool.now.cap ≤ most_places },
    ghost laid: { IsLaid day.now pool.now nodes (nodes + 1) rows.now },
    ghost cheap: { (nodes + 2) * dear_of pool.now ≤ 750000000000 },
}

impl Arcs for DayArcs<'_> {
    ghost use Rattle.one_pool_flow.specs.DayNets.{net_of};
    ghost use Rattle.one_pool_flow.specs.DayLaws.{day_cheap, day_rising};

    ghost net = { λ s. net_of s.day.now s.pool.now };

    ghost rising = { λ s. day_rising s.day.now s.pool.now };

    ghost cheap = { λ s. day_cheap s.day.now s.pool.now s.nodes s.rows.now s.count s.laid s.cheap };

    fn nodes(&self) -> u32 {
        self.nodes
    }

    fn most(&self) -> u32 {
        self.pool.cap
    }

    fn arc(&self, x: u32, v: u32) -> Option<u32> {
        self.rows[x as usize].as_slice()[v as usize]
    }
}
