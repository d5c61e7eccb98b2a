//! The rest of the blocks of a day.

ghost use Rattle.std.specs.Prelude.{◌≡◌, ◌<◌, ◌≤◌, IfOk, IfSome, length};
ghost use Rattle.plan_core.specs.Limits.{most_items, most_worth};
ghost use Rattle.cover_core.specs.Cover.{AllBelow};
ghost use Rattle.cover_core.specs.Plans.{AreColumns};
ghost use Rattle.cover_rest.specs.Keeping.{AreHeads};
ghost use Rattle.cover_rest.specs.Laws.{StandForAll};
ghost use Rattle.cover_rest.specs.Rest.{bodies, body_at, rest_worth, written_plan};
ghost use Rattle.depot_network.specs.Network.{blocks_of, is_count};
ghost use Rattle.block_rest.specs.Rest.{begun_of, may_begin, rests};

use crate::begins::begins;
use crate::begun::begun_columns;
use crate::head::Head;
use crate::pricing::best_list;
use crate::walk::written_worth;
use cover_core::{Column, Columns, Plan, Pricer, Prices, Worth};
use cover_rest::{Begun, bodies, bodies_stand_for_all, body, is_rest_list, written_out};
use day_model::Day;
use depot_network::PoolNet;
use plan_core::{Memory, Seq};
use std::alloc::Global;
use std::marker::Model;

/// What remains to be planned of the blocks of a day from a moment on. Its items are first the heads, in their order, and then the trips
/// in no head, by number; its classes are the pools. A list of items is written out by putting a head's trips in the head's place. The
/// plans of the rest, written out, are the plans of the day's blocks that keep what has begun. Only `new`, `expand` and `best` take memory.
#[derive(Drop)]
pub struct BlockRest<'d> {
    net: PoolNet<'d>,
    heads: Seq<Head>,
    begun: Seq<Begun>,
    bodies: Seq<Seq<u32>>,
    moment: u32,
}

impl<'d> Model for BlockRest<'d> {
    ghost use Rattle.block_rest.specs.Rest.{IsMade, RestFacts};

    ghost Value = { RestFacts };

    ghost view = { λ rest. record { day = rest.net.day; counts = rest.net.counts; heads = rest.heads; moment = rest.moment } };

    ghost invariant = { λ rest. IsMade rest.net.day rest.heads rest.begun rest.bodies };
}

/// How many items a rest has.
fn count(day: &Day, bodies: &[Seq<u32>]) -> u32
    requires { StandForAll (length day.now.trips) bodies.now }
    ensures value { result ≡ length bodies.now }
    ensures bound { result ≤ most_items }
{
    // Trips are few: the day says so.
    let _ = day.trips();
    bodies.len() as u32
}

/// The worth of a list of a rest in a pool, if it has one.
fn list_worth(
    net: &PoolNet<'_>,
    heads: &[Begun],
    bodies: &[Seq<u32>],
    moment: u32,
    class: u32,
    list: &[u32],
) -> Option<u64>
    requires class { class < length net.now.day.params.pools }
    requires bodies { StandForAll (length net.now.day.trips) bodies.now }
    requires list { AllBelow (length bodies.now) list.now }
    ensures value { result ≡ rest_worth (blocks_of net.now.day net.now.counts) heads.now bodies.now (may_begin net.now.day moment) class list.now }
    ensures bound { IfSome result (λ worth. worth ≤ most_worth) }
{
    let begins = begins(net.day(), moment, class, bodies, list);
    if is_rest_list(heads, bodies.len(), class, list, begins) {
        written_worth(net, class, bodies, list)
    } else {
        None
    }
}

impl<'d> BlockRest<'d> {
    /// The rest of the blocks of a day, of which these heads have begun before a moment, in seconds; each block is worth its cost, or 1
    /// where blocks are counted. No head is empty, its trips are there, and no trip stands in heads twice: the heads of a plan of the day
    /// are so. It takes time in proportion to the trips. `Memory` is the only error.
    pub fn new(
        alloc: Global,
        day: &'d Day,
        heads: Seq<Head>,
        moment: u32,
        worth: Worth,
    ) -> Result<BlockRest<'d>, Memory>
        requires { AreHeads (blocks_of day.now (is_count worth)) (begun_of heads) }
        ensures day { IfOk result (λ rest. rest.day ≡ day.now) }
        ensures counts { IfOk result (λ rest. rest.counts ≡ is_count worth) }
        ensures heads { IfOk result (λ rest. rest.heads ≡ heads) }
        ensures moment { IfOk result (λ rest. rest.moment ≡ moment) }
    {
        let begun = begun_columns(alloc, heads.as_slice())?;
        let bodies = bodies(alloc, begun.as_slice(), day.trips().len() as u32)?;
        // The items stand for each trip once, so they are few.
        bodies_stand_for_all();
        Ok(BlockRest {
            net: PoolNet::new(day, worth),
            heads,
            begun,
            bodies,
            moment,
        })
    }

    /// The day.
    pub fn day(&self) -> &Day
        ensures { result.now ≡ self.now.day }
    {
        self.net.day()
    }

    /// The heads.
    pub fn heads(&self) -> &[Head]
        ensures { result.now ≡ self.now.heads }
    {
        self.heads.as_slice()
    }

    /// The moment, in seconds.
    pub fn moment(&self) -> u32
        ensures { result ≡ self.now.moment }
    {
        self.moment
    }

    /// The trips that an item stands for: those of a head, or one trip.
    pub fn trips_of(&self, item: u32) -> &[u32]
        requires { item < (rests self.now).items }
        ensures { result.now ≡ body_at (bodies (begun_of self.now.heads) (length self.now.day.trips)) item }
    {
        body(self.bodies.as_slice(), item)
    }

    /// The columns of a plan of the rest, written out: each in its place, with its pool, its worth, and the trips that its items stand for.
    /// Of a plan of the rest that is a plan of the day's blocks, which keeps what has begun. `Memory` is the only error.
    pub fn expand(&self, alloc: Global, plan: &Plan) -> Result<Plan, Memory>
        requires { AreColumns (rests self.now) plan.now.columns }
        ensures { IfOk result (λ written. written.columns ≡ written_plan (bodies (begun_of self.now.heads) (length self.now.day.trips)) plan.now.columns) }
    {
        written_out(alloc, self.bodies.as_slice(), plan)
    }
}

impl Columns for BlockRest<'_> {
    ghost use Rattle.block_rest.specs.Listed.{rests_listed};

    ghost problem = { rests };

    ghost listed = { rests_listed };

    /// The heads and the trips in no head.
    fn items(&self) -> u32 {
        count(self.net.day(), self.bodies.as_slice())
    }

    /// The pools, by HOF_NR.
    fn classes(&self) -> u32 {
        self.net.classes()
    }

    /// How many vehicles a pool has (ANZAHL).
    fn cap(&self, class: u32) -> u32 {
        self.net.cap(class)
    }

    /// The worth of a list of the rest as a block of a pool: that of the written-out list. A list with a head has none where the head is
    /// not its first item, where it has a second head, where the pool is not the head's, or where the head is finished and another item
    /// follows. A list of trips alone has none where its pull-out leaves before the moment. It takes no memory.
    fn worth(&self, class: u32, list: &[u32]) -> Option<u64> {
        list_worth(
            &self.net,
            self.begun.as_slice(),
            self.bodies.as_slice(),
            self.moment,
            class,
            list,
        )
    }
}

impl Pricer for BlockRest<'_> {
    fn best(
        &self,
        alloc: Global,
        class: u32,
        prices: &Prices,
        group: u32,
        limit: i64,
    ) -> Result<Option<Column>, Memory> {
        best_list(
            alloc,
            self,
            &self.net,
            self.begun.as_slice(),
            self.bodies.as_slice(),
            class,
            prices.items.as_slice(),
            group,
            limit,
        )
    }
}
