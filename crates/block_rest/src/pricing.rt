//! The best list of a rest: pricing in column generation, where some blocks have begun.

ghost use Rattle.std.specs.Prelude.{◌≡◌, ◌<◌, ◌≤◌, ℕ, Bool, List, IfOk, IfSome, length};
ghost use Rattle.plan_core.specs.Limits.{most_price, most_worth};
ghost use Rattle.plan_core.specs.declared.Price.{Price};
ghost use Rattle.cover_core.specs.Cover.{Problem};
ghost use Rattle.depot_network.specs.Open.{closed_open};
ghost use Rattle.path_pricing.specs.Blocks.{block_labels};
ghost use Rattle.cover_rest.specs.declared.begun.Begun.{Begun};
ghost use Rattle.rest_labels.specs.Laws.{PricesRest};
ghost use Rattle.cover_core.specs.Best.{best_of, within};
ghost use Rattle.cover_core.specs.FirstLeast.{AllWithin};
ghost use Rattle.cover_rest.specs.Laws.{StandForAll};
ghost use Rattle.cover_rest.specs.Rest.{body_at};
ghost use Rattle.rest_labels.specs.Labels.{is_set};
ghost use Rattle.block_rest.specs.Rest.{IsMade, may_begin, rests};

use crate::begins::leaves_later;
use crate::rest::BlockRest;
use crate::walk::pool_of;
use cover_core::Column;
use cover_rest::{Begun, body};
use day_model::Day;
use depot_network::PoolNet;
use label_dive::{dive_from_least, likely};
use path_pricing::{BlockLabels, rests_from};
use plan_core::{Memory, Price, Seq};
use rest_labels::{
    RestLabels, best_of_rest, ended_heads, first_items, spread_prices, starting_items,
};
use std::alloc::Global;

/// For each item of a rest whether a block of a pool with what it stands for first leaves its depot at the moment or later.
fn leaving_later(
    alloc: Global,
    day: &Day,
    moment: u32,
    class: u32,
    bodies: &[Seq<u32>],
) -> Result<Vec<bool>, Memory>
    requires class { class < length day.now.params.pools }
    requires bodies { StandForAll (length day.now.trips) bodies.now }
    ensures each { IfOk result (λ free. length free.items ≡ length bodies.now) }
    ensures free { IfOk result (λ free. (x : ℕ) → x < length bodies.now → is_set free.items x ≡ may_begin day.now moment class (body_at bodies.now x)) }
{
    // Trips are few: the day says so.
    let _ = day.trips();
    let mut free = Vec::new(alloc);
    for item in 0..bodies.len() as u32 {
        free.push(leaves_later(day, moment, class, body(bodies, item)))?;
    }
    Ok(free)
}

/// The first least list of a rest in a pool and group within a limit, by the labels of open blocks of the pool, what the rest's items
/// stand for, with which of them lists may begin, and behind which heads none may follow.
fn best_of_labels<'a>(
    alloc: Global,
    rest: &BlockRest<'_>,
    labels: &'a BlockLabels<'a>,
    bodies: &'a [Seq<u32>],
    starts: &'a [bool],
    ended: &'a [bool],
    class: u32,
    group: u32,
    limit: i64,
) -> Result<Option<Column>, Memory>
    requires class { class < length (rests rest.now).caps }
    requires bodies { StandForAll (length labels.now.net.now.day.trips) bodies.now }
    requires items { length bodies.now ≤ (rests rest.now).items }
    ensures best { (p : Problem) (heads : List Begun) (may : ℕ → List ℕ → Bool) (prices : List Price) → PricesRest p heads may class group (rests rest.now) bodies.now starts.now ended.now (block_labels labels.now.net.now.day labels.now.net.now.counts labels.now.prices.now labels.now.pool labels.now.first labels.now.end) (closed_open labels.now.net.now.day labels.now.net.now.counts labels.now.pool) prices labels.now.prices.now → IfOk result (λ answer. answer ≡ within limit prices (best_of (rests rest.now) prices class group)) }
    ensures bound { IfOk result (λ answer. IfSome answer (λ column. column.worth ≤ most_worth)) }
{
    // Trips are few: the day says so.
    let _ = labels.net.day().trips();
    let listed = RestLabels {
        labels,
        bodies,
        starts,
        ended,
        group,
    };
    let likely = likely(dive_from_least(&listed, limit), limit, [0, 33]);
    best_of_rest(alloc, rest, &listed, class, &likely, limit)
}

/// The first least list of a rest in a pool and group within a limit. The labels of lists are those of the day's open blocks, a head's being
/// made by folding the steps over its trips; the completion bound goes over the trips from the first one on with which a list of the group
/// begins. It takes memory in proportion to the trips, beside that of the search.
pub(crate) fn best_list(
    alloc: Global,
    rest: &BlockRest<'_>,
    net: &PoolNet<'_>,
    begun: &[Begun],
    bodies: &[Seq<u32>],
    class: u32,
    prices: &[Price],
    group: u32,
    limit: i64,
) -> Result<Option<Column>, Memory>
    requires day { net.now.day ≡ rest.now.day }
    requires counts { net.now.counts ≡ rest.now.counts }
    requires made { IsMade rest.now.day rest.now.heads begun.now bodies.now }
    requires class { class < length (rests rest.now).caps }
    requires prices { length prices.now ≡ (rests rest.now).items }
    requires moderate { AllWithin most_price prices.now }
    ensures best { IfOk result (λ answer. answer ≡ within limit prices.now (best_of (rests rest.now) prices.now class group)) }
    ensures bound { IfOk result (λ answer. IfSome answer (λ column. column.worth ≤ most_worth)) }
{
    let day = net.day();
    // Trips are few and daily: the day says so.
    let count = day.trips().len() as u32;
    let pool = *pool_of(day, class);
    let spread = spread_prices(alloc, bodies, prices, count)?;
    let range = first_items(bodies, group, count);
    let rests = rests_from(alloc, &*net, class, &pool, spread.as_slice(), range.first)?;
    let labels = BlockLabels {
        net: &*net,
        class,
        pool,
        prices: spread.as_slice(),
        rests: rests.as_slice(),
        first: range.first,
        end: range.end,
    };
    let free = leaving_later(alloc, day, rest.moment(), class, bodies)?;
    let starts = starting_items(alloc, begun, class, free.as_slice())?;
    let ended = ended_heads(alloc, begun)?;
    best_of_labels(
        alloc,
        &*rest,
        &labels,
        &*bodies,
        starts.as_slice(),
        ended.as_slice(),
        class,
        group,
        limit,
    )
}
