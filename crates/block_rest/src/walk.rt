//! Lists of trips, walked as blocks with no prices.

ghost use Rattle.std.specs.Prelude.{◌≡◌, ◌<◌, ◌≤◌, ◌/◌, [], IfSome, Some, length, slice_get};
ghost use Rattle.std.specs.Int.RustNames.{unsigned_abs};
ghost use Rattle.std.specs.Option.{option_map};
ghost use Rattle.plan_core.specs.Limits.{most_worth};
ghost use Rattle.cover_core.specs.Cover.{AllBelow};
ghost use Rattle.cover_core.specs.Labels.{label_after, label_of};
ghost use Rattle.plan_params.specs.Limits.{IsPool};
ghost use Rattle.day_model.specs.Blocks.{block_worth};
ghost use Rattle.depot_network.specs.Open.{OpenFits, closed_open, opening};
ghost use Rattle.cover_rest.specs.Laws.{StandForAll};
ghost use Rattle.cover_rest.specs.Rest.{written};
ghost use Rattle.block_rest.specs.Low.{IsLow};

use cover_rest::body;
use day_model::Day;
use depot_network::{OpenBlock, PoolNet};
use plan_core::Seq;
use plan_params::Pool;

/// An open block with further trips, if they may follow.
fn block_with_trips(
    net: &PoolNet<'_>,
    class: u32,
    pool: &Pool,
    first: OpenBlock,
    rest: &[u32],
) -> Option<OpenBlock>
    requires pool { slice_get net.now.day.params.pools class ≡ Some pool.now }
    requires ranges { IsPool pool.now }
    requires first { OpenFits (length net.now.day.trips) first }
    requires rest { AllBelow (length net.now.day.trips) rest.now }
    ensures value { result ≡ label_after (opening net.now.day net.now.counts [] pool.now) (Some first) rest.now }
    ensures fits { IfSome result (OpenFits (length net.now.day.trips)) }
{
    // Trips are few and daily: the day says so.
    let _ = net.day().trips();
    let mut open = first;
    for trip in rest {
        open = net.next_open(class, pool, &[], &open, *trip)?;
    }
    Some(open)
}

/// The open block of a list of trips, if it may be one.
fn block_of_trips(net: &PoolNet<'_>, class: u32, pool: &Pool, list: &[u32]) -> Option<OpenBlock>
    requires pool { slice_get net.now.day.params.pools class ≡ Some pool.now }
    requires ranges { IsPool pool.now }
    requires list { AllBelow (length net.now.day.trips) list.now }
    ensures value { result ≡ label_of (opening net.now.day net.now.counts [] pool.now) list.now }
    ensures fits { IfSome result (OpenFits (length net.now.day.trips)) }
{
    // Trips are few and daily: the day says so.
    let _ = net.day().trips();
    match list {
        [] => None,
        [trip, rest @ ..] => {
            let first = net.first_open(class, pool, &[], *trip)?;
            block_with_trips(net, class, pool, first, rest)
        }
    }
}

/// An open block with what further items of the rest stand for, if that may follow.
fn walked_on(
    net: &PoolNet<'_>,
    class: u32,
    pool: &Pool,
    bodies: &[Seq<u32>],
    first: OpenBlock,
    rest: &[u32],
) -> Option<OpenBlock>
    requires pool { slice_get net.now.day.params.pools class ≡ Some pool.now }
    requires ranges { IsPool pool.now }
    requires first { OpenFits (length net.now.day.trips) first }
    requires bodies { StandForAll (length net.now.day.trips) bodies.now }
    requires rest { AllBelow (length bodies.now) rest.now }
    ensures value { result ≡ label_after (opening net.now.day net.now.counts [] pool.now) (Some first) (written bodies.now rest.now) }
    ensures fits { IfSome result (OpenFits (length net.now.day.trips)) }
{
    let mut open = first;
    for item in rest {
        open = block_with_trips(net, class, pool, open, body(bodies, *item))?;
    }
    Some(open)
}

/// What an open block is worth that is driven in, if it may end.
fn driven_in(net: &PoolNet<'_>, class: u32, pool: &Pool, block: &OpenBlock) -> Option<u64>
    requires pool { slice_get net.now.day.params.pools class ≡ Some pool.now }
    requires ranges { IsPool pool.now }
    requires fits { OpenFits (length net.now.day.trips) block.now }
    requires low { IsLow net.now.day block.now }
    ensures value { result ≡ option_map (λ v. unsigned_abs v / 1000) (closed_open net.now.day net.now.counts pool.now block.now) }
    ensures bound { IfSome result (λ worth. worth ≤ most_worth) }
{
    // A pull-in is short: the day says so.
    let _ = net.day().pull_in(class, block.trip);
    let value = net.close_open(class, pool, block)?;
    Some(value.unsigned_abs() / 1000)
}

/// The open block of a list of the rest, written out, if it may be one.
fn opened_list(
    net: &PoolNet<'_>,
    class: u32,
    pool: &Pool,
    bodies: &[Seq<u32>],
    list: &[u32],
) -> Option<OpenBlock>
    requires pool { slice_get net.now.day.params.pools class ≡ Some pool.now }
    requires ranges { IsPool pool.now }
    requires bodies { StandForAll (length net.now.day.trips) bodies.now }
    requires list { AllBelow (length bodies.now) list.now }
    ensures value { result ≡ label_of (opening net.now.day net.now.counts [] pool.now) (written bodies.now list.now) }
    ensures fits { IfSome result (OpenFits (length net.now.day.trips)) }
{
    match list {
        [] => None,
        [item, rest @ ..] => {
            let first = block_of_trips(net, class, pool, body(bodies, *item))?;
            walked_on(net, class, pool, bodies, first, rest)
        }
    }
}

/// A pool of a day.
pub(crate) fn pool_of(day: &Day, class: u32) -> &Pool
    requires { class < length day.now.params.pools }
    ensures pool { slice_get day.now.params.pools class ≡ Some result.now }
    ensures ranges { IsPool result.now }
{
    &day.params().pools()[class as usize]
}

/// The worth of a list of the rest, written out, as a block of a pool, if it is one.
pub(crate) fn written_worth(
    net: &PoolNet<'_>,
    class: u32,
    bodies: &[Seq<u32>],
    list: &[u32],
) -> Option<u64>
    requires class { class < length net.now.day.params.pools }
    requires bodies { StandForAll (length net.now.day.trips) bodies.now }
    requires list { AllBelow (length bodies.now) list.now }
    ensures value { result ≡ block_worth net.now.day net.now.counts class (written bodies.now list.now) }
    ensures bound { IfSome result (λ worth. worth ≤ most_worth) }
{
    // Trips are daily: the day says so.
    let _ = net.day().trips();
    let pool = pool_of(net.day(), class);
    let open = opened_list(net, class, pool, bodies, list)?;
    driven_in(net, class, pool, &open)
}
