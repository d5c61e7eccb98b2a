//! The legs of a block.

ghost use Rattle.std.specs.Prelude.{◌≡◌, ◌<◌, ◌++◌, ◌∷◌, ◌≤ℤ◌, ◌+ℤ◌, ◌-ℤ◌, [], false, pos, None, Some, IfOk, IsTrue, OnOk, is_some, length, slice_get};
ghost use Rattle.cover_core.specs.Cover.{AllBelow};
ghost use Rattle.day_model.specs.Blocks.{block_worth};
ghost use Rattle.day_model.specs.Links.{link_at, pull_in_at, pull_out_at, with_pool};
ghost use Rattle.day_model.specs.Pieces.{is_shown as is_shown_of, leg as leg_of, legs_of, link_legs, shown, trip_leg};
ghost use Rattle.day_model.specs.Ranges.{IsDaily};
ghost use Rattle.vdv452_tables.specs.Ranges.{IsTime};
ghost use Rattle.block_cut.specs.Legs.{AreTimed, HasWorth, begin_of, legs_at, legs_or, until_end, until_next};

use cover_core::Column;
use day_model::{Day, Link};
use plan_core::{Leg, LegKind, Memory, Point, Sec, Seq};
use plan_params::Pool;
use std::alloc::Global;
use trip_times::Trip;

/// Whether a leg is one: a trip always, a stand of more than 0 seconds, a move between two points.
fn is_shown(leg: &Leg) -> bool
    ensures { result ≡ is_shown_of leg.now }
{
    match leg.kind {
        LegKind::Trip => true,
        LegKind::Stand => leg.end.0.abs_diff(leg.begin.0) >= 1,
        _ => leg.from != leg.to,
    }
}

/// Puts a leg behind others, if it is one.
fn add(legs: &mut Seq<Leg>, leg: Leg) -> Result<(), Memory>
    ensures { OnOk result (legs.new ≡ legs.old ++ shown (leg ∷ [])) }
{
    if is_shown(&leg) {
        legs.push(leg)?;
    }
    Ok(())
}

/// A leg that is no trip.
fn leg(kind: LegKind, from: Point, begin: Sec, to: Point, end: Sec) -> Leg
    ensures { result ≡ leg_of kind None from begin.0 to end.0 }
{
    Leg {
        kind,
        trip: None,
        from,
        begin,
        to,
        end,
    }
}

/// A moment so many seconds later.
fn later(moment: Sec, seconds: u32) -> Sec
    requires moment { moment.0 ≤ℤ pos 345600 }
    ensures { result.0 ≡ moment.0 +ℤ pos seconds }
{
    Sec(moment.0 + i64::from(seconds))
}

/// A moment so many seconds earlier.
fn earlier(moment: Sec, seconds: u32) -> Sec
    requires moment { pos 0 ≤ℤ moment.0 }
    ensures { result.0 ≡ moment.0 -ℤ pos seconds }
{
    Sec(moment.0 - i64::from(seconds))
}

/// Puts behind others the leg of a trip.
fn add_trip(legs: &mut Seq<Leg>, number: u32, trip: &Trip) -> Result<(), Memory>
    ensures { OnOk result (legs.new ≡ legs.old ++ shown (trip_leg number trip.now ∷ [])) }
{
    let leg = Leg {
        kind: LegKind::Trip,
        trip: Some(number),
        from: trip.from,
        begin: trip.begin,
        to: trip.to,
        end: trip.end,
    };
    add(legs, leg)
}

/// Puts behind others the legs of a connection: the deadheads and the stand.
fn add_link(
    legs: &mut Seq<Leg>,
    pool: &Pool,
    trip: &Trip,
    next: &Trip,
    link: Link,
) -> Result<(), Memory>
    requires trip { IsDaily trip.now }
    requires next { IsDaily next.now }
    ensures { OnOk result (legs.new ≡ legs.old ++ shown (link_legs pool.now trip.now next.now link)) }
{
    match link {
        Link::Direct { dead, .. } => {
            let arrives = later(trip.end, dead);
            add(
                legs,
                leg(LegKind::Deadhead, trip.to, trip.end, next.from, arrives),
            )?;
            add(
                legs,
                leg(LegKind::Stand, next.from, arrives, next.from, next.begin),
            )
        }
        Link::Depot {
            inward,
            outward,
            ..
        } => {
            let depot = pool.depot;
            let arrives = later(trip.end, inward);
            let leaves = earlier(next.begin, outward);
            add(
                legs,
                leg(LegKind::Deadhead, trip.to, trip.end, depot, arrives),
            )?;
            add(legs, leg(LegKind::Stand, depot, arrives, depot, leaves))?;
            add(
                legs,
                leg(LegKind::Deadhead, depot, leaves, next.from, next.begin),
            )
        }
    }
}

/// The connection between two trips of a block.
fn link_of(day: &Day, class: u32, t: u32, u: u32) -> Link
    requires class { class < length day.now.params.pools }
    requires trip { t < length day.now.trips }
    requires next { u < length day.now.trips }
    requires there { IsTrue (is_some (link_at day.now class t u)) }
    ensures { link_at day.now class t u ≡ Some result }
{
    match day.connect(class, t, u) {
        Some(link) => link,
        None => unreachable!(),
    }
}

/// The pull-out to the first trip of a block.
fn pull_out_of(day: &Day, class: u32, t: u32) -> u32
    requires class { class < length day.now.params.pools }
    requires trip { t < length day.now.trips }
    requires there { IsTrue (is_some (pull_out_at day.now class t)) }
    ensures { pull_out_at day.now class t ≡ Some result }
{
    match day.pull_out(class, t) {
        Some(out) => out,
        None => unreachable!(),
    }
}

/// The pull-in from the last trip of a block.
fn pull_in_of(day: &Day, class: u32, t: u32) -> u32
    requires class { class < length day.now.params.pools }
    requires trip { t < length day.now.trips }
    requires there { IsTrue (is_some (pull_in_at day.now class t)) }
    ensures value { pull_in_at day.now class t ≡ Some result }
    ensures range { IsTime result }
{
    match day.pull_in(class, t) {
        Some(inward) => inward,
        None => unreachable!(),
    }
}

/// Puts behind others the leg of a trip, and what the vehicle does until the next one begins.
fn add_until_next(
    legs: &mut Seq<Leg>,
    day: &Day,
    class: u32,
    pool: &Pool,
    t: u32,
    u: u32,
) -> Result<(), Memory>
    requires pool { slice_get day.now.params.pools class ≡ Some pool.now }
    requires trip { t < length day.now.trips }
    requires next { u < length day.now.trips }
    requires there { IsTrue (is_some (until_next day.now pool.now t u)) }
    requires timed { AreTimed (pos 0) (begin_of day.now t) legs.old }
    ensures legs { OnOk result (legs.new ≡ legs.old ++ shown (legs_or (until_next day.now pool.now t u))) }
    ensures timed { OnOk result (AreTimed (pos 0) (begin_of day.now u) legs.new) }
{
    let trip = day.trip(t);
    let next = day.trip(u);
    let link = link_of(day, class, t, u);
    add_trip(legs, t, trip)?;
    add_link(legs, pool, trip, next, link)
}

/// Puts behind others the leg of the last trip and the pull-in.
fn add_until_end(
    legs: &mut Seq<Leg>,
    day: &Day,
    class: u32,
    pool: &Pool,
    t: u32,
) -> Result<(), Memory>
    requires pool { slice_get day.now.params.pools class ≡ Some pool.now }
    requires trip { t < length day.now.trips }
    requires there { IsTrue (is_some (until_end day.now pool.now t)) }
    requires timed { AreTimed (pos 0) (begin_of day.now t) legs.old }
    ensures legs { OnOk result (legs.new ≡ legs.old ++ shown (legs_or (until_end day.now pool.now t))) }
    ensures timed { OnOk result (AreTimed (pos 0) (pos 345600) legs.new) }
{
    let trip = day.trip(t);
    let arrives = later(trip.end, pull_in_of(day, class, t));
    add_trip(legs, t, trip)?;
    add(
        legs,
        leg(LegKind::PullIn, trip.to, trip.end, pool.depot, arrives),
    )
}

/// Puts behind others the legs from a trip on.
fn add_from(
    legs: &mut Seq<Leg>,
    day: &Day,
    class: u32,
    pool: &Pool,
    first: u32,
    rest: &[u32],
) -> Result<(), Memory>
    requires pool { slice_get day.now.params.pools class ≡ Some pool.now }
    requires first { first < length day.now.trips }
    requires rest { AllBelow (length day.now.trips) rest.now }
    requires there { IsTrue (is_some (legs_at day.now pool.now first rest.now)) }
    requires timed { AreTimed (pos 0) (begin_of day.now first) legs.old }
    ensures legs { OnOk result (legs.new ≡ legs.old ++ shown (legs_or (legs_at day.now pool.now first rest.now))) }
    ensures timed { OnOk result (AreTimed (pos 0) (pos 345600) legs.new) }
{
    let mut last = first;
    for next in rest {
        add_until_next(legs, day, class, pool, last, *next)?;
        last = *next;
    }
    add_until_end(legs, day, class, pool, last)
}

/// The legs of a block with a first trip and the trips after it.
fn legs_with(
    alloc: Global,
    day: &Day,
    class: u32,
    first: u32,
    rest: &[u32],
) -> Result<Seq<Leg>, Memory>
    requires worth { IsTrue (is_some (block_worth day.now false class (first ∷ rest.now))) }
    ensures legs { IfOk result (λ legs. with_pool day.now class (λ pool. legs_of day.now pool (first ∷ rest.now)) ≡ Some legs) }
    ensures timed { IfOk result (λ legs. AreTimed (pos 0) (pos 345600) legs) }
{
    let pool = &day.params().pools()[class as usize];
    let trip = day.trip(first);
    let leaves = earlier(trip.begin, pull_out_of(day, class, first));
    let mut legs = Seq::new(alloc);
    add(
        &mut legs,
        leg(LegKind::PullOut, pool.depot, leaves, trip.from, trip.begin),
    )?;
    add_from(&mut legs, day, class, pool, first, rest)?;
    Ok(legs)
}

/// The legs of a block in time order: the pull-out, the trips with the deadheads and stands between them, and the pull-in. A move between
/// equal points and a stand of 0 seconds are left out.
///
/// The block has a worth: its list of trips is a block of the pool of its class. `Memory` is the only error.
pub fn legs(alloc: Global, day: &Day, column: &Column) -> Result<Seq<Leg>, Memory>
    requires worth { HasWorth day.now column.now }
    ensures legs { IfOk result (λ legs. with_pool day.now column.now.class (λ pool. legs_of day.now pool column.now.items) ≡ Some legs) }

    // One after another, from midnight on and within four days.
    ensures timed { IfOk result (λ legs. AreTimed (pos 0) (pos 345600) legs) }
{
    match column.items.as_slice() {
        [] => unreachable!(),
        [first, rest @ ..] => legs_with(alloc, day, column.class, *first, rest),
    }
}
