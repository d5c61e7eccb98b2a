//! What of an earlier plan has begun.

ghost use Rattle.std.specs.Prelude.{◌≡◌, ◌∷◌, ◌++◌, ◌<◌, ◌≤◌, [], All, IfOk, OnOk, length};
ghost use Rattle.cover_core.specs.Cover.{AllBelow};
ghost use Rattle.day_model.specs.Facts.{DayFacts};
ghost use Rattle.block_rest.specs.Heads as spec;

use crate::head::Head;
use cover_core::{Column, Plan};
use day_model::Day;
use plan_core::{Memory, Seq};
use std::alloc::Global;

/// Whether a trip ends before a moment.
fn ends_before(day: &Day, moment: u32, t: u32) -> bool
    requires { t < length day.now.trips }
    ensures { result ≡ spec.ends_before day.now moment t }
{
    day.trip(t).end.0 < i64::from(moment)
}

/// Whether the pull-out of a pool to a trip leaves before a moment.
pub(crate) fn leaves_before(day: &Day, moment: u32, class: u32, t: u32) -> bool
    requires class { class < length day.now.params.pools }
    requires trip { t < length day.now.trips }
    ensures { result ≡ spec.leaves_before day.now moment class t }
{
    let begin = day.trip(t).begin.0;
    match day.pull_out(class, t) {
        None => false,
        Some(out) => begin - i64::from(out) < i64::from(moment),
    }
}

/// Puts the trips last that are kept after a kept trip.
fn add_kept(
    day: &Day,
    moment: u32,
    first: u32,
    rest: &[u32],
    trips: &mut Seq<u32>,
) -> Result<u32, Memory>
    requires first { first < length day.now.trips }
    requires rest { AllBelow (length day.now.trips) rest.now }
    ensures trips { OnOk result (trips.new ≡ trips.old ++ spec.kept_after day.now moment first rest.now) }
    ensures last { IfOk result (λ last. last ≡ spec.last_trip first (spec.kept_after day.now moment first rest.now)) }
    ensures there { IfOk result (λ last. last < length day.now.trips) }
{
    let mut last = first;
    for next in rest {
        if !ends_before(day, moment, last) {
            return Ok(last);
        }
        trips.push(*next)?;
        last = *next;
    }
    Ok(last)
}

/// Puts the head of a block last, if its first trip is this one and is kept.
fn add_head(
    alloc: Global,
    day: &Day,
    moment: u32,
    first: u32,
    block: &Column,
    heads: &mut Seq<Head>,
) -> Result<(), Memory>
    requires class { block.now.class < length day.now.params.pools }
    requires items { AllBelow (length day.now.trips) block.now.items }
    ensures { OnOk result (heads.new ≡ heads.old ++ spec.head_at day.now moment first block.now.class block.now.items) }
{
    match block.items.as_slice() {
        [] => Ok(()),
        [begin, rest @ ..] => {
            if *begin != first {
                return Ok(());
            }
            if !leaves_before(day, moment, block.class, *begin) {
                return Ok(());
            }
            let mut trips = Seq::new(alloc);
            trips.push(*begin)?;
            let last = add_kept(day, moment, *begin, rest, &mut trips)?;
            let finished = ends_before(day, moment, last);
            heads.push(Head {
                class: block.class,
                trips,
                finished,
            })
        }
    }
}

/// Puts the heads last of blocks that begin with a trip.
fn add_heads_at(
    alloc: Global,
    day: &Day,
    moment: u32,
    blocks: &[Column],
    first: u32,
    heads: &mut Seq<Head>,
) -> Result<(), Memory>
    requires { spec.AreOfDay day.now blocks.now }
    ensures { OnOk result (heads.new ≡ heads.old ++ spec.heads_at day.now moment blocks.now first) }
{
    for block in blocks {
        add_head(alloc, day, moment, first, block, heads)?;
    }
    Ok(())
}

/// What has begun of an earlier plan's blocks before a moment, in seconds: for each block whose pull-out leaves before the moment the pool
/// and the trips that are kept. The first trip is kept, and a later one where the one before it is kept and ends before the moment. A head
/// is finished where its last kept trip ends before the moment. A list that the pool has no pull-out to has not begun. The heads are
/// ordered by their first trips. Each block is looked at once for each trip of the day. `Memory` is the only error.
pub fn heads(alloc: Global, day: &Day, earlier: &Plan, moment: u32) -> Result<Seq<Head>, Memory>
    requires { spec.AreOfDay day.now earlier.now.columns }
    ensures { IfOk result (λ heads. heads ≡ spec.heads_of day.now moment earlier.now.columns) }
{
    let blocks = earlier.columns.as_slice();
    let mut heads = Seq::new(alloc);
    for first in 0..day.trips().len() as u32 {
        add_heads_at(alloc, day, moment, blocks, first, &mut heads)?;
    }
    Ok(heads)
}
