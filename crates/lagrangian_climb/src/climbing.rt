//! The climb: price steps, the greatest Lagrangian, and the way back to it.

ghost use Rattle.std.specs.Prelude.{◌≡◌, ℕ, ◌<◌, ◌≤◌, ◌≤ℤ◌, pos, neg_ℤ, length, IfOk, OnOk};
ghost use Rattle.plan_core.specs.Limits.{most_items, most_price};
ghost use Rattle.cover_core.specs.FirstLeast.{AllWithin};
ghost use Rattle.cover_core.specs.Cover.{AllBelow};
ghost use Rattle.cover_core.specs.Fitting.{AreFit};
ghost use Rattle.lagrangian_climb.specs.Choices.{AreAsked};
ghost use Rattle.lagrangian_climb.specs.Climbs.{AreSpans, IsPeak, IsAscent, IsPriced};

use crate::choosing::{Choice, choose_of, zero_counts, zero_numbers};
use crate::covers::{count_all, covers};
use crate::numbers::{gap, unit};
use crate::playing::in_play;
use crate::vectors::{Heading, Span, free_sum, moved_prices, turned_heading};
use cover_core::{Column, Prices};
use plan_core::{Memory, Seq};
use std::alloc::Global;

/// What is left of a problem where some items are fixed.
#[derive(Drop)]
pub struct Rest {
    /// Whether an item is fixed, by item.
    pub fixed: Seq<bool>,
    /// How many places each class has left, by class.
    pub caps: Seq<u32>,
    /// What the Lagrangian is to reach, in thousandths of a cost unit.
    pub aim: i64,
}

/// The prices of the greatest Lagrangian.
#[derive(Drop)]
pub struct Peak {
    /// The prices by item, in thousandths of a cost unit.
    pub prices: Prices,
    /// What each class asks for a place at them, in thousandths of a cost unit, at least 0.
    pub class_prices: Seq<i64>,
    /// Their Lagrangian over the columns in play, without the fixed items, in thousandths of a cost unit.
    pub bound: i128,
    /// The pace at which they were reached: 1,024 times the factor of Polyak's step.
    pub pace: u32,
}

/// A climb on its way.
#[derive(Drop)]
struct Ascent {
    /// The prices of the next price step.
    prices: Prices,
    /// The direction of each price, in eighths.
    directions: Seq<i64>,
    /// How many price steps brought nothing since the last that did, or since the climb went back.
    idle: u32,
    /// 1,024 times the factor of Polyak's step.
    pace: u32,
    /// The greatest Lagrangian so far.
    peak: Peak,
    /// How often each column was chosen.
    counts: Seq<u32>,
    /// Whether no price step is left.
    over: bool,
}

/// What a climb gives.
#[derive(Drop)]
pub struct Climbed {
    /// The prices of the greatest Lagrangian.
    pub peak: Peak,
    /// In how many price steps each column of the pool was chosen, by place.
    pub counts: Seq<u32>,
}

/// A climb at its start.
fn begin(
    alloc: Global,
    prices: &Prices,
    classes: usize,
    columns: usize,
    pace: u32,
) -> Result<Ascent, Memory>
    requires moderate { AllWithin most_price prices.now.items }
    requires pace { pace ≤ 512 }
    ensures { IfOk result (IsAscent (length prices.now.items) classes columns) }
{
    let peak = Peak {
        prices: copy_of(alloc, prices)?,
        class_prices: zero_numbers(alloc, classes)?,
        bound: -10000000000000000000000,
        pace,
    };
    Ok(Ascent {
        prices: copy_of(alloc, prices)?,
        directions: zero_numbers(alloc, prices.items.len())?,
        idle: 0,
        pace,
        peak,
        counts: zero_counts(alloc, columns)?,
        over: false,
    })
}

/// A copy of prices.
fn copy_of(alloc: Global, prices: &Prices) -> Result<Prices, Memory>
    ensures { IfOk result (λ copy. copy.items ≡ prices.now.items) }
{
    let items = Seq::new(alloc).with_items(prices.items.as_slice())?;
    Ok(Prices { items })
}

/// A climb that goes back to its peak at two thirds of its pace, and is over where nothing is left of it.
fn back(alloc: Global, ascent: Ascent) -> Result<Ascent, Memory>
    requires { ascent.pace ≤ 512 }
    ensures { (items classes columns : ℕ) → IsAscent items classes columns ascent → IfOk result (IsAscent items classes columns) }
{
    let pace = 2 * ascent.pace / 3;
    let Ascent { peak, counts, .. } = ascent;
    let prices = copy_of(alloc, &peak.prices)?;
    let directions = zero_numbers(alloc, prices.items.len())?;
    Ok(Ascent {
        prices,
        directions,
        idle: 0,
        pace,
        peak,
        counts,
        over: pace == 0,
    })
}

/// Keeps prices as the peak where their Lagrangian is above that of the peak, and answers 0; else one price step more than were idle.
fn rise(
    alloc: Global,
    peak: &mut Peak,
    prices: &Prices,
    class_prices: Seq<i64>,
    bound: i128,
    pace: u32,
    idle: u32,
) -> Result<u32, Memory>
    requires idle { idle < 20 }
    requires peak { IsPeak (length prices.now.items) (length class_prices) peak.old }
    requires moderate { AllWithin most_price prices.now.items }
    requires asked { AreAsked class_prices }
    requires low { neg_ℤ (pos 10000000000000000000000) ≤ℤ bound }
    requires high { bound ≤ℤ pos 10000000000000000000000 }
    requires pace { pace ≤ 512 }
    ensures idle { IfOk result (λ idle. idle ≤ 20) }
    ensures peak { OnOk result (IsPeak (length prices.now.items) (length class_prices) peak.new) }
    ensures above { OnOk result (bound ≤ℤ peak.new.bound) }
{
    if bound <= peak.bound {
        return Ok(idle + 1);
    }
    *peak = Peak {
        prices: copy_of(alloc, prices)?,
        class_prices,
        bound,
        pace,
    };
    Ok(0)
}

/// A price step along its direction.
fn go_on(
    alloc: Global,
    pool: &[Column],
    rest: &Rest,
    spans: &[Span],
    places: &[u32],
    bound: i128,
    ascent: Ascent,
) -> Result<Ascent, Memory>
    requires items { length rest.now.fixed ≤ most_items }
    requires fit { AreFit (length rest.now.fixed) 32 pool.now }
    requires spans { AreSpans spans.now }
    requires one_each { length spans.now ≡ length rest.now.fixed }
    requires below { AllBelow (length pool.now) places.now }
    requires few { length places.now ≤ 200000 }
    requires low { neg_ℤ (pos 10000000000000000000000) ≤ℤ bound }
    requires high { bound ≤ℤ pos 10000000000000000000000 }
    requires ascent { IsAscent (length rest.now.fixed) (length rest.now.caps) (length pool.now) ascent }
    ensures { IfOk result (IsAscent (length rest.now.fixed) (length rest.now.caps) (length pool.now)) }
{
    let Ascent {
        prices,
        directions,
        idle,
        pace,
        peak,
        counts,
        ..
    } = ascent;
    let fixed = rest.fixed.as_slice();
    let cover = covers(alloc, prices.items.len(), pool, places)?;
    let heading = turned_heading(alloc, directions.as_slice(), fixed, cover.as_slice())?;
    let Heading { directions, square } = heading;
    if square == 0 {
        return Ok(Ascent {
            prices,
            directions,
            idle,
            pace,
            peak,
            counts,
            over: true,
        });
    }
    let unit = unit(pace, gap(rest.aim, bound), square);
    let prices = moved_prices(alloc, &prices, directions.as_slice(), spans, unit)?;
    Ok(Ascent {
        prices,
        directions,
        idle,
        pace,
        peak,
        counts,
        over: false,
    })
}

/// A price step of a climb over the columns at some places, those in play.
fn turn(
    alloc: Global,
    pool: &[Column],
    playing: &[u32],
    rest: &Rest,
    spans: &[Span],
    ascent: Ascent,
) -> Result<Ascent, Memory>
    requires pool { length pool.now ≤ 200000 }
    requires items { length rest.now.fixed ≤ most_items }
    requires classes { length rest.now.caps ≤ 32 }
    requires playing { AllBelow (length pool.now) playing.now }
    requires count { length playing.now ≤ length pool.now }
    requires fit { AreFit (length rest.now.fixed) (length rest.now.caps) pool.now }
    requires spans { AreSpans spans.now }
    requires one_each { length spans.now ≡ length rest.now.fixed }
    requires ascent { IsAscent (length rest.now.fixed) (length rest.now.caps) (length pool.now) ascent }
    ensures { IfOk result (IsAscent (length rest.now.fixed) (length rest.now.caps) (length pool.now)) }
{
    let Ascent {
        prices,
        directions,
        idle,
        pace,
        mut peak,
        mut counts,
        ..
    } = ascent;
    let fixed = rest.fixed.as_slice();
    let choice = choose_of(alloc, pool, playing, rest.caps.as_slice(), &prices)?;
    let Choice {
        places,
        class_prices,
        sum,
    } = choice;
    count_all(&mut counts, places.as_slice());
    let bound = free_sum(fixed, &prices) + sum;
    let idle = rise(alloc, &mut peak, &prices, class_prices, bound, pace, idle)?;
    if idle == 20 {
        let ascent = Ascent {
            prices,
            directions,
            idle: 0,
            pace,
            peak,
            counts,
            over: false,
        };
        return back(alloc, ascent);
    }
    let ascent = Ascent {
        prices,
        directions,
        idle,
        pace,
        peak,
        counts,
        over: false,
    };
    go_on(alloc, pool, rest, spans, places.as_slice(), bound, ascent)
}

/// Climbs from prices, at most 100 price steps, and gives the prices of the greatest Lagrangian that was met, the first ones on ties.
///
/// A price step chooses columns at its prices ([`choose`](crate::choose)). Where the Lagrangian is above the greatest so far, prices and
/// class prices are kept; after 20 price steps without that the climb goes back to the kept prices, with no direction and at two thirds of
/// its pace. Else each item's direction, in eighths, becomes six eighths of the one before and two of how far the item is from being
/// covered once, and the price moves along it by 8 * pace * gap / S / 1,024: the gap is the distance to the aim, at least its 2,048th part
/// and 1, and S the sum of all squared directions. The climb ends where no pace or no direction is left. Its contract says the ranges of
/// what it gives and no more: what a price step chooses and each of its numbers is exact by `choose` and the functions of a price step.
///
/// The pool has at most 200,000 columns; there are at most 3,000 items and 32 classes. Each item has a price and a span from
/// -10,000,000,000,000 to 10,000,000,000,000 thousandths of a cost unit, between whose ends its price is kept from the first price step on.
/// The pace is at most 512. Which columns are in play is looked up once; time is that of 100 choices among these.
///
/// # Errors
///
/// [`Memory`] where it is refused; nothing else fails.
pub fn climb(
    alloc: Global,
    pool: &[Column],
    prices: &Prices,
    rest: &Rest,
    spans: &[Span],
    pace: u32,
) -> Result<Climbed, Memory>
    requires pool { length pool.now ≤ 200000 }
    requires items { length rest.now.fixed ≤ most_items }
    requires classes { length rest.now.caps ≤ 32 }
    requires fit { AreFit (length rest.now.fixed) (length rest.now.caps) pool.now }
    requires prices { IsPriced (length rest.now.fixed) prices.now }
    requires spans { AreSpans spans.now }
    requires one_each { length spans.now ≡ length rest.now.fixed }
    requires pace { pace ≤ 512 }
    ensures peak { IfOk result (λ climbed. IsPeak (length rest.now.fixed) (length rest.now.caps) climbed.peak) }
    ensures counts { IfOk result (λ climbed. length climbed.counts ≡ length pool.now) }
{
    let playing = in_play(alloc, pool, rest.fixed.as_slice(), rest.caps.as_slice())?;
    let places = playing.as_slice();
    let mut ascent = begin(alloc, prices, rest.caps.len(), pool.len(), pace)?;
    for _turn in 0..100u32 {
        if !ascent.over {
            ascent = turn(alloc, pool, places, rest, spans, ascent)?;
        }
    }
    let Ascent { peak, counts, .. } = ascent;
    Ok(Climbed { peak, counts })
}
