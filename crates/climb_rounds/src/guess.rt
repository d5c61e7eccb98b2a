//! The best estimate.

ghost use Rattle.std.specs.Prelude.{true, false, None, ◌≡◌, ◌<◌, ◌≤◌, length, IfOk, IfSome, OnOk};
ghost use Rattle.offer_estimate.specs.Scales.{IsScale};
ghost use Rattle.worker_price.specs.Work.{ArePricesFor};
ghost use Rattle.price_rounds.specs.Steps.{AreReady, IsOffer};
ghost use Rattle.climb_rounds.specs.Settings.{IsSetting};
ghost use Rattle.climb_rounds.specs.Walks.{IsWalk};

use crate::best::Search;
use crate::offers::{Offered, offer};
use crate::setting::Setting;
use crate::step::cost_step;
use crate::walk::{Walk, copy_of};
use cover_core::{Column, Columns, Pricer, Prices};
use offer_estimate::{Scale, scaled};
use plan_core::{Gate, Memory, Seq};
use plan_dive::Workers;
use std::alloc::Global;
use std::thread::Threads;

/// Whether an estimate is above the best one so far.
pub(crate) fn is_better(guess: Option<i128>, bound: i128) -> bool
    ensures { guess ≡ None → result ≡ true }
{
    match guess {
        None => true,
        Some(guess) => guess < bound,
    }
}

/// Prices at a scale.
pub(crate) fn scaled_for<C: Columns>(
    alloc: Global,
    _problem: &C,
    prices: &Prices,
    scale: Scale,
) -> Result<Prices, Memory>
    requires prices { ArePricesFor (C.problem _problem.now) prices.now.items }
    requires scale { IsScale scale }
    ensures { IfOk result (λ new. ArePricesFor (C.problem _problem.now) new.items) }
{
    scaled(alloc, prices, scale)
}

/// Offers the next prices, and gives the columns that are priced at them. Where the estimate is the best so far, these prices are the
/// centre from then on.
pub(crate) fn offer_next<R: Threads + Sync, P: Pricer + Sync, G: Gate + Sync>(
    alloc: Global,
    problem: &P,
    rt: &R,
    gate: &G,
    workers: &Workers,
    setting: &Setting,
    walk: &mut Walk,
) -> Result<Seq<Column>, Memory>
    requires setting { IsSetting (P.problem problem.now) setting.now }
    requires walk { IsWalk (P.problem problem.now) walk.old }
    ensures walk { OnOk result (IsWalk (P.problem problem.now) walk.new) }
    ensures columns { IfOk result (AreReady (P.problem problem.now)) }
{
    let before = walk.kept.take();
    let offered = offer(alloc, problem, rt, gate, workers, setting, &walk.at, before)?;
    let Offered {
        kept,
        columns,
        estimate,
    } = offered;
    walk.kept = Some(kept);
    if is_better(walk.guess, estimate.bound) {
        walk.centre = copy_of(alloc, &walk.at)?;
        walk.scaled = scaled_for(alloc, problem, &walk.at, estimate.scale)?;
        walk.guess = Some(estimate.bound);
    }
    Ok(columns)
}

/// Whether there is a plan, and the best estimate is so near its cost that no plan is cheaper where the estimate comes true: above the next
/// lower cost by at least a thousandth of a cost unit an item. Costs go in the steps in which those of the known columns go.
pub(crate) fn is_near(search: &Search, guess: Option<i128>, items: u32) -> bool
    ensures { guess ≡ None → result ≡ false }
{
    match guess {
        None => false,
        Some(guess) => {
            let step = cost_step(search.stock.pool.as_slice()) as i128;
            let next = search.aim() as i128 - 1000 * step;
            search.has_plan() && next + (items as i128) < guess
        }
    }
}
