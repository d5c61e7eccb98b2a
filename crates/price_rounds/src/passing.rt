//! A whole pass.

ghost use Rattle.std.specs.Prelude.{◌≡◌, ◌+◌, ◌<◌, ◌≤◌, ◌≤ℤ◌, pos, length, IfOk};
ghost use Rattle.plan_core.specs.Limits.{most_price};
ghost use Rattle.cover_core.specs.Plans.{AreColumns, IsPaid, bound_of};
ghost use Rattle.cover_core.specs.FirstLeast.{AreCheap};
ghost use Rattle.cover_master.specs.Method.{starting_prices, step_size_of};
ghost use Rattle.worker_price.specs.Work.{ArePricesFor};
ghost use Rattle.price_rounds.specs.Efforts.{IsEffort};
ghost use Rattle.price_rounds.specs.Rounds.{after_rounds, all_offers, greatest_of, IsBoundOf, IsFirstGreatest};
ghost use Rattle.price_rounds.specs.Steps.{IsSized, HasRounds, HasLowered};

use crate::effort::Effort;
use crate::moves::{add_all, caps_of, greatest, lower_all, turn_often};
use crate::pricing::{first_offer, next_offer};
use crate::progress::Progress;
use column_pool::Pool;
use cover_core::{Pricer, Prices, least_is_paid, weak_duality};
use cover_master::{start_prices, step_size};
use dual_bound::Kept;
use plan_core::{Gate, Memory};
use std::alloc::Global;
use std::thread::Threads;
use worker_price::least_values;

/// The size of the price steps of a round, counted from 1.
fn size_of(greatest: i64, round: u32) -> i64
    requires low { pos 0 ≤ℤ greatest }
    requires high { greatest ≤ℤ pos most_price }
    requires round { round ≤ 200 }
    ensures value { result ≡ step_size_of greatest round }
    ensures low { pos 0 ≤ℤ result }
    ensures high { result ≤ℤ pos most_price }
{
    step_size(greatest, round)
}

/// The first price round.
fn first_round<R: Threads + Sync, P: Pricer + Sync, G: Gate + Sync>(
    rt: &R,
    alloc: Global,
    workers: u32,
    pricer: &P,
    caps: &[u32],
    start: Prices,
    greatest: i64,
    gate: &G,
) -> Result<Progress, Memory>
    requires workers { (0 < workers) × (workers ≤ 64) }
    requires sized { IsSized (P.problem pricer.now) }
    requires caps { caps.now ≡ (P.problem pricer.now).caps }
    requires start { start.items ≡ starting_prices (P.problem pricer.now) }
    requires prices { ArePricesFor (P.problem pricer.now) start.items }
    requires greatest { greatest ≡ greatest_of (starting_prices (P.problem pricer.now)) }
    requires low { pos 0 ≤ℤ greatest }
    requires high { greatest ≤ℤ pos most_price }
    ensures { IfOk result (HasRounds (P.problem pricer.now) 1) }
{
    let (kept, columns) = first_offer(rt, alloc, workers, pricer, caps, &start, gate)?;
    let mut pool = Pool::new(alloc);
    add_all(&mut pool, columns, pricer)?;
    let size = size_of(greatest, 1);
    let prices = turn_often(alloc, pricer, &pool, start, caps, size)?;
    Ok(Progress { pool, prices, kept })
}

/// A price round after so many others.
fn next_round<R: Threads + Sync, P: Pricer + Sync, G: Gate + Sync>(
    rt: &R,
    alloc: Global,
    workers: u32,
    pricer: &P,
    caps: &[u32],
    progress: Progress,
    done: u32,
    greatest: i64,
    gate: &G,
) -> Result<Progress, Memory>
    requires workers { (0 < workers) × (workers ≤ 64) }
    requires sized { IsSized (P.problem pricer.now) }
    requires caps { caps.now ≡ (P.problem pricer.now).caps }
    requires progress { HasRounds (P.problem pricer.now) done progress }
    requires done { done < 200 }
    requires greatest { greatest ≡ greatest_of (starting_prices (P.problem pricer.now)) }
    requires low { pos 0 ≤ℤ greatest }
    requires high { greatest ≤ℤ pos most_price }
    ensures { IfOk result (HasRounds (P.problem pricer.now) (done + 1)) }
{
    let Progress {
        mut pool,
        prices,
        mut kept,
    } = progress;
    let columns = next_offer(rt, alloc, workers, pricer, caps, &prices, &mut kept, gate)?;
    add_all(&mut pool, columns, pricer)?;
    let size = size_of(greatest, done + 1);
    let prices = turn_often(alloc, pricer, &pool, prices, caps, size)?;
    Ok(Progress { pool, prices, kept })
}

/// All price rounds.
fn price_rounds<R: Threads + Sync, P: Pricer + Sync, G: Gate + Sync>(
    rt: &R,
    alloc: Global,
    pricer: &P,
    caps: &[u32],
    effort: &Effort,
    gate: &G,
) -> Result<Progress, Memory>
    requires effort { IsEffort effort.now }
    requires sized { IsSized (P.problem pricer.now) }
    requires caps { caps.now ≡ (P.problem pricer.now).caps }
    ensures { IfOk result (HasRounds (P.problem pricer.now) effort.now.rounds) }
{
    let start = start_prices(alloc, pricer)?;
    let greatest = greatest(start.items.as_slice());
    let workers = effort.workers;
    let mut progress = first_round(rt, alloc, workers, pricer, caps, start, greatest, gate)?;
    for done in 1..effort.rounds {
        progress = next_round(
            rt, alloc, workers, pricer, caps, progress, done, greatest, gate,
        )?;
    }
    Ok(progress)
}

/// A lowering round after all price rounds and so many others.
fn lowering_round<R: Threads + Sync, P: Pricer + Sync, G: Gate + Sync>(
    rt: &R,
    alloc: Global,
    pricer: &P,
    caps: &[u32],
    progress: Progress,
    done: u32,
    effort: &Effort,
    gate: &G,
) -> Result<Progress, Memory>
    requires effort { IsEffort effort.now }
    requires sized { IsSized (P.problem pricer.now) }
    requires caps { caps.now ≡ (P.problem pricer.now).caps }
    requires progress { HasLowered (P.problem pricer.now) effort.now.rounds done progress }
    ensures { IfOk result (HasLowered (P.problem pricer.now) effort.now.rounds (done + 1)) }
{
    let Progress {
        pool,
        mut prices,
        mut kept,
    } = progress;
    let columns = next_offer(
        rt,
        alloc,
        effort.workers,
        pricer,
        caps,
        &prices,
        &mut kept,
        gate,
    )?;
    lower_all(&mut prices, columns.as_slice(), pricer);
    Ok(Progress { pool, prices, kept })
}

/// All rounds.
fn all_rounds<R: Threads + Sync, P: Pricer + Sync, G: Gate + Sync>(
    rt: &R,
    alloc: Global,
    pricer: &P,
    caps: &[u32],
    effort: &Effort,
    gate: &G,
) -> Result<Progress, Memory>
    requires effort { IsEffort effort.now }
    requires sized { IsSized (P.problem pricer.now) }
    requires caps { caps.now ≡ (P.problem pricer.now).caps }
    ensures { IfOk result (HasLowered (P.problem pricer.now) effort.now.rounds effort.now.lower) }
{
    let mut progress = price_rounds(rt, alloc, pricer, caps, effort, gate)?;
    for done in 0..effort.lower {
        progress = lowering_round(rt, alloc, pricer, caps, progress, done, effort, gate)?;
    }
    Ok(progress)
}

/// Makes the rounds of a pass over a problem, and gives its pool and the kept offer.
///
/// The pool has the columns that the price rounds found, in order of arrival and at most 200,000 of them. The kept offer is the first
/// one of the greatest bound among the prices at the start of each price round and of each lowering round and after the last of them.
/// Its class prices are those of the least values, so the prices are paid: no list is worth less than its prices less the price of its
/// class, and no plan costs less than the bound. All of this is the same for any number of workers, any gate and any order of steps.
///
/// The effort is in its ranges. `Memory` is the only error.
pub fn pass<R: Threads + Sync, P: Pricer + Sync, G: Gate + Sync>(
    rt: &R,
    alloc: Global,
    pricer: &P,
    effort: &Effort,
    gate: &G,
) -> Result<(Pool, Kept), Memory>
    requires effort { IsEffort effort.now }
    ensures pool { IfOk result (λ r. r.0 ≡ (after_rounds (P.problem pricer.now) effort.now.rounds).pool) }
    ensures columns { IfOk result (λ r. AreColumns (P.problem pricer.now) r.0) }
    ensures cheap { IfOk result (λ r. AreCheap r.0) }
    ensures kept { IfOk result (λ r. IsFirstGreatest (all_offers (P.problem pricer.now) effort.now.rounds effort.now.lower) r.1) }
    ensures prices { IfOk result (λ r. ArePricesFor (P.problem pricer.now) r.1.prices.items) }
    ensures class_prices { IfOk result (λ r. length r.1.class_prices ≡ length (P.problem pricer.now).caps) }
    ensures paid { IfOk result (λ r. IsPaid (P.problem pricer.now) r.1.prices.items r.1.class_prices) }
    ensures offer { IfOk result (λ r. r.1.bound ≡ bound_of r.1.prices.items r.1.class_prices (P.problem pricer.now).caps) }
    ensures bound { IfOk result (λ r. IsBoundOf (P.problem pricer.now) r.1.bound) }
{
    weak_duality::<P>();
    least_is_paid::<P>();
    least_values::<P>();
    let caps = caps_of(alloc, pricer)?;
    let progress = all_rounds(rt, alloc, pricer, caps.as_slice(), effort, gate)?;
    let Progress {
        pool,
        prices,
        mut kept,
    } = progress;
    let workers = effort.workers;
    next_offer(
        rt,
        alloc,
        workers,
        pricer,
        caps.as_slice(),
        &prices,
        &mut kept,
        gate,
    )?;
    Ok((pool, kept))
}
