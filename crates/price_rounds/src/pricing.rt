//! Pricing at a board of its own, and offers of what was priced.

ghost use Rattle.std.specs.Prelude.{◌≡◌, ◌*◌, ◌<◌, ◌≤◌, length, IfOk, OnOk};
ghost use Rattle.cover_core.specs.Plans.{AreColumns};
ghost use Rattle.dual_bound.specs.Offers.{kept_after};
ghost use Rattle.worker_price.specs.Priced.{groups_of, priced_columns};
ghost use Rattle.worker_price.specs.Work.{ArePricesFor};
ghost use Rattle.price_rounds.specs.Rounds.{offer_at};
ghost use Rattle.price_rounds.specs.Steps.{IsSized, IsPriced, AreReady, IsOffer};

use cover_core::{Column, Columns, Pricer, Prices, best_is_first_least};
use dual_bound::Kept;
use plan_core::{Gate, Memory, Seq};
use std::alloc::Global;
use std::thread::Threads;
use task_board::{Board, close};
use worker_price::{Priced, least_values, price_all};

/// How many groups of 16 first items there are.
fn group_count<C: Columns>(columns: &C) -> u32
    ensures value { result ≡ groups_of (C.problem columns.now).items }
    ensures few { result ≤ 188 }
{
    columns.items().div_ceil(16)
}

/// How many tasks a pricing step has: one for each class and group.
fn task_count<C: Columns>(columns: &C) -> u32
    ensures { result ≡ length (C.problem columns.now).caps * groups_of (C.problem columns.now).items }
{
    columns.classes() * group_count(columns)
}

/// Prices all classes and groups of a problem at a new board, which is closed with its desk: the columns to add to a pool, and the least
/// value of each class.
///
/// # Errors
///
/// [`Memory`] where it is refused.
pub fn price_once<R: Threads + Sync, P: Pricer + Sync, G: Gate + Sync>(
    rt: &R,
    alloc: Global,
    workers: u32,
    pricer: &P,
    prices: &Prices,
    gate: &G,
) -> Result<Priced, Memory>
    requires workers { (0 < workers) × (workers ≤ 64) }
    requires sized { IsSized (P.problem pricer.now) }
    requires prices { ArePricesFor (P.problem pricer.now) prices.now.items }
    ensures { IfOk result (IsPriced (P.problem pricer.now) prices.now.items) }
{
    best_is_first_least::<P>();
    least_values::<P>();
    let (board, desk) = Board::new(alloc, task_count(pricer), pricer.classes())?;
    let (priced, desk) = price_all(rt, alloc, workers, &board, desk, pricer, prices, gate)?;
    close(board, desk);
    Ok(priced)
}

/// Offers the first prices: gives the offer, whose class prices are made of the least values, and the columns that are priced.
///
/// # Errors
///
/// [`Memory`] where it is refused.
pub fn first_offer<R: Threads + Sync, P: Pricer + Sync, G: Gate + Sync>(
    rt: &R,
    alloc: Global,
    workers: u32,
    pricer: &P,
    caps: &[u32],
    prices: &Prices,
    gate: &G,
) -> Result<(Kept, Seq<Column>), Memory>
    requires workers { (0 < workers) × (workers ≤ 64) }
    requires sized { IsSized (P.problem pricer.now) }
    requires caps { caps.now ≡ (P.problem pricer.now).caps }
    requires prices { ArePricesFor (P.problem pricer.now) prices.now.items }
    ensures kept { IfOk result (λ r. r.0 ≡ offer_at (P.problem pricer.now) prices.now.items) }
    ensures columns { IfOk result (λ r. r.1 ≡ priced_columns (P.problem pricer.now) prices.now.items) }
    ensures ready { IfOk result (λ r. AreReady (P.problem pricer.now) r.1) }
{
    let Priced { columns, least } = price_once(rt, alloc, workers, pricer, prices, gate)?;
    let kept = Kept::first(alloc, prices, least.as_slice(), caps)?;
    Ok((kept, columns))
}

/// Offers prices after others, and gives the columns that are priced at them. The offer of the greater bound is kept, the older one where
/// they are equal.
///
/// # Errors
///
/// [`Memory`] where it is refused.
pub fn next_offer<R: Threads + Sync, P: Pricer + Sync, G: Gate + Sync>(
    rt: &R,
    alloc: Global,
    workers: u32,
    pricer: &P,
    caps: &[u32],
    prices: &Prices,
    kept: &mut Kept,
    gate: &G,
) -> Result<Seq<Column>, Memory>
    requires workers { (0 < workers) × (workers ≤ 64) }
    requires sized { IsSized (P.problem pricer.now) }
    requires caps { caps.now ≡ (P.problem pricer.now).caps }
    requires prices { ArePricesFor (P.problem pricer.now) prices.now.items }
    requires kept { IsOffer (P.problem pricer.now) kept.old }
    ensures kept { OnOk result (kept.new ≡ kept_after kept.old (offer_at (P.problem pricer.now) prices.now.items)) }
    ensures offer { OnOk result (IsOffer (P.problem pricer.now) kept.new) }
    ensures columns { IfOk result (λ columns. columns ≡ priced_columns (P.problem pricer.now) prices.now.items) }
    ensures ready { IfOk result (AreReady (P.problem pricer.now)) }
{
    let Priced { columns, least } = price_once(rt, alloc, workers, pricer, prices, gate)?;
    kept.offer(prices, least.as_slice(), caps)?;
    Ok(columns)
}
