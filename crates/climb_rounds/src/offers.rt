//! Offers and their estimates.

ghost use Rattle.std.specs.Prelude.{◌≡◌, ◌<◌, ◌≤◌, ◌≤ℤ◌, pos, neg_ℤ, length, IfOk, IfSome, OnOk};
ghost use Rattle.plan_core.specs.Limits.{most_items, most_price};
ghost use Rattle.cover_core.specs.FirstLeast.{AllWithin};
ghost use Rattle.dual_bound.specs.Ranges.{AreAtLeast};
ghost use Rattle.worker_price.specs.Priced.{priced_least};
ghost use Rattle.worker_price.specs.Work.{ArePricesFor};
ghost use Rattle.price_rounds.specs.Steps.{AreReady, IsOffer, IsPriced};
ghost use Rattle.offer_estimate.specs.Scales.{AreLeasts, IsScale};
ghost use Rattle.climb_rounds.specs.Settings.{IsSetting};
ghost use Rattle.climb_rounds.specs.Walks.{IsOffered};

use crate::setting::Setting;
use cover_core::{Column, Columns, Pricer, Prices, price_at};
use dual_bound::Kept;
use offer_estimate::{Estimate, best_guess};
use plan_core::{Gate, Memory, Seq};
use plan_dive::{Workers, price};
use std::alloc::Global;
use std::thread::Threads;
use worker_price::{Priced, least_values};

/// What comes of an offer.
#[derive(Drop)]
pub(crate) struct Offered {
    /// The kept offer.
    pub(crate) kept: Kept,
    /// The columns that were priced.
    pub(crate) columns: Seq<Column>,
    /// What the bound would be at a scale.
    pub(crate) estimate: Estimate,
}

/// The kept offer after prices are offered that were priced.
fn kept_of<C: Columns>(
    alloc: Global,
    _problem: &C,
    setting: &Setting,
    prices: &Prices,
    least: &[i64],
    kept: Option<Kept>,
) -> Result<Kept, Memory>
    requires setting { IsSetting (C.problem _problem.now) setting.now }
    requires prices { ArePricesFor (C.problem _problem.now) prices.now.items }
    requires least { least.now ≡ priced_least (C.problem _problem.now) prices.now.items }
    requires one_each { length least.now ≡ length (C.problem _problem.now).caps }
    requires low { AreAtLeast (neg_ℤ (pos 1000000000000000000)) least.now }
    requires kept { IfSome kept (IsOffer (C.problem _problem.now)) }
    ensures { IfOk result (IsOffer (C.problem _problem.now)) }
{
    let caps = setting.ground.caps.as_slice();
    match kept {
        None => Kept::first(alloc, prices, least, caps),
        Some(older) => {
            let mut kept = older;
            kept.offer(prices, least, caps)?;
            Ok(kept)
        }
    }
}

/// The sum of all prices.
fn sum_of(prices: &Prices) -> i128
    requires few { length prices.now.items ≤ most_items }
    requires moderate { AllWithin most_price prices.now.items }
    ensures low { neg_ℤ (pos 30000000000000000) ≤ℤ result }
    ensures high { result ≤ℤ pos 30000000000000000 }
{
    let mut sum: i128 = 0;
    for item in 0..prices.items.len() {
        sum += price_at(prices, item) as i128;
    }
    sum
}

/// The estimate of the bound of prices that were priced.
fn estimate_of<C: Columns>(
    _problem: &C,
    setting: &Setting,
    prices: &Prices,
    least: &[i64],
) -> Estimate
    requires setting { IsSetting (C.problem _problem.now) setting.now }
    requires prices { ArePricesFor (C.problem _problem.now) prices.now.items }
    requires least { least.now ≡ priced_least (C.problem _problem.now) prices.now.items }
    requires one_each { length least.now ≡ length (C.problem _problem.now).caps }
    ensures { IsScale result.scale }
{
    least_values::<C>();
    let sum = sum_of(prices);
    let worths = setting.worths.as_slice();
    let caps = setting.caps.as_slice();
    best_guess(sum, least, worths, caps)
}

/// Prices a vector of prices, offers it, and estimates its bound at a scale. The kept offer is the older one unless the new bound is
/// greater.
pub(crate) fn offer<R: Threads + Sync, P: Pricer + Sync, G: Gate + Sync>(
    alloc: Global,
    problem: &P,
    rt: &R,
    gate: &G,
    workers: &Workers,
    setting: &Setting,
    prices: &Prices,
    kept: Option<Kept>,
) -> Result<Offered, Memory>
    requires setting { IsSetting (P.problem problem.now) setting.now }
    requires prices { ArePricesFor (P.problem problem.now) prices.now.items }
    requires kept { IfSome kept (IsOffer (P.problem problem.now)) }
    ensures { IfOk result (IsOffered (P.problem problem.now)) }
{
    let Priced { columns, least } = price(rt, alloc, workers, problem, prices, gate)?;
    let estimate = estimate_of(problem, setting, prices, least.as_slice());
    let kept = kept_of(alloc, problem, setting, prices, least.as_slice(), kept)?;
    Ok(Offered {
        kept,
        columns,
        estimate,
    })
}
