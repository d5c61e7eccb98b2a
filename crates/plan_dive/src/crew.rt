//! Pricing by workers in threads.

ghost use Rattle.std.specs.Prelude.{◌≡◌, ◌<◌, ◌≤◌, IfOk};
ghost use Rattle.worker_price.specs.Work.{ArePricesFor};
ghost use Rattle.price_rounds.specs.Steps.{IsSized, IsPriced};

use cover_core::{Pricer, Prices};
use plan_core::{Gate, Memory};
use price_rounds::price_once;
use std::alloc::Global;
use std::thread::Threads;
use worker_price::Priced;

/// How many workers price, 1 to 64. Only [`price`] sees their number.
#[derive(Drop)]
pub struct Workers {
    count: u32,
    ghost some: { 0 < count },
    ghost few: { count ≤ 64 },
}

impl Workers {
    ghost use Rattle.plan_dive.specs.Crews.{count_of};

    /// So many workers, 1 to 64.
    pub fn new(count: u32) -> Workers
        requires some { 0 < count }
        requires few { count ≤ 64 }
        ensures { count_of result ≡ count }
    {
        Workers { count }
    }
}

/// Prices all classes and groups of a problem by workers in threads, as a gate lets them: the columns to add to a pool, and the least value
/// of each class. The clauses determine the answer: neither workers nor the gate change it. `Memory` is the only error.
pub fn price<R: Threads + Sync, P: Pricer + Sync, G: Gate + Sync>(
    rt: &R,
    alloc: Global,
    workers: &Workers,
    problem: &P,
    prices: &Prices,
    gate: &G,
) -> Result<Priced, Memory>
    requires sized { IsSized (P.problem problem.now) }
    requires prices { ArePricesFor (P.problem problem.now) prices.now.items }
    ensures { IfOk result (IsPriced (P.problem problem.now) prices.now.items) }
{
    price_once(rt, alloc, workers.count, problem, prices, gate)
}
