//! A pricing step.

ghost use Rattle.std.specs.Prelude.{◌≡◌, ◌*◌, ◌<◌, ◌≤◌, length, IfOk};
ghost use Rattle.cover_core.specs.Fitting.{AreFit};
ghost use Rattle.task_board.specs.Sheets.{fresh};
ghost use Rattle.task_board.specs.Desks.{extent_of, sheet_of, IsDeskOf};
ghost use Rattle.worker_price.specs.Priced.{priced_columns, priced_least};
ghost use Rattle.worker_price.specs.Work.{IsBoardFor, ArePricesFor};
ghost use Rattle.worker_price.specs.Gathered.{IsComplete, HasPricedAll};

use crate::found::Served;
use crate::order::{columns_in, kept_slots, least_found};
use crate::priced::Priced;
use crate::worker::group_count;
use crate::workers::price_together;
use cover_core::{Pricer, Prices};
use plan_core::{Gate, Memory};
use std::alloc::Global;
use std::thread::Threads;
use task_board::{Board, Desk};

/// The columns to keep of what all workers found, and the least values.
fn choose<P: Pricer>(
    alloc: Global,
    board: &Board,
    served: Served,
    pricer: &P,
    prices: &Prices,
) -> Result<(Priced, Desk), Memory>
    requires board { IsBoardFor (P.problem pricer.now) board.now }
    requires prices { ArePricesFor (P.problem pricer.now) prices.now.items }
    requires complete { IsComplete board.now (P.problem pricer.now) prices.now.items served }
    ensures columns { IfOk result (λ r. r.0.columns ≡ priced_columns (P.problem pricer.now) prices.now.items) }
    ensures least { IfOk result (λ r. r.0.least ≡ priced_least (P.problem pricer.now) prices.now.items) }
    ensures fit { IfOk result (λ r. AreFit (length prices.now.items) (length (P.problem pricer.now).caps) r.0.columns) }
    ensures desk { IfOk result (λ r. HasPricedAll board.now (P.problem pricer.now) prices.now.items r.1) }
{
    let classes = pricer.classes();
    let groups = group_count(pricer);
    let Served { found, desk } = served;
    let least = least_found(alloc, classes, groups, found.as_slice(), prices)?;
    let slots = kept_slots(alloc, classes, groups, found, &least, prices, pricer)?;
    let columns = columns_in(alloc, slots)?;
    Ok((Priced { columns, least }, desk))
}

/// Prices all classes and groups by so many workers, 1 to 64, in threads of their own.
///
/// The answer is the columns to keep and the least values, which are the same for any number of workers, any gate and any order of
/// their steps, with the desk, which has the whole share again: it drew each task once, has one look at its class for each, and the
/// values by which it lowered a class have the least value of the class as their least.
///
/// The board is one for the classes and groups of the pricer, and the desk is its first one, as `Board::new` gives both. There is a
/// price for each item, each from -10,000,000,000,000 to 10,000,000,000,000. `Memory` is the only error, and the desk is then dropped.
pub fn price_all<R: Threads + Sync, P: Pricer + Sync, G: Gate + Sync>(
    rt: &R,
    alloc: Global,
    workers: u32,
    board: &Board,
    desk: Desk,
    pricer: &P,
    prices: &Prices,
    gate: &G,
) -> Result<(Priced, Desk), Memory>
    requires workers { (0 < workers) × (workers ≤ 64) }
    requires board { IsBoardFor (P.problem pricer.now) board.now }
    requires desk { IsDeskOf board.now desk }
    requires first { sheet_of desk ≡ fresh (extent_of board.now).tasks }
    requires prices { ArePricesFor (P.problem pricer.now) prices.now.items }
    ensures columns { IfOk result (λ r. r.0.columns ≡ priced_columns (P.problem pricer.now) prices.now.items) }
    ensures least { IfOk result (λ r. r.0.least ≡ priced_least (P.problem pricer.now) prices.now.items) }
    ensures fit { IfOk result (λ r. AreFit (length prices.now.items) (length (P.problem pricer.now).caps) r.0.columns) }
    ensures desk { IfOk result (λ r. HasPricedAll board.now (P.problem pricer.now) prices.now.items r.1) }
{
    let served = price_together(rt, alloc, workers, board, desk, pricer, prices, gate)?;
    choose(alloc, board, served, pricer, prices)
}
