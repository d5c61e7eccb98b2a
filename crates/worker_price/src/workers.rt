//! Several workers at one board.

ghost use Rattle.std.specs.Prelude.{◌≡◌, ◌+◌, ◌-◌, ◌<◌, ◌≤◌, vec_len, All, IfOk};
ghost use Rattle.task_board.specs.Sheets.{whole, IfWhole};
ghost use Rattle.task_board.specs.Desks.{extent_of, sheet_of, IsDeskOf};
ghost use Rattle.worker_price.specs.Work.{idle, IsHelper, IsBoardFor, ArePricesFor};
ghost use Rattle.worker_price.specs.Gathered.{IsDone, IfDone, IsJoined, IsComplete};

use crate::found::Served;
use crate::work;
use cover_core::{Pricer, Prices};
use plan_core::{Gate, Memory};
use std::alloc::Global;
use std::thread;
use std::thread::Threads;
use task_board::{Board, Desk};

/// What one worker does with a desk of its own.
fn serve<P: Pricer, G: Gate>(
    alloc: Global,
    board: &Board,
    desk: Desk,
    pricer: &P,
    prices: &Prices,
    gate: &G,
) -> Result<Served, Memory>
    requires desk { IsHelper board.now desk }
    requires board { IsBoardFor (P.problem pricer.now) board.now }
    requires prices { ArePricesFor (P.problem pricer.now) prices.now.items }
    ensures { IfDone board.now (P.problem pricer.now) prices.now.items result }
{
    let mut desk = desk;
    let found = work(alloc, board, &mut desk, pricer, prices, gate)?.into_vec();
    Ok(Served { found, desk })
}

/// Hands each desk to a worker.
fn serve_all<R: Threads + Sync, P: Pricer + Sync, G: Gate + Sync>(
    rt: &R,
    alloc: Global,
    board: &Board,
    desks: Vec<Desk>,
    pricer: &P,
    prices: &Prices,
    gate: &G,
) -> Result<Vec<Result<Served, Memory>>, Memory>
    requires desks { All (IsHelper board.now) desks.items }
    requires board { IsBoardFor (P.problem pricer.now) board.now }
    requires prices { ArePricesFor (P.problem pricer.now) prices.now.items }
    ensures len { IfOk result (λ v. vec_len v ≡ vec_len desks) }
    ensures each { IfOk result (λ v. All (IfDone board.now (P.problem pricer.now) prices.now.items) v.items) }
{
    Ok(thread::map_vec(
        rt,
        desks,
        &|desk| serve(alloc, board, desk, pricer, prices, gate),
    )?)
}

/// Cuts a desk of one part for each worker off the first desk.
fn desks_of_workers(
    alloc: Global,
    board: &Board,
    desk: Desk,
    workers: u32,
) -> Result<(Desk, Vec<Desk>), Memory>
    requires board { IsDeskOf board.now desk }
    requires first { sheet_of desk ≡ idle (extent_of board.now).tasks whole }
    requires workers { workers ≤ 64 }
    ensures home { IfOk result (λ r. IsDeskOf board.now r.0 × (sheet_of r.0 ≡ idle (extent_of board.now).tasks (whole - workers))) }
    ensures len { IfOk result (λ r. vec_len r.1 ≡ workers) }
    ensures helpers { IfOk result (λ r. All (IsHelper board.now) r.1.items) }
{
    let mut home = desk;
    let mut helpers = Vec::new(alloc);
    for _made in 0..workers {
        let (rest, helper) = home.split(board);
        home = rest;
        helpers.push(helper)?;
    }
    Ok((home, helpers))
}

/// Takes in what a worker did.
fn take_in<P: Pricer>(
    board: &Board,
    mine: Served,
    theirs: Served,
    _pricer: &P,
    _prices: &Prices,
) -> Result<Served, Memory>
    requires mine { IsJoined board.now (P.problem _pricer.now) _prices.now.items mine }
    requires theirs { IsDone board.now (P.problem _pricer.now) _prices.now.items theirs }
    ensures joined { IfOk result (IsJoined board.now (P.problem _pricer.now) _prices.now.items) }
    ensures share { IfOk result (λ s. (sheet_of s.desk).share ≡ (sheet_of mine.desk).share + 1) }
    ensures ended { IfOk result (λ s. 0 < (sheet_of s.desk).over) }
    ensures whole { IfOk result (λ s. IfWhole (sheet_of s.desk)) }
{
    let Served { mut found, desk } = mine;
    let Served {
        found: mut more,
        desk: other,
    } = theirs;
    found.append(&mut more)?;
    let desk = desk.join(other, board);
    Ok(Served { found, desk })
}

/// Joins all that the workers did.
fn gather<P: Pricer>(
    alloc: Global,
    board: &Board,
    home: Desk,
    mut results: Vec<Result<Served, Memory>>,
    pricer: &P,
    prices: &Prices,
) -> Result<Served, Memory>
    requires home { IsDeskOf board.now home }
    requires idle { sheet_of home ≡ idle (extent_of board.now).tasks (whole - vec_len results) }
    requires some { (0 < vec_len results) × (vec_len results ≤ 64) }
    requires each { All (IfDone board.now (P.problem pricer.now) prices.now.items) results.items }
    ensures { IfOk result (IsComplete board.now (P.problem pricer.now) prices.now.items) }
{
    let mut all = Served {
        found: Vec::new(alloc),
        desk: home,
    };
    while let Some(result) = results.pop() {
        all = take_in(board, all, result?, pricer, prices)?;
    }
    Ok(all)
}

/// Prices all tasks by so many workers, and hands back the desk that did them all, with what was found.
pub(crate) fn price_together<R: Threads + Sync, P: Pricer + Sync, G: Gate + Sync>(
    rt: &R,
    alloc: Global,
    workers: u32,
    board: &Board,
    desk: Desk,
    pricer: &P,
    prices: &Prices,
    gate: &G,
) -> Result<Served, Memory>
    requires desk { IsDeskOf board.now desk }
    requires first { sheet_of desk ≡ idle (extent_of board.now).tasks whole }
    requires workers { (0 < workers) × (workers ≤ 64) }
    requires board { IsBoardFor (P.problem pricer.now) board.now }
    requires prices { ArePricesFor (P.problem pricer.now) prices.now.items }
    ensures { IfOk result (IsComplete board.now (P.problem pricer.now) prices.now.items) }
{
    let (home, helpers) = desks_of_workers(alloc, board, desk, workers)?;
    let results = serve_all(rt, alloc, board, helpers, pricer, prices, gate)?;
    gather(alloc, board, home, results, pricer, prices)
}
