//! Lowering rounds and the last offer.

ghost use Rattle.std.specs.Prelude.{◌≡◌, ◌<◌, ◌≤◌, length, IfOk, IfSome, OnOk};
ghost use Rattle.worker_price.specs.Work.{ArePricesFor};
ghost use Rattle.price_rounds.specs.Steps.{IsOffer};
ghost use Rattle.lagrangian_climb.specs.Choices.{AreAsked};
ghost use Rattle.plan_dive.specs.Grounds.{IsStock};
ghost use Rattle.climb_rounds.specs.Searches.{IsSearch};
ghost use Rattle.climb_rounds.specs.Settings.{IsSetting};
ghost use Rattle.climb_rounds.specs.Walks.{IsWalk};

use crate::best::Search;
use crate::guess::offer_next;
use crate::offers::{Offered, offer};
use crate::rounds::lower_all;
use crate::setting::Setting;
use crate::walk::{Walk, copy_of};
use cover_core::{Columns, Pricer, Prices};
use dual_bound::Kept;
use lagrangian_climb::{Choice, choose};
use plan_core::{Gate, Memory, Seq};
use plan_dive::{Stock, Workers, open_rest};
use price_rounds::Effort;
use std::alloc::Global;
use std::thread::Threads;

/// What each class asks for a place at some prices, by all columns of a stock.
fn asked_at<C: Columns>(
    alloc: Global,
    problem: &C,
    setting: &Setting,
    stock: &Stock,
    prices: &Prices,
) -> Result<Seq<i64>, Memory>
    requires setting { IsSetting (C.problem problem.now) setting.now }
    requires stock { IsStock (C.problem problem.now) stock.now }
    requires prices { ArePricesFor (C.problem problem.now) prices.now.items }
    ensures classes { IfOk result (λ asked. length asked ≡ length (C.problem problem.now).caps) }
    ensures asked { IfOk result AreAsked }
{
    let rest = open_rest(alloc, problem, &setting.ground, 0)?;
    let fixed = rest.fixed.as_slice();
    let choice = choose(
        alloc,
        stock.pool.as_slice(),
        fixed,
        rest.caps.as_slice(),
        prices,
    )?;
    let Choice { class_prices, .. } = choice;
    Ok(class_prices)
}

/// A lowering round: offers prices, adds the columns that are priced, and lowers the prices by all columns that are known. It ends the walk
/// where that changes nothing.
fn lowering_round<R: Threads + Sync, P: Pricer + Sync, G: Gate + Sync>(
    alloc: Global,
    problem: &P,
    rt: &R,
    gate: &G,
    workers: &Workers,
    setting: &Setting,
    search: &mut Search,
    walk: &mut Walk,
    asked: &[i64],
) -> Result<(), Memory>
    requires setting { IsSetting (P.problem problem.now) setting.now }
    requires search { IsSearch (P.problem problem.now) search.old }
    requires walk { IsWalk (P.problem problem.now) walk.old }
    requires classes { length asked.now ≡ length (P.problem problem.now).caps }
    requires asked { AreAsked asked.now }
    ensures search { OnOk result (IsSearch (P.problem problem.now) search.new) }
    ensures walk { OnOk result (IsWalk (P.problem problem.now) walk.new) }
{
    let columns = offer_next(alloc, problem, rt, gate, workers, setting, walk)?;
    search.stock.add(alloc, problem, columns)?;
    let before = copy_of(alloc, &walk.at)?;
    lower_all(problem, &search.stock, &mut walk.at, asked)?;
    walk.over = before.items == walk.at.items;
    Ok(())
}

/// All lowering rounds, from the centre, while the walk is not over.
pub(crate) fn lowering_rounds<R: Threads + Sync, P: Pricer + Sync, G: Gate + Sync>(
    alloc: Global,
    problem: &P,
    rt: &R,
    gate: &G,
    workers: &Workers,
    setting: &Setting,
    effort: &Effort,
    search: &mut Search,
    walk: Walk,
) -> Result<Walk, Memory>
    requires setting { IsSetting (P.problem problem.now) setting.now }
    requires search { IsSearch (P.problem problem.now) search.old }
    requires walk { IsWalk (P.problem problem.now) walk }
    ensures search { OnOk result (IsSearch (P.problem problem.now) search.new) }
    ensures walk { IfOk result (IsWalk (P.problem problem.now)) }
{
    let mut walk = walk;
    walk.at = copy_of(alloc, &walk.centre)?;
    let asked = asked_at(alloc, problem, setting, &search.stock, &walk.at)?;
    for _done in 0..effort.lower {
        if walk.over {
            return Ok(walk);
        }
        lowering_round(
            alloc,
            problem,
            rt,
            gate,
            workers,
            setting,
            search,
            &mut walk,
            asked.as_slice(),
        )?;
    }
    Ok(walk)
}

/// The kept offer after the prices of the best estimate are offered at its scale.
pub(crate) fn last_offer<R: Threads + Sync, P: Pricer + Sync, G: Gate + Sync>(
    alloc: Global,
    problem: &P,
    rt: &R,
    gate: &G,
    workers: &Workers,
    setting: &Setting,
    scaled: &Prices,
    kept: Option<Kept>,
) -> Result<Kept, Memory>
    requires setting { IsSetting (P.problem problem.now) setting.now }
    requires scaled { ArePricesFor (P.problem problem.now) scaled.now.items }
    requires kept { IfSome kept (IsOffer (P.problem problem.now)) }
    ensures { IfOk result (IsOffer (P.problem problem.now)) }
{
    let offered = offer(alloc, problem, rt, gate, workers, setting, scaled, kept)?;
    let Offered { kept, .. } = offered;
    Ok(kept)
}
