//! Price rounds.

ghost use Rattle.std.specs.Prelude.{true, false, ◌≡◌, ◌<◌, ◌≤◌, length, IfOk, IfSome, OnOk};
ghost use Rattle.worker_price.specs.Work.{ArePricesFor};
ghost use Rattle.price_rounds.specs.Steps.{AreReady, IsOffer};
ghost use Rattle.lagrangian_climb.specs.Choices.{AreAsked};
ghost use Rattle.plan_dive.specs.Grounds.{IsGround, IsCourse, IsRest, IsStock};
ghost use Rattle.climb_rounds.specs.Searches.{IsSearch};
ghost use Rattle.climb_rounds.specs.Settings.{IsSetting};
ghost use Rattle.climb_rounds.specs.Walks.{IsWalk};

use crate::best::{Search, settle};
use crate::guess::{is_near, offer_next};
use crate::setting::Setting;
use crate::walk::{Walk, middle};
use class_lowering::lower_in_order;
use cover_core::{Column, Columns, Pricer, Prices};
use lagrangian_climb::Rest;
use plan_core::{Gate, Memory, Seq};
use plan_dive::{Course, Ground, Stock, Workers, climb_once, dive, open_rest};
use price_rounds::Effort;
use std::alloc::Global;
use std::thread::Threads;

/// A pace four times as great, from 1 to 512.
fn next_pace(pace: u32) -> u32
    requires { pace ≤ 512 }
    ensures { result ≤ 512 }
{
    (4 * pace).clamp(1, 512)
}

/// Up to five climbs, each from the peak of the one before, until one leads to no new columns.
pub(crate) fn climb_often<C: Columns>(
    alloc: Global,
    problem: &C,
    ground: &Ground,
    stock: &mut Stock,
    rest: &Rest,
    course: &mut Course,
) -> Result<(), Memory>
    requires ground { IsGround (C.problem problem.now) ground.now }
    requires stock { IsStock (C.problem problem.now) stock.old }
    requires rest { IsRest (C.problem problem.now) rest.now }
    requires course { IsCourse (C.problem problem.now) course.old }
    ensures course { OnOk result (IsCourse (C.problem problem.now) course.new) }
    ensures stock { OnOk result (IsStock (C.problem problem.now) stock.new) }
{
    for _climb in 0..5u32 {
        let pace = course.pace;
        *course = climb_once(alloc, problem, ground, stock, rest, &course.prices, pace)?;
        course.pace = next_pace(course.pace);
        if !course.grew {
            return Ok(());
        }
    }
    Ok(())
}

/// Lowers prices by all columns of a stock.
pub(crate) fn lower_all<C: Columns>(
    problem: &C,
    stock: &Stock,
    prices: &mut Prices,
    asked: &[i64],
) -> Result<(), Memory>
    requires stock { IsStock (C.problem problem.now) stock.now }
    requires prices { ArePricesFor (C.problem problem.now) prices.old.items }
    requires classes { length asked.now ≡ length (C.problem problem.now).caps }
    requires asked { AreAsked asked.now }
    ensures { OnOk result (ArePricesFor (C.problem problem.now) prices.new.items) }
{
    // items and classes are few, which a problem says where it is asked
    let _items = problem.items();
    let _classes = problem.classes();
    lower_in_order(prices, &stock.pool, asked)
}

/// Adds columns and climbs.
fn climb_step<C: Columns>(
    alloc: Global,
    problem: &C,
    setting: &Setting,
    search: &mut Search,
    course: &mut Course,
    columns: Seq<Column>,
) -> Result<(), Memory>
    requires setting { IsSetting (C.problem problem.now) setting.now }
    requires search { IsSearch (C.problem problem.now) search.old }
    requires course { IsCourse (C.problem problem.now) course.old }
    requires columns { AreReady (C.problem problem.now) columns }
    ensures course { OnOk result (IsCourse (C.problem problem.now) course.new) }
    ensures search { OnOk result (IsSearch (C.problem problem.now) search.new) }
{
    search.stock.add(alloc, problem, columns)?;
    let rest = open_rest(alloc, problem, &setting.ground, search.aim())?;
    climb_often(
        alloc,
        problem,
        &setting.ground,
        &mut search.stock,
        &rest,
        course,
    )
}

/// Dives from nothing, and settles the plan.
pub(crate) fn dive_from_nothing<R: Threads + Sync, P: Pricer + Sync, G: Gate + Sync>(
    alloc: Global,
    problem: &P,
    rt: &R,
    gate: &G,
    workers: &Workers,
    setting: &Setting,
    steps: u32,
    search: Search,
    course: &Course,
    counted: bool,
) -> Result<Search, Memory>
    requires setting { IsSetting (P.problem problem.now) setting.now }
    requires search { IsSearch (P.problem problem.now) search }
    requires course { IsCourse (P.problem problem.now) course.now }
    ensures { IfOk result (IsSearch (P.problem problem.now)) }
{
    let nothing = Seq::new(alloc);
    dive_beside(
        alloc,
        problem,
        rt,
        gate,
        workers,
        setting,
        steps,
        search,
        nothing.as_slice(),
        course,
        counted,
        0,
    )
}

/// Dives beside columns that stay, and settles the plan.
pub(crate) fn dive_beside<R: Threads + Sync, P: Pricer + Sync, G: Gate + Sync>(
    alloc: Global,
    problem: &P,
    rt: &R,
    gate: &G,
    workers: &Workers,
    setting: &Setting,
    steps: u32,
    search: Search,
    stay: &[Column],
    course: &Course,
    counted: bool,
    pricings: u32,
) -> Result<Search, Memory>
    requires setting { IsSetting (P.problem problem.now) setting.now }
    requires search { IsSearch (P.problem problem.now) search }
    requires stay { AreReady (P.problem problem.now) stay.now }
    requires course { IsCourse (P.problem problem.now) course.now }
    ensures { IfOk result (IsSearch (P.problem problem.now)) }
{
    let aim = search.aim();
    let Search {
        mut stock,
        best,
        cost,
    } = search;
    let dived = dive(
        alloc,
        problem,
        rt,
        gate,
        workers,
        &setting.ground,
        &mut stock,
        stay,
        aim,
        course,
        counted,
        pricings,
    )?;
    let search = Search { stock, best, cost };
    match dived {
        None => Ok(search),
        Some(plan) => settle(alloc, problem, rt, steps, search, plan),
    }
}

/// The next prices to offer: half way between the centre and the prices that climbed, lowered by all columns that are known.
fn next_prices<C: Columns>(
    alloc: Global,
    problem: &C,
    stock: &Stock,
    centre: &Prices,
    course: &Course,
) -> Result<Prices, Memory>
    requires stock { IsStock (C.problem problem.now) stock.now }
    requires centre { ArePricesFor (C.problem problem.now) centre.now.items }
    requires course { IsCourse (C.problem problem.now) course.now }
    ensures { IfOk result (λ prices. ArePricesFor (C.problem problem.now) prices.items) }
{
    let mut prices = middle(alloc, problem, centre, &course.prices)?;
    lower_all(problem, stock, &mut prices, course.asked.as_slice())?;
    Ok(prices)
}

/// A price round: offers prices, climbs, dives where it is asked to, and makes the next prices. It does no more than offer where the best
/// estimate is near the cost of the best plan.
fn price_round<R: Threads + Sync, P: Pricer + Sync, G: Gate + Sync>(
    alloc: Global,
    problem: &P,
    rt: &R,
    gate: &G,
    workers: &Workers,
    setting: &Setting,
    steps: u32,
    search: Search,
    walk: &mut Walk,
    dives: bool,
) -> Result<Search, Memory>
    requires setting { IsSetting (P.problem problem.now) setting.now }
    requires search { IsSearch (P.problem problem.now) search }
    requires walk { IsWalk (P.problem problem.now) walk.old }
    ensures search { IfOk result (IsSearch (P.problem problem.now)) }
    ensures walk { OnOk result (IsWalk (P.problem problem.now) walk.new) }
{
    let mut search = search;
    let columns = offer_next(alloc, problem, rt, gate, workers, setting, walk)?;
    if is_near(&search, walk.guess, problem.items()) {
        walk.over = true;
        return Ok(search);
    }
    climb_step(
        alloc,
        problem,
        setting,
        &mut search,
        &mut walk.course,
        columns,
    )?;
    if dives {
        search = dive_from_nothing(
            alloc,
            problem,
            rt,
            gate,
            workers,
            setting,
            steps,
            search,
            &walk.course,
            true,
        )?;
    }
    walk.at = next_prices(alloc, problem, &search.stock, &walk.centre, &walk.course)?;
    Ok(search)
}

/// Whether a dive ends a round, counted from 1: each 20th round where only the bound is wanted, else each 8th.
fn ends_in_dive(counted: bool, round: u32) -> bool
    ensures { round ≡ 1 → result ≡ false }
{
    if counted {
        round % 20 == 0
    } else {
        round % 8 == 0
    }
}

/// All price rounds, while the walk is not over.
pub(crate) fn price_rounds<R: Threads + Sync, P: Pricer + Sync, G: Gate + Sync>(
    alloc: Global,
    problem: &P,
    rt: &R,
    gate: &G,
    workers: &Workers,
    setting: &Setting,
    effort: &Effort,
    counted: bool,
    search: Search,
    walk: Walk,
) -> Result<(Search, Walk), Memory>
    requires setting { IsSetting (P.problem problem.now) setting.now }
    requires search { IsSearch (P.problem problem.now) search }
    requires walk { IsWalk (P.problem problem.now) walk }
    ensures search { IfOk result (λ r. IsSearch (P.problem problem.now) r.0) }
    ensures walk { IfOk result (λ r. IsWalk (P.problem problem.now) r.1) }
{
    let mut search = search;
    let mut walk = walk;
    for done in 0..effort.rounds {
        if walk.over {
            return Ok((search, walk));
        }
        let dives = ends_in_dive(counted, done + 1);
        let steps = effort.exchange;
        search = price_round(
            alloc, problem, rt, gate, workers, setting, steps, search, &mut walk, dives,
        )?;
    }
    Ok((search, walk))
}
