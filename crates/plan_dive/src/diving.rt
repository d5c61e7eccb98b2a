//! Dives.

ghost use Rattle.std.specs.Prelude.{◌≡◌, ◌<◌, ◌≤◌, ◌∷◌, [], length, IfOk, OnOk};
ghost use Rattle.plan_core.specs.Limits.{most_price};
ghost use Rattle.cover_core.specs.Plans.{AreColumns};
ghost use Rattle.cover_core.specs.FirstLeast.{AllWithin, AreCheap};
ghost use Rattle.price_rounds.specs.Steps.{AreReady, IsSized};
ghost use Rattle.worker_price.specs.Work.{ArePricesFor};
ghost use Rattle.plan_dive.specs.Grounds.{IsGround, IsStock, IsCourse};
ghost use Rattle.plan_dive.specs.Descents.{IsDescent, IsDived};

use crate::course::{Course, climb_once};
use crate::crew::{Workers, price};
use crate::descent::{Descent, begin, free_items};
use crate::ground::Ground;
use crate::order::fix_some;
use crate::stock::Stock;
use column_pool::Pool;
use cover_core::{Column, Columns, Plan, Pricer, Prices};
use plan_core::{Gate, Memory, Price, Seq};
use plan_round::{RoundFault, round};
use price_rounds::add_all;
use std::alloc::Global;
use std::thread::Threads;
use worker_price::Priced;

/// Climbs twice at the full pace, the second time only where the first one led to new columns.
fn climb_twice<C: Columns>(
    alloc: Global,
    problem: &C,
    ground: &Ground,
    stock: &mut Stock,
    descent: &Descent,
    prices: &Prices,
) -> Result<Course, Memory>
    requires ground { IsGround (C.problem problem.now) ground.now }
    requires stock { IsStock (C.problem problem.now) stock.old }
    requires descent { IsDescent (C.problem problem.now) descent.now }
    requires prices { ArePricesFor (C.problem problem.now) prices.now.items }
    ensures course { IfOk result (IsCourse (C.problem problem.now)) }
    ensures stock { OnOk result (IsStock (C.problem problem.now) stock.new) }
{
    let rest = &descent.rest;
    let course = climb_once(alloc, problem, ground, stock, rest, prices, 512)?;
    if course.grew {
        climb_once(alloc, problem, ground, stock, rest, &course.prices, 512)
    } else {
        Ok(course)
    }
}

/// Makes the price of an item so low that no column with it pays.
fn shut_item(items: &mut Seq<Price>, item: usize)
    requires inside { item < length items.old }
    requires moderate { AllWithin most_price items.old }
    ensures len { length items.new ≡ length items.old }
    ensures moderate { AllWithin most_price items.new }
{
    items.set(item, Price(-10000000000000));
}

/// Prices at which no column pays that has a fixed item.
fn prices_away<C: Columns>(
    alloc: Global,
    _problem: &C,
    fixed: &[bool],
    prices: &Prices,
) -> Result<Prices, Memory>
    requires fixed { length fixed.now ≡ (C.problem _problem.now).items }
    requires prices { ArePricesFor (C.problem _problem.now) prices.now.items }
    ensures { IfOk result (λ new. ArePricesFor (C.problem _problem.now) new.items) }
{
    let mut items = prices.items.with_items(prices.items.as_slice())?;
    for (item, is_fixed) in fixed.iter().enumerate() {
        if *is_fixed {
            shut_item(&mut items, item);
        }
    }
    Ok(Prices { items })
}

/// Prices what is left, and adds the columns; answers whether there were new ones.
fn price_rest<R: Threads + Sync, P: Pricer + Sync, G: Gate + Sync>(
    alloc: Global,
    problem: &P,
    rt: &R,
    gate: &G,
    workers: &Workers,
    stock: &mut Stock,
    fixed: &[bool],
    prices: &Prices,
) -> Result<bool, Memory>
    requires sized { IsSized (P.problem problem.now) }
    requires stock { IsStock (P.problem problem.now) stock.old }
    requires fixed { length fixed.now ≡ (P.problem problem.now).items }
    requires prices { ArePricesFor (P.problem problem.now) prices.now.items }
    ensures { OnOk result (IsStock (P.problem problem.now) stock.new) }
{
    let away = prices_away(alloc, problem, fixed, prices)?;
    let Priced { columns, .. } = price(rt, alloc, workers, problem, &away, gate)?;
    stock.add(alloc, problem, columns)
}

/// Climbs, and prices what is left as often as pricings are left and lead to new columns; gives the course and the pricings that are left
/// then.
fn explore<R: Threads + Sync, P: Pricer + Sync, G: Gate + Sync>(
    alloc: Global,
    problem: &P,
    rt: &R,
    gate: &G,
    workers: &Workers,
    ground: &Ground,
    stock: &mut Stock,
    descent: &Descent,
    prices: &Prices,
    pricings: u32,
) -> Result<(Course, u32), Memory>
    requires ground { IsGround (P.problem problem.now) ground.now }
    requires stock { IsStock (P.problem problem.now) stock.old }
    requires descent { IsDescent (P.problem problem.now) descent.now }
    requires prices { ArePricesFor (P.problem problem.now) prices.now.items }
    ensures course { IfOk result (λ r. IsCourse (P.problem problem.now) r.0) }
    ensures stock { OnOk result (IsStock (P.problem problem.now) stock.new) }
{
    let fixed = descent.rest.fixed.as_slice();
    let mut course = climb_twice(alloc, problem, ground, stock, descent, prices)?;
    for done in 0..pricings {
        if !price_rest(
            alloc,
            problem,
            rt,
            gate,
            workers,
            stock,
            fixed,
            &course.prices,
        )? {
            return Ok((course, pricings - 1 - done));
        }
        course = climb_twice(alloc, problem, ground, stock, descent, &course.prices)?;
    }
    Ok((course, 0))
}

/// Fixes columns until all items are fixed or no column can be, and gives the prices that were reached.
fn descend<R: Threads + Sync, P: Pricer + Sync, G: Gate + Sync>(
    alloc: Global,
    problem: &P,
    rt: &R,
    gate: &G,
    workers: &Workers,
    ground: &Ground,
    stock: &mut Stock,
    descent: &mut Descent,
    prices: &Prices,
    pricings: u32,
) -> Result<Prices, Memory>
    requires ground { IsGround (P.problem problem.now) ground.now }
    requires stock { IsStock (P.problem problem.now) stock.old }
    requires descent { IsDescent (P.problem problem.now) descent.old }
    requires prices { ArePricesFor (P.problem problem.now) prices.now.items }
    ensures prices { IfOk result (λ prices. ArePricesFor (P.problem problem.now) prices.items) }
    ensures stock { OnOk result (IsStock (P.problem problem.now) stock.new) }
    ensures descent { OnOk result (IsDescent (P.problem problem.now) descent.new) }
{
    let items = prices.items.with_items(prices.items.as_slice())?;
    let mut prices = Prices { items };
    let mut pricings = pricings;
    for _step in 0..problem.items() {
        if free_items(descent.rest.fixed.as_slice()) == 0 {
            return Ok(prices);
        }
        let explored = explore(
            alloc, problem, rt, gate, workers, ground, stock, descent, &prices, pricings,
        )?;
        let (course, left) = explored;
        if !fix_some(alloc, problem, stock, &course, descent)? {
            return Ok(course.prices);
        }
        prices = course.prices;
        pricings = left;
    }
    Ok(prices)
}

/// A pool of columns.
fn pool_of<C: Columns>(alloc: Global, problem: &C, columns: Seq<Column>) -> Result<Pool, Memory>
    requires { AreReady (C.problem problem.now) columns }
    ensures columns { IfOk result (AreColumns (C.problem problem.now)) }
    ensures cheap { IfOk result AreCheap }
{
    let mut pool = Pool::new(alloc);
    add_all(&mut pool, columns, problem)?;
    Ok(pool)
}

/// A plan of the fixed columns and of what rounding adds to them; None where rounding leaves an item.
fn completed_plan<C: Columns>(
    alloc: Global,
    problem: &C,
    fixed: Seq<Column>,
    prices: &Prices,
) -> Result<Option<Plan>, Memory>
    requires fixed { AreReady (C.problem problem.now) fixed }
    requires prices { ArePricesFor (C.problem problem.now) prices.now.items }
    ensures { IfOk result (IsDived (C.problem problem.now)) }
{
    let pool = pool_of(alloc, problem, fixed)?;
    match round(alloc, problem, &pool, prices) {
        Ok(plan) => Ok(Some(plan)),
        Err(RoundFault::NotPlaced { .. }) => Ok(None),
        Err(RoundFault::Memory) => Err(Memory),
    }
}

/// The columns that a dive fixes, and the prices that it reaches.
fn fixed_columns<R: Threads + Sync, P: Pricer + Sync, G: Gate + Sync>(
    alloc: Global,
    problem: &P,
    rt: &R,
    gate: &G,
    workers: &Workers,
    ground: &Ground,
    stock: &mut Stock,
    stay: &[Column],
    aim: i64,
    course: &Course,
    counted: bool,
    pricings: u32,
) -> Result<(Seq<Column>, Prices), Memory>
    requires ground { IsGround (P.problem problem.now) ground.now }
    requires stock { IsStock (P.problem problem.now) stock.old }
    requires stay { AreReady (P.problem problem.now) stay.now }
    requires course { IsCourse (P.problem problem.now) course.now }
    ensures fixed { IfOk result (λ r. AreReady (P.problem problem.now) r.0) }
    ensures prices { IfOk result (λ r. ArePricesFor (P.problem problem.now) r.1.items) }
    ensures stock { OnOk result (IsStock (P.problem problem.now) stock.new) }
{
    let mut descent = begin(alloc, problem, ground, stay, aim)?;
    if counted {
        fix_some(alloc, problem, stock, course, &mut descent)?;
    }
    let prices = descend(
        alloc,
        problem,
        rt,
        gate,
        workers,
        ground,
        stock,
        &mut descent,
        &course.prices,
        pricings,
    )?;
    Ok((descent.fixed, prices))
}

/// Dives to a plan: some columns stay, further ones are fixed at prices that climb, and rounding places the items that are left.
///
/// The prices climb from those of the course. Where `counted`, the first columns are fixed by the course's own counts. `aim` is the cost of
/// the best plan so far, in thousandths of a cost unit. The rest is priced at most `pricings` times. The columns that are found on the way
/// are added to the stock.
///
/// The answer is None where rounding leaves an item, which does not happen where each item alone has a worth in a class whose cap is at
/// least the number of items. `Memory` is the only error.
pub fn dive<R: Threads + Sync, P: Pricer + Sync, G: Gate + Sync>(
    alloc: Global,
    problem: &P,
    rt: &R,
    gate: &G,
    workers: &Workers,
    ground: &Ground,
    stock: &mut Stock,
    stay: &[Column],
    aim: i64,
    course: &Course,
    counted: bool,
    pricings: u32,
) -> Result<Option<Plan>, Memory>
    requires ground { IsGround (P.problem problem.now) ground.now }
    requires stock { IsStock (P.problem problem.now) stock.old }
    requires stay { AreReady (P.problem problem.now) stay.now }
    requires course { IsCourse (P.problem problem.now) course.now }
    ensures plan { IfOk result (IsDived (P.problem problem.now)) }
    ensures stock { OnOk result (IsStock (P.problem problem.now) stock.new) }
{
    let (fixed, prices) = fixed_columns(
        alloc, problem, rt, gate, workers, ground, stock, stay, aim, course, counted, pricings,
    )?;
    completed_plan(alloc, problem, fixed, &prices)
}
