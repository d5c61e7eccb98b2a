//! The start of a pass.

ghost use Rattle.std.specs.Prelude.{◌≡◌, ◌<◌, ◌≤◌, ◌≤ℤ◌, pos, length, IfOk, IfErr, OnOk};
ghost use Rattle.cover_core.specs.FirstLeast.{AreCheap};
ghost use Rattle.cover_core.specs.Plans.{IsPlan};
ghost use Rattle.price_rounds.specs.Steps.{AreReady};
ghost use Rattle.worker_price.specs.Work.{ArePricesFor};
ghost use Rattle.plan_dive.specs.Grounds.{IsGround, IsStock};
ghost use Rattle.climb_rounds.specs.Searches.{IsLeft, IsSearch};

use crate::best::{Best, Search, exchanged_plan, search_of_plan};
use column_pool::Pool;
use cover_core::{Column, Columns, Items, Plan, Pricer, Prices};
use lagrangian_climb::Span;
use plan_core::{Memory, Price, Seq};
use plan_dive::{Ground, Stock, push_column, worth_alone};
use plan_round::{RoundFault, round};
use std::alloc::Global;
use std::thread::Threads;

/// Prices of 0.
fn no_prices<C: Columns>(alloc: Global, problem: &C) -> Result<Prices, Memory>
    ensures { IfOk result (λ prices. ArePricesFor (C.problem problem.now) prices.items) }
{
    let mut items = Seq::new(alloc);
    for _item in 0..problem.items() {
        items.push(Price(0))?;
    }
    Ok(Prices { items })
}

/// A plan from no columns, each item put where the cost rises least.
fn plan_of_insertion<C: Columns>(alloc: Global, problem: &C) -> Result<Plan, RoundFault>
    ensures plan { IfOk result (λ plan. IsPlan (C.problem problem.now) plan.columns) }
    ensures cheap { IfOk result (λ plan. AreCheap plan.columns) }
    ensures left { IfErr result (IsLeft (C.problem problem.now)) }
{
    match no_prices(alloc, problem) {
        Err(Memory) => Err(RoundFault::Memory),
        Ok(prices) => round(alloc, problem, &Pool::new(alloc), &prices),
    }
}

/// Minus the low end of a span, in cost units.
fn least_of(span: Span) -> u64
    ensures { span.low ≡ pos 0 → result ≡ 0 }
{
    span.low.min(0).unsigned_abs() / 1000
}

/// What all items alone cost at least, each in the class where it costs least.
fn single_costs(spans: &[Span]) -> u64
    ensures { length spans.now ≡ 0 → result ≡ 0 }
{
    let mut sum: u64 = 0;
    for span in spans {
        sum = sum.saturating_add(least_of(*span));
    }
    sum
}

/// An item alone as a column of a class, where it has a worth, is added to a list.
fn add_single<C: Columns>(
    alloc: Global,
    problem: &C,
    singles: &mut Seq<Column>,
    class: u32,
    item: u32,
) -> Result<(), Memory>
    requires class { class < length (C.problem problem.now).caps }
    requires item { item < (C.problem problem.now).items }
    requires singles { AreReady (C.problem problem.now) singles.old }
    ensures { OnOk result (AreReady (C.problem problem.now) singles.new) }
{
    match worth_alone(problem, class, item) {
        None => Ok(()),
        Some(worth) => {
            let items = Items::from_slice(alloc, [item].as_slice())?;
            let single = Column {
                class,
                worth,
                items,
            };
            push_column(problem, singles, single)
        }
    }
}

/// The items alone in a class, as columns.
fn singles_of<C: Columns>(alloc: Global, problem: &C, class: u32) -> Result<Seq<Column>, Memory>
    requires { class < length (C.problem problem.now).caps }
    ensures { IfOk result (AreReady (C.problem problem.now)) }
{
    let mut singles = Seq::new(alloc);
    for item in 0..problem.items() {
        add_single(alloc, problem, &mut singles, class, item)?;
    }
    Ok(singles)
}

/// Adds each item alone in each class where it has a worth.
fn add_singles<C: Columns>(alloc: Global, problem: &C, stock: &mut Stock) -> Result<(), Memory>
    requires { IsStock (C.problem problem.now) stock.old }
    ensures { OnOk result (IsStock (C.problem problem.now) stock.new) }
{
    for class in 0..problem.classes() {
        let singles = singles_of(alloc, problem, class)?;
        stock.add(alloc, problem, singles)?;
    }
    Ok(())
}

/// The plan of no columns with its exchange steps, or what it leaves.
fn first_plan<R: Threads + Sync, P: Pricer + Sync>(
    alloc: Global,
    problem: &P,
    rt: &R,
    ground: &Ground,
    steps: u32,
) -> Result<Search, Memory>
    requires { IsGround (P.problem problem.now) ground.now }
    ensures { IfOk result (IsSearch (P.problem problem.now)) }
{
    let stock = Stock::new(alloc, problem)?;
    let cost = single_costs(ground.spans.as_slice());
    match plan_of_insertion(alloc, problem) {
        Err(RoundFault::Memory) => Err(Memory),
        Err(RoundFault::NotPlaced { item, partial }) => Ok(Search {
            stock,
            best: Best::Left { item, partial },
            cost,
        }),
        Ok(plan) => {
            let plan = exchanged_plan(alloc, problem, rt, steps, plan)?;
            search_of_plan(alloc, problem, stock, plan)
        }
    }
}

/// The first plan and its columns, and each item alone.
pub(crate) fn first_search<R: Threads + Sync, P: Pricer + Sync>(
    alloc: Global,
    problem: &P,
    rt: &R,
    ground: &Ground,
    steps: u32,
) -> Result<Search, Memory>
    requires { IsGround (P.problem problem.now) ground.now }
    ensures { IfOk result (IsSearch (P.problem problem.now)) }
{
    let mut search = first_plan(alloc, problem, rt, ground, steps)?;
    add_singles(alloc, problem, &mut search.stock)?;
    Ok(search)
}
