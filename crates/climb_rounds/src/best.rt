//! The best plan so far.

ghost use Rattle.std.specs.Prelude.{◌≡◌, ◌<◌, ◌≤◌, ◌≤ℤ◌, pos, length, IfOk, OnOk};
ghost use Rattle.plan_core.specs.Limits.{most_items};
ghost use Rattle.cover_core.specs.FirstLeast.{AreCheap};
ghost use Rattle.cover_core.specs.Plans.{IsPlan, cost};
ghost use Rattle.price_rounds.specs.Steps.{AreReady};
ghost use Rattle.plan_dive.specs.Grounds.{IsStock};
ghost use Rattle.climb_rounds.specs.Searches.{IsSearch};

use cover_core::{Columns, Plan, Pricer, plan_cost, plan_sizes};
use plan_core::{Memory, Seq};
use plan_dive::{Stock, copy_all};
use std::alloc::Global;
use std::thread::Threads;
use tail_exchange::improve;

/// The cheapest plan that was found, or what rounding left where none was.
#[derive(Drop)]
pub(crate) enum Best {
    /// A plan.
    Found {
        /// The plan.
        plan: Plan,
    },
    /// No plan yet.
    Left {
        /// The item that rounding left.
        item: u32,
        /// The columns beside which it was left.
        partial: Plan,
    },
}

/// The columns that are known, and the best plan.
#[derive(Drop)]
pub(crate) struct Search {
    /// The columns.
    pub(crate) stock: Stock,
    /// The best plan.
    pub(crate) best: Best,
    /// What it costs, in cost units; where there is none, what all items alone cost at least.
    pub(crate) cost: u64,
}

impl Search {
    ghost use Rattle.climb_rounds.specs.Searches.{is_found};

    /// Whether there is a plan.
    pub(crate) fn has_plan(&self) -> bool
        ensures { result ≡ is_found self.now.best }
    {
        match &self.best {
            Best::Found { .. } => true,
            Best::Left { .. } => false,
        }
    }

    /// What the Lagrangian is to reach: the cost of the best plan, in thousandths of a cost unit. No plan costs more than
    /// 12,000,000,000,000.
    pub(crate) fn aim(&self) -> i64
        ensures low { pos 0 ≤ℤ result }
        ensures high { result ≤ℤ pos 12000000000000000 }
    {
        let cost = self.cost.min(12000000000000);
        1000 * cost as i64
    }
}

/// There are at most 3,000 items.
pub(crate) fn ask_few<C: Columns>(problem: &C)
    ensures { (C.problem problem.now).items ≤ most_items }
{
    let _items = problem.items();
}

/// What a plan costs, in cost units.
fn cost_of<C: Columns>(problem: &C, plan: &Plan) -> u64
    requires plan { IsPlan (C.problem problem.now) plan.now.columns }
    requires cheap { AreCheap plan.now.columns }
    ensures { result ≡ cost plan.now.columns }
{
    plan_sizes::<C>();
    ask_few(problem);
    plan_cost(plan)
}

/// The columns of a plan are columns of its problem that fit.
pub(crate) fn ask_ready<C: Columns>(_problem: &C, plan: &Plan)
    requires plan { IsPlan (C.problem _problem.now) plan.now.columns }
    requires cheap { AreCheap plan.now.columns }
    ensures { AreReady (C.problem _problem.now) plan.now.columns }
{}

/// Adds the columns of a plan to a stock.
fn add_plan<C: Columns>(
    alloc: Global,
    problem: &C,
    stock: &mut Stock,
    plan: &Plan,
) -> Result<bool, Memory>
    requires stock { IsStock (C.problem problem.now) stock.old }
    requires plan { IsPlan (C.problem problem.now) plan.now.columns }
    requires cheap { AreCheap plan.now.columns }
    ensures { OnOk result (IsStock (C.problem problem.now) stock.new) }
{
    ask_ready(problem, plan);
    let columns = copy_all(alloc, plan.columns.as_slice())?;
    stock.add(alloc, problem, columns)
}

/// A plan after exchange steps.
pub(crate) fn exchanged_plan<R: Threads + Sync, P: Pricer + Sync>(
    alloc: Global,
    problem: &P,
    rt: &R,
    steps: u32,
    plan: Plan,
) -> Result<Plan, Memory>
    requires { IsPlan (P.problem problem.now) plan.columns }
    ensures plan { IfOk result (λ new. IsPlan (P.problem problem.now) new.columns) }
    ensures cheap { IfOk result (λ new. AreCheap new.columns) }
    ensures cost { IfOk result (λ new. cost new.columns ≤ cost plan.columns) }
{
    let mut plan = plan;
    improve(rt, alloc, problem, &mut plan, steps)?;
    Ok(plan)
}

/// A search whose best plan is this one; its columns are added to the stock.
pub(crate) fn search_of_plan<C: Columns>(
    alloc: Global,
    problem: &C,
    stock: Stock,
    plan: Plan,
) -> Result<Search, Memory>
    requires stock { IsStock (C.problem problem.now) stock }
    requires plan { IsPlan (C.problem problem.now) plan.columns }
    requires cheap { AreCheap plan.columns }
    ensures search { IfOk result (IsSearch (C.problem problem.now)) }
    ensures cost { IfOk result (λ new. new.cost ≡ cost plan.columns) }
{
    let mut stock = stock;
    add_plan(alloc, problem, &mut stock, &plan)?;
    let cost = cost_of(problem, &plan);
    Ok(Search {
        stock,
        best: Best::Found { plan },
        cost,
    })
}

/// Makes exchange steps on a plan, and takes it where it is the first one or cheaper than the best.
pub(crate) fn settle<R: Threads + Sync, P: Pricer + Sync>(
    alloc: Global,
    problem: &P,
    rt: &R,
    steps: u32,
    search: Search,
    plan: Plan,
) -> Result<Search, Memory>
    requires search { IsSearch (P.problem problem.now) search }
    requires plan { IsPlan (P.problem problem.now) plan.columns }
    ensures search { IfOk result (IsSearch (P.problem problem.now)) }
    ensures cheap { IfOk result (λ new. new.cost ≤ cost plan.columns) }
{
    let plan = exchanged_plan(alloc, problem, rt, steps, plan)?;
    if search.has_plan() && search.cost <= cost_of(problem, &plan) {
        return Ok(search);
    }
    let Search { stock, .. } = search;
    search_of_plan(alloc, problem, stock, plan)
}
