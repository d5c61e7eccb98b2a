//! Partial dives, which mend a plan.

ghost use Rattle.std.specs.Prelude.{true, false, ◌≡◌, ◌<◌, ◌≤◌, ◌∷◌, [], length, IfOk, IfSome, OnOk};
ghost use Rattle.std.specs.List.Sorted.{IsPermutation, IsSortedBy};
ghost use Rattle.plan_core.specs.Limits.{most_items};
ghost use Rattle.cover_core.specs.FirstLeast.{AreCheap};
ghost use Rattle.cover_core.specs.Plans.{IsPlan};
ghost use Rattle.price_rounds.specs.Steps.{AreReady, IsOffer};
ghost use Rattle.worker_price.specs.Work.{ArePricesFor};
ghost use Rattle.plan_dive.specs.Grounds.{IsCourse};
ghost use Rattle.climb_rounds.specs.Mends.{rank_cmp, is_before};
ghost use Rattle.climb_rounds.specs.Searches.{IsSearch};
ghost use Rattle.climb_rounds.specs.Settings.{IsSetting};

use crate::best::{Best, Search, ask_few, ask_ready};
use crate::rounds::dive_beside;
use crate::setting::Setting;
use crate::step::cost_step;
use cover_core::{Column, Columns, Plan, Pricer, Prices, plan_sizes};
use dual_bound::Kept;
use plan_core::{Gate, Memory, Seq};
use plan_dive::{Course, Workers, copy_column, push_column, value_at};
use std::alloc::Global;
use std::cmp::Ordering;
use std::thread::Threads;

/// A column of a plan by its value and its place.
#[derive(Clone, Copy)]
pub(crate) struct Rank {
    /// Its value, in thousandths of a cost unit.
    pub(crate) value: i64,
    /// Its place in the plan.
    pub(crate) place: usize,
}

/// Orders columns by value, the greatest first, and then by place.
fn compare(x: &Rank, y: &Rank) -> Ordering
    ensures { result ≡ rank_cmp x.now y.now }
{
    y.value.cmp(&x.value).then(x.place.cmp(&y.place))
}

/// Brings them into order.
fn sort(ranks: &mut Vec<Rank>) -> Result<(), Memory>
    ensures permutation { IsPermutation ranks.old.items ranks.new.items }
    ensures sorted { OnOk result (IsSortedBy is_before ranks.new.items) }
{
    match ranks.sort_by(
        |x: &Rank, y: &Rank| -> Ordering
            ensures { result ≡ rank_cmp x.now y.now }
        { compare(x, y) },
    ) {
        Ok(()) => Ok(()),
        Err(_) => Err(Memory),
    }
}

/// The columns of a plan by value and place.
fn ranks_of<C: Columns>(
    alloc: Global,
    problem: &C,
    columns: &[Column],
    prices: &Prices,
) -> Result<Vec<Rank>, Memory>
    requires columns { AreReady (C.problem problem.now) columns.now }
    requires prices { ArePricesFor (C.problem problem.now) prices.now.items }
    ensures { IfOk result (λ ranks. length ranks.items ≡ length columns.now) }
{
    let mut ranks = Vec::new(alloc);
    for (place, column) in columns.iter().enumerate() {
        let rank = Rank {
            value: value_at(problem, prices, column),
            place,
        };
        match ranks.push(rank) {
            Ok(()) => {}
            Err(_) => return Err(Memory),
        }
    }
    Ok(ranks)
}

/// The columns of a plan in the order in which they are freed.
fn freeing_order<C: Columns>(
    alloc: Global,
    problem: &C,
    columns: &[Column],
    prices: &Prices,
) -> Result<Vec<Rank>, Memory>
    requires columns { AreReady (C.problem problem.now) columns.now }
    requires prices { ArePricesFor (C.problem problem.now) prices.now.items }
    ensures { IfOk result (λ ranks. length ranks.items ≡ length columns.now) }
{
    let mut ranks = ranks_of(alloc, problem, columns, prices)?;
    sort(&mut ranks)?;
    Ok(ranks)
}

/// Whether the column of a rank is freed: one of the first `width` ranks, or one of `width` ranks next to each other that lie that many
/// further on with each turn, and begin again behind the last.
fn is_freed(rank: usize, turn: usize, width: usize, count: usize) -> bool
    requires count { 0 < count }
    requires few { count ≤ most_items }
    requires rank { rank < count }
    requires turn { turn < 40 }
    requires width { width ≤ 16 }
    ensures { rank < width → result ≡ true }
{
    let first = (width + turn * width) % count;
    rank < width || (rank + (count - first)) % count < width
}

/// Which columns of a plan stay: all but those that are freed.
fn stay_marks(alloc: Global, ranks: &[Rank], turn: usize) -> Result<Seq<bool>, Memory>
    requires turn { turn < 40 }
    requires few { length ranks.now ≤ most_items }
    ensures { IfOk result (λ stays. length stays ≡ length ranks.now) }
{
    let count = ranks.len();
    let width = (count / 4).clamp(2, 16);
    let mut stays = Seq::new(alloc);
    for _rank in 0..count {
        stays.push(true)?;
    }
    for rank in 0..count {
        let place = ranks[rank].place;
        if place < count && is_freed(rank, turn, width, count) {
            stays.set(place, false);
        }
    }
    Ok(stays)
}

/// A plan has at most 3,000 columns.
fn ask_short<C: Columns>(problem: &C, plan: &Plan)
    requires { IsPlan (C.problem problem.now) plan.now.columns }
    ensures { length plan.now.columns ≤ most_items }
{
    plan_sizes::<C>();
    ask_few(problem);
}

/// A copy of a column is put behind others.
fn keep_one<C: Columns>(
    alloc: Global,
    problem: &C,
    staying: &mut Seq<Column>,
    column: &Column,
) -> Result<(), Memory>
    requires staying { AreReady (C.problem problem.now) staying.old }
    requires column { AreReady (C.problem problem.now) (column.now ∷ []) }
    ensures { OnOk result (AreReady (C.problem problem.now) staying.new) }
{
    push_column(problem, staying, copy_column(alloc, column)?)
}

/// Copies of the columns that stay.
fn staying_columns<C: Columns>(
    alloc: Global,
    problem: &C,
    columns: &[Column],
    stays: &[bool],
) -> Result<Seq<Column>, Memory>
    requires columns { AreReady (C.problem problem.now) columns.now }
    requires stays { length stays.now ≡ length columns.now }
    ensures { IfOk result (AreReady (C.problem problem.now)) }
{
    let mut staying = Seq::new(alloc);
    for (place, column) in columns.iter().enumerate() {
        if stays[place] {
            keep_one(alloc, problem, &mut staying, column)?;
        }
    }
    Ok(staying)
}

/// The columns of a plan that stay in a partial dive, where the plan has at least two columns.
fn stay_of<C: Columns>(
    alloc: Global,
    problem: &C,
    plan: &Plan,
    prices: &Prices,
    turn: usize,
) -> Result<Option<Seq<Column>>, Memory>
    requires plan { IsPlan (C.problem problem.now) plan.now.columns }
    requires cheap { AreCheap plan.now.columns }
    requires prices { ArePricesFor (C.problem problem.now) prices.now.items }
    requires turn { turn < 40 }
    ensures { IfOk result (λ stay. IfSome stay (AreReady (C.problem problem.now))) }
{
    ask_short(problem, plan);
    ask_ready(problem, plan);
    let columns = plan.columns.as_slice();
    if columns.len() < 2 {
        return Ok(None);
    }
    let ranks = freeing_order(alloc, problem, columns, prices)?;
    let stays = stay_marks(alloc, ranks.as_slice(), turn)?;
    Ok(Some(staying_columns(alloc, problem, columns, stays.as_slice())?))
}

/// A partial dive: some columns of the best plan are freed, those of great value and others that turn by turn go on through the plan, and
/// a dive beside the others is settled.
fn mend_once<R: Threads + Sync, P: Pricer + Sync, G: Gate + Sync>(
    alloc: Global,
    problem: &P,
    rt: &R,
    gate: &G,
    workers: &Workers,
    setting: &Setting,
    steps: u32,
    search: Search,
    course: &Course,
    prices: &Prices,
    turn: usize,
) -> Result<Search, Memory>
    requires setting { IsSetting (P.problem problem.now) setting.now }
    requires search { IsSearch (P.problem problem.now) search }
    requires course { IsCourse (P.problem problem.now) course.now }
    requires prices { ArePricesFor (P.problem problem.now) prices.now.items }
    requires turn { turn < 40 }
    ensures { IfOk result (IsSearch (P.problem problem.now)) }
{
    let stay = match &search.best {
        Best::Left { .. } => None,
        Best::Found { plan } => stay_of(alloc, problem, plan, prices, turn)?,
    };
    match stay {
        None => Ok(search),
        Some(stay) => {
            let stay = stay.as_slice();
            dive_beside(
                alloc, problem, rt, gate, workers, setting, steps, search, stay, course, false, 4,
            )
        }
    }
}

/// After how many partial dives that bring nothing no more are made.
const PATIENCE: u32 = 16;

/// Whether a bound proves the best plan, as far as costs are known: they go in steps, and the plan is less than a step above the bound.
fn is_proved(search: &Search, bound: u64) -> bool
    ensures { search.now.cost ≤ bound → result ≡ true }
{
    search.cost.saturating_sub(bound) < cost_step(search.stock.pool.as_slice())
}

/// How many partial dives have brought nothing, one behind another, with one more of which this is known.
fn idle_with(idle: u32, is_cheaper: bool) -> u32 {
    if is_cheaper {
        0
    } else {
        idle.saturating_add(1)
    }
}

/// Up to 40 partial dives, until a bound proves the best plan or 16 of them, one behind another, have brought nothing.
pub(crate) fn mend<R: Threads + Sync, P: Pricer + Sync, G: Gate + Sync>(
    alloc: Global,
    problem: &P,
    rt: &R,
    gate: &G,
    workers: &Workers,
    setting: &Setting,
    steps: u32,
    search: Search,
    course: &Course,
    kept: &Kept,
) -> Result<Search, Memory>
    requires setting { IsSetting (P.problem problem.now) setting.now }
    requires search { IsSearch (P.problem problem.now) search }
    requires course { IsCourse (P.problem problem.now) course.now }
    requires kept { IsOffer (P.problem problem.now) kept.now }
    ensures { IfOk result (IsSearch (P.problem problem.now)) }
{
    let mut search = search;
    let mut idle = 0;
    for turn in 0..40usize {
        if is_proved(&search, kept.bound) || idle >= PATIENCE {
            return Ok(search);
        }
        let before = search.cost;
        let prices = &kept.prices;
        search = mend_once(
            alloc, problem, rt, gate, workers, setting, steps, search, course, prices, turn,
        )?;
        idle = idle_with(idle, search.cost < before);
    }
    Ok(search)
}
