//! One worker at a board.

ghost use Rattle.std.specs.Prelude.{◌≡◌, ◌+◌, ◌*◌, ◌/◌, ◌%◌, ◌<◌, ◌≤◌, ℤ, length, max, IfOk, IfErr, IfSome};
ghost use Rattle.plan_core.specs.Limits.{most_items, most_price};
ghost use Rattle.cover_core.specs.Best.{best_of, within};
ghost use Rattle.cover_core.specs.FirstLeast.{AllWithin};
ghost use Rattle.task_board.specs.Sheets.{looked};
ghost use Rattle.task_board.specs.Desks.{extent_of, sheet_of, IsDeskOf};
ghost use Rattle.worker_price.specs.Priced.{groups_of};
ghost use Rattle.worker_price.specs.Work.{half, limit_of, lowering, lowered_by_all, priced, FoundUnder, HasPriced, HasStoppedPricing, IsSound, IsSoundFound, AreSoundFor, IsBoardFor, ArePricesFor};

use crate::found::Found;
use cover_core::{Column, Columns, Pricer, Prices, best_is_first_least, value};
use plan_core::{Gate, Memory, Seq};
use std::alloc::Global;
use task_board::{Board, Desk};

/// Half of a value, rounded down.
fn half(seen: i64) -> i64
    ensures { result ≡ half seen }
{
    seen.div_euclid(2)
}

/// The limit under which a task is priced after this value was seen: the smaller of -1 and half of it.
pub(crate) fn limit(seen: i64) -> i64
    ensures { result ≡ limit_of seen }
{
    half(seen).min(-1)
}

/// How many groups the items have.
pub(crate) fn group_count<C: Columns>(columns: &C) -> u32
    ensures value { result ≡ groups_of (C.problem columns.now).items }
    ensures few { (C.problem columns.now).items ≤ most_items }
{
    columns.items().div_ceil(16)
}

/// The column of a task under a limit.
fn best<P: Pricer>(
    alloc: Global,
    pricer: &P,
    prices: &Prices,
    class: u32,
    group: u32,
    limit: i64,
) -> Result<Option<Column>, Memory>
    requires prices { ArePricesFor (P.problem pricer.now) prices.now.items }
    requires class { class < length (P.problem pricer.now).caps }
    requires group { group < groups_of (P.problem pricer.now).items }
    ensures best { IfOk result (λ column. column ≡ within limit prices.now.items (best_of (P.problem pricer.now) prices.now.items class group)) }
    ensures sound { IfOk result (λ column. IfSome column (IsSound prices.now.items class)) }
{
    best_is_first_least::<P>();
    pricer.best(alloc, class, prices, group, limit)
}

/// Lowers the class by the value of the column, if there is one.
fn lower_by(board: &Board, desk: &mut Desk, prices: &Prices, class: u32, column: &Option<Column>)
    requires desk { IsDeskOf board.now desk.old }
    requires class { class < (extent_of board.now).classes }
    requires few { length prices.now.items ≤ most_items }
    requires moderate { AllWithin most_price prices.now.items }
    requires sound { IfSome column.now (IsSound prices.now.items class) }
    ensures desk { IsDeskOf board.now desk.new }
    ensures sheet { sheet_of desk.new ≡ lowered_by_all (sheet_of desk.old) (lowering prices.now.items class column.now) }
{
    if let Some(best) = column {
        desk.lower(board, class, value(best, prices));
    }
}

/// Enters the gate, looks at the task's class, prices the task under the limit of that look, and lowers the class by its column.
fn price_one<P: Pricer, G: Gate>(
    alloc: Global,
    board: &Board,
    desk: &mut Desk,
    pricer: &P,
    prices: &Prices,
    gate: &G,
    task: u32,
) -> Result<Found, Memory>
    requires desk { IsDeskOf board.now desk.old }
    requires board { IsBoardFor (P.problem pricer.now) board.now }
    requires prices { ArePricesFor (P.problem pricer.now) prices.now.items }
    requires task { task < length (P.problem pricer.now).caps * groups_of (P.problem pricer.now).items }
    ensures desk { IsDeskOf board.now desk.new }
    ensures task { IfOk result (λ found. found.task ≡ task) }
    ensures found { IfOk result (λ found. (seen : ℤ)
        × FoundUnder (best_of (P.problem pricer.now) prices.now.items) prices.now.items (groups_of (P.problem pricer.now).items) found (task / groups_of (P.problem pricer.now).items, seen)
        × (sheet_of desk.new ≡ priced (sheet_of desk.old) (task / groups_of (P.problem pricer.now).items, seen) (lowering prices.now.items (task / groups_of (P.problem pricer.now).items) found.column))) }
    ensures sound { IfOk result (IsSoundFound prices.now.items (length (P.problem pricer.now).caps) (groups_of (P.problem pricer.now).items)) }
    ensures memory { IfErr result (λ _. (seen : ℤ) × (sheet_of desk.new ≡ looked (sheet_of desk.old) (task / groups_of (P.problem pricer.now).items) seen)) }
{
    let groups = group_count(pricer);
    gate.enter(task);
    let class = task / groups;
    let seen = desk.look(board, class);
    let column = best(alloc, pricer, prices, class, task % groups, limit(seen))?;
    lower_by(board, desk, prices, class, &column);
    Ok(Found { task, column })
}

/// Claims tasks until none is left, and prices each: enters the gate with it, looks at its class, prices it with the smaller of -1 and
/// half of the value seen (rounded down) as its limit, and lowers the class by the value of the column that it gathers.
///
/// The board is one for the classes and groups of the pricer, and there is a price for each item, each from -10,000,000,000,000 to
/// 10,000,000,000,000. With Ok the tasks found are those that the desk drew, in that order, and its last claim found none left. After
/// `Memory`, the only error, the desk has done some tasks, and of one more at most the claim and the look; their columns are dropped.
pub fn work<P: Pricer, G: Gate>(
    alloc: Global,
    board: &Board,
    desk: &mut Desk,
    pricer: &P,
    prices: &Prices,
    gate: &G,
) -> Result<Seq<Found>, Memory>
    requires desk { IsDeskOf board.now desk.old }
    requires board { IsBoardFor (P.problem pricer.now) board.now }
    requires prices { ArePricesFor (P.problem pricer.now) prices.now.items }
    ensures desk { IsDeskOf board.now desk.new }
    ensures ended { IfOk result (λ _. (sheet_of desk.new).over ≡ max 1 (sheet_of desk.old).over) }
    ensures worked { IfOk result (HasPriced (P.problem pricer.now) prices.now.items (sheet_of desk.old) (sheet_of desk.new)) }
    ensures sound { IfOk result (AreSoundFor (P.problem pricer.now) prices.now.items) }
    ensures memory { IfErr result (λ _. HasStoppedPricing (P.problem pricer.now) prices.now.items (sheet_of desk.old) (sheet_of desk.new)) }
{
    let mut found = Vec::new(alloc);
    while let Some(task) = desk.claim(board) {
        let one = match price_one(alloc, board, desk, pricer, prices, gate, task) {
            Ok(one) => one,
            Err(memory) => return Err(memory),
        };
        found.push(one)?;
    }
    Ok(Seq::from_vec(found))
}
