//! Pricing steps that were worked by hand.

ghost use Rattle.std.specs.Prelude.{◌≡◌, ◌<◌, ◌≤◌};

use crate::held_gate::FirstHeld;
use crate::single_pricer::{Singles, prices};
use cover_core::Column;
use plan_core::{Gate, Memory, NoGate};
use std::alloc::Global;
use std::test::Fail;
use std::thread::Threads;
use task_board::{Board, close};
use worker_price::{Found, Priced, price_all, work};

/// The class and the first item of each column.
fn are_columns(columns: &[Column], wanted: &[(u32, u32)]) -> bool {
    if columns.len() != wanted.len() {
        return false;
    }
    for place in 0..wanted.len() {
        let column = &columns[place];
        let (class, item) = wanted[place];
        if column.class != class || column.items.as_slice().first() != Some(&item) {
            return false;
        }
    }
    true
}

/// Whether each of two tasks has found the column of item 0 in the class of the same number.
fn are_of_item_zero(list: &[Found]) -> bool {
    if list.len() != 2 {
        return false;
    }
    for (task, one) in list.iter().enumerate() {
        let Some(column) = &one.column else {
            return false;
        };
        let numbers = (
            one.task as usize,
            column.class as usize,
            column.worth as usize,
        );
        if numbers != (task, task, task + 1) || column.items.as_slice() != [0].as_slice() {
            return false;
        }
    }
    true
}

/// Whether one desk prices two tasks. One item of price 5,000 is worth 1 in class 0, so its value there is -4,000, and -3,000 in class 1.
fn two_tasks_are_priced(alloc: Global) -> Result<bool, Memory> {
    let pricer = Singles::new(1);
    let prices = prices(alloc, 1, [5000].as_slice())?;
    let (board, mut desk) = Board::new(alloc, 2, 2)?;
    let found = work(alloc, &board, &mut desk, &pricer, &prices, &NoGate)?;
    let none = desk.claim(&board).is_none();
    let least = [desk.look(&board, 0), desk.look(&board, 1)];
    close(board, desk);
    Ok(none && least == [-4000, -3000] && are_of_item_zero(found.as_slice()))
}

#[test]
fn one_desk_prices_two_tasks(rt: HostRuntime) -> Result<(), Fail> {
    assert!(rt; two_tasks_are_priced(rt.alloc())?);
    Ok(())
}

/// Whether that is what was worked by hand for eight groups in two classes.
///
/// In class 0 the values are -500, -1,500, -8,000, -4,200, 500, -4,100, -7,900 and -2,000: -8,000 is the least, and those of at most
/// -4,000 are kept. In class 1 they are greater by 1,000: -7,000 is the least, and those of at most -3,500 are kept.
fn is_as_worked(priced: &Priced) -> bool {
    let wanted = [(0, 32), (0, 48), (0, 80), (0, 96), (1, 32), (1, 96)];
    priced.least.as_slice() == [-8000, -7000].as_slice()
        && are_columns(priced.columns.as_slice(), wanted.as_slice())
}

/// Whether so many workers price eight groups in two classes, 16 tasks, as was worked by hand.
fn price_as_worked<R: Threads + Sync, G: Gate + Sync>(
    rt: &R,
    alloc: Global,
    workers: u32,
    gate: &G,
) -> Result<bool, Memory>
    requires { (0 < workers) × (workers ≤ 64) }
{
    let pricer = Singles::new(113);
    let firsts = [1500, 2500, 9000, 5200, 500, 5100, 8900, 3000];
    let prices = prices(alloc, 113, firsts.as_slice())?;
    let (board, desk) = Board::new(alloc, 16, 2)?;
    let (priced, desk) = price_all(rt, alloc, workers, &board, desk, &pricer, &prices, gate)?;
    close(board, desk);
    Ok(is_as_worked(&priced))
}

#[test]
fn any_number_of_workers_prices_the_same(rt: HostRuntime) -> Result<(), Fail> {
    for workers in [1, 2, 3, 64] {
        assert!(rt;
            price_as_worked(&rt, rt.alloc(), workers, &NoGate)?,
            "{workers} workers"
        );
    }
    Ok(())
}

/// The worker with task 0 waits until the other has done all other tasks.
#[test]
fn a_held_worker_prices_the_same(rt: HostRuntime) -> Result<(), Fail> {
    let gate = FirstHeld::new(15, 20_000_000);
    let right = price_as_worked(&rt, rt.alloc(), 2, &gate)?;
    assert!(rt; !gate.gave_up(), "no second worker came");
    assert!(rt; right, "two workers");
    Ok(())
}

/// One worker alone gives up its wait.
#[test]
fn a_lone_held_worker_goes_on(rt: HostRuntime) -> Result<(), Fail> {
    let gate = FirstHeld::new(15, 1000);
    let right = price_as_worked(&rt, rt.alloc(), 1, &gate)?;
    assert!(rt; gate.gave_up(), "nobody else can have entered");
    assert!(rt; right, "one worker");
    Ok(())
}
