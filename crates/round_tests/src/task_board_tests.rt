//! Tasks that are claimed, and least values that fall, on one board.

ghost use Rattle.std.specs.Prelude.{◌≡◌, ◌+◌, ◌-◌, ◌≤◌, All, IfOk, vec_len};
ghost use Rattle.task_board.specs.Sheets.{whole, fresh};
ghost use Rattle.task_board.specs.Desks.{extent_of, sheet_of, IsDeskOf, IsPartOf};

use plan_core::Memory;
use std::alloc::Global;
use std::sync::atomic::{AtomicU64, Ordering};
use std::test::Fail;
use std::thread;
use std::thread::Threads;
use task_board::{Board, Desk, close};

/// Cuts desks of one part off the first desk, which keeps the rest.
fn desks_of_parts(
    alloc: Global,
    board: &Board,
    first: Desk,
    count: u32,
) -> Result<(Desk, Vec<Desk>), Memory>
    requires board { IsDeskOf board.now first }
    requires fresh { sheet_of first ≡ fresh (extent_of board.now).tasks }
    requires count { count ≤ 64 }
    ensures home { IfOk result (λ r. IsDeskOf board.now r.0) }
    ensures share { IfOk result (λ r. (sheet_of r.0).share + vec_len r.1 ≡ whole) }
    ensures parts { IfOk result (λ r. All (IsPartOf board.now) r.1.items) }
{
    let mut home = first;
    let mut desks = Vec::new(alloc);
    for _made in 0..count {
        let (rest, part) = home.split(board);
        home = rest;
        desks.push(part)?;
    }
    Ok((home, desks))
}

/// Claims until no task is left, and counts each task.
fn claim_all(board: &Board, desk: Desk, claims: &[AtomicU64]) -> Desk
    requires { IsPartOf board.now desk }
    ensures { IsPartOf board.now result }
{
    let mut desk = desk;
    for _claim in 0..=claims.len() {
        let Some(task) = desk.claim(board) else {
            break;
        };
        if let Some(count) = claims.get(task as usize) {
            count.fetch_add(1, Ordering::SeqCst);
        }
    }
    desk
}

/// Claims all tasks by a thread for each desk.
fn claim_together<R: Threads + Sync>(
    rt: &R,
    board: &Board,
    desks: Vec<Desk>,
    claims: &[AtomicU64],
) -> Result<Vec<Desk>, Memory>
    requires { All (IsPartOf board.now) desks.items }
    ensures len { IfOk result (λ v. vec_len v ≡ vec_len desks) }
    ensures parts { IfOk result (λ v. All (IsPartOf board.now) v.items) }
{
    Ok(thread::map_vec(rt, desks, &|desk| claim_all(board, desk, claims))?)
}

/// Takes in all desks.
fn gather(board: &Board, home: Desk, desks: Vec<Desk>) -> Desk
    requires home { IsDeskOf board.now home }
    requires parts { All (IsPartOf board.now) desks.items }
    ensures board { IsDeskOf board.now result }
    ensures share { (sheet_of result).share ≡ (sheet_of home).share + vec_len desks }
{
    let mut home = home;
    let mut desks = desks;
    while let Some(desk) = desks.pop() {
        home = home.join(desk, board);
    }
    home
}

/// What four claims of two tasks answer.
fn four_claims(alloc: Global) -> Result<[Option<u32>; 4], Memory> {
    let (board, mut desk) = Board::new(alloc, 2, 1)?;
    let answers = [
        desk.claim(&board),
        desk.claim(&board),
        desk.claim(&board),
        desk.claim(&board),
    ];
    close(board, desk);
    Ok(answers)
}

#[test]
fn four_claims_of_two_tasks(rt: HostRuntime) -> Result<(), Fail> {
    assert_eq!(rt; four_claims(rt.alloc())?, [Some(0), Some(1), None, None]);
    Ok(())
}

/// What two desks read of a class that they lower by -5 and by -3.
fn least_values(alloc: Global) -> Result<[i64; 5], Memory> {
    let (board, desk) = Board::new(alloc, 0, 1)?;
    let (mut desk, mut other) = desk.split(&board);
    let answers = [
        desk.look(&board, 0),
        other.lower(&board, 0, -5),
        desk.look(&board, 0),
        desk.lower(&board, 0, -3),
        other.look(&board, 0),
    ];
    let desk = desk.join(other, &board);
    close(board, desk);
    Ok(answers)
}

#[test]
fn a_least_value_only_falls(rt: HostRuntime) -> Result<(), Fail> {
    assert_eq!(rt; least_values(rt.alloc())?, [0, 0, -5, -5, -5]);
    Ok(())
}

/// Whether each of a thousand tasks is claimed once, by so many desks beside the first, each in a thread of its own.
fn each_is_claimed_once<R: Threads + Sync>(
    rt: &R,
    alloc: Global,
    desks: u32,
) -> Result<bool, Memory>
    requires { desks ≤ 64 }
{
    let mut claims = Vec::new(alloc);
    for _task in 0..1000 {
        claims.push(AtomicU64::new(0))?;
    }
    let (board, first) = Board::new(alloc, 1000, 0)?;
    let (home, parts) = desks_of_parts(alloc, &board, first, desks)?;
    let parts = claim_together(rt, &board, parts, &claims)?;
    let whole = gather(&board, home, parts);
    close(board, whole);
    Ok(claims.iter().all(|count| count.load(Ordering::SeqCst) == 1))
}

#[test]
fn threads_claim_each_task_once(rt: HostRuntime) -> Result<(), Fail> {
    for desks in [1, 2, 3, 64] {
        assert!(rt;
            each_is_claimed_once(&rt, rt.alloc(), desks)?,
            "{desks} desks"
        );
    }
    Ok(())
}
