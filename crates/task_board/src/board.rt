//! The steps of a board.
ghost use Rattle.std.specs.Prelude.{◌≡◌, ◌+◌, ◌-◌, ◌≤ℤ◌, ◌<◌, ◌≤◌, ◌↔◌, [], pos, true, All, IfOk, IfSome, IfNone};
ghost use Rattle.task_board.specs.Sheets.{whole, opening_words, fresh, extent, split_left, split_right, joined, looked, lowered_by, drew, missed, Stands, IfWhole, HasAll, IsBelowSeen, IsOwnOld};
ghost use Rattle.task_board.specs.Desks.{extent_of, sheet_of, IsDeskOf};

use crate::desk::{Board, Desk};
use crate::sheet::{Claim, Cut, Extent, Look, Lower, Merge, Order, Settle, Sheet};
use atomic_table::{Seat, Table};
use plan_core::Memory;
use std::alloc::Global;

/// The word that stands for the value 0.
const ZERO_WORD: u64 = 1 << 63;

/// The word that stands for a value: greater words are greater values.
fn word_of(value: i64) -> u64
    ensures { Stands result value }
{
    (i128::from(value) + (1 << 63)) as u64
}

/// The value that a word stands for.
fn value_of(word: u64) -> i64
    ensures { Stands word result }
{
    (i128::from(word) - (1 << 63)) as i64
}

/// The words at the start: no task is claimed, and each class's least value is 0.
fn first_words(alloc: Global, classes: u32) -> Result<Vec<u64>, Memory>
    ensures { IfOk result (λ v. v.items ≡ opening_words classes) }
{
    let mut words = Vec::new(alloc);
    words.push(0)?;
    for _k in 0..classes {
        words.push(ZERO_WORD)?;
    }
    Ok(words)
}

/// A desk of this seat, where `ended` says whether some claim found no task left.
fn desk(seat: Seat<(), Sheet>, ended: bool) -> Desk
    requires slot { seat.me.1 ≡ [] }
    requires share { 0 < seat.me.0.share }
    requires over { (ended ≡ true) ↔ (0 < seat.me.0.over) }
    ensures { result.seat ≡ seat }
{
    Desk { seat, ended }
}

impl Board {
    /// A board with all its tasks to be claimed and each class's least value 0, and its first desk,
    /// which has the whole share. Fails for running out of memory alone.
    pub fn new(alloc: Global, tasks: u32, classes: u32) -> Result<(Board, Desk), Memory>
        ensures extent { IfOk result (λ r. extent_of r.0 ≡ extent tasks classes) }
        ensures desk { IfOk result (λ r. IsDeskOf r.0 r.1 × (sheet_of r.1 ≡ fresh tasks)) }
    {
        let words = first_words(alloc, classes)?;
        let size = Extent { tasks, classes };
        let (table, seat) = Table::of_words(alloc, words.as_slice(), &size)?;
        let board = Board {
            table,
            tasks,
            classes,
        };
        Ok((board, desk(seat, false)))
    }
}

impl Desk {
    /// Gives one part of the share to a new desk, the second of the two.
    ///
    /// No claim of this desk, or of one that it took in, may have found that no task is left, and
    /// the desk needs two parts at least.
    pub fn split(self, board: &Board) -> (Desk, Desk)
        requires board { IsDeskOf board.now self }
        requires none { (sheet_of self).over ≡ 0 }
        requires share { 1 < (sheet_of self).share }
        ensures board { IsDeskOf board.now result.0 × IsDeskOf board.now result.1 }
        ensures left { sheet_of result.0 ≡ split_left (sheet_of self) }
        ensures right { sheet_of result.1 ≡ split_right (sheet_of self) }
    {
        let Desk { mut seat, ended } = self;
        let other = board.table.shared.split_seat::<Cut>(&mut seat);
        (desk(seat, ended), desk(other, false))
    }

    /// Claims a task: a number below the board's tasks, above every number that this desk has, and
    /// one that no desk was given before. None where no task is left; a later claim of this desk
    /// then draws nothing and answers None again.
    pub fn claim(&mut self, board: &Board) -> Option<u32>
        requires { IsDeskOf board.now self.old }
        ensures board { IsDeskOf board.now self.new }
        ensures some { IfSome result (λ n. ((sheet_of self.old).over ≡ 0) × (n < (extent_of board.now).tasks) × (sheet_of self.new ≡ drew (sheet_of self.old) n) × All (λ x. x < n) (sheet_of self.old).drawn) }
        ensures none { IfNone result (((sheet_of self.old).over ≡ 0 → sheet_of self.new ≡ missed (sheet_of self.old)) × (0 < (sheet_of self.old).over → sheet_of self.new ≡ sheet_of self.old)) }
        ensures whole { (sheet_of self.old).over ≡ 0 → IfWhole (sheet_of self.new) }
    {
        if self.ended {
            return None;
        }
        let number = board.table.shared.fetch_add::<Claim>(&mut self.seat, 0, 1);
        if number < u64::from(board.tasks) {
            Some(number as u32)
        } else {
            self.ended = true;
            None
        }
    }

    /// The least value of the class now: the least of 0 and all values by which any desk lowered it.
    /// It is at most each value that this desk saw of the class or lowered it by before.
    pub fn look(&mut self, board: &Board, class: u32) -> i64
        requires board { IsDeskOf board.now self.old }
        requires class { class < (extent_of board.now).classes }
        ensures board { IsDeskOf board.now self.new }
        ensures look { sheet_of self.new ≡ looked (sheet_of self.old) class result }
        ensures most { result ≤ℤ pos 0 }
        ensures seen { IsBelowSeen (sheet_of self.old) class result }
        ensures whole { IfWhole (sheet_of self.new) }
    {
        let shared = &board.table.shared;
        let word = shared.load::<Look>(&mut self.seat, class as usize + 1);
        value_of(word)
    }

    /// Lowers the shared least value of the class to `value` where that is less, and answers the
    /// value that it had before.
    pub fn lower(&mut self, board: &Board, class: u32, value: i64) -> i64
        requires board { IsDeskOf board.now self.old }
        requires class { class < (extent_of board.now).classes }
        ensures board { IsDeskOf board.now self.new }
        ensures lowered { sheet_of self.new ≡ lowered_by (sheet_of self.old) class value }
        ensures most { result ≤ℤ pos 0 }
        ensures seen { IsBelowSeen (sheet_of self.old) class result }
        ensures old { IsOwnOld (sheet_of self.old) class result }
        ensures whole { IfWhole (sheet_of self.new) }
    {
        let shared = &board.table.shared;
        let word = word_of(value);
        let before = shared.fetch_min::<Lower>(&mut self.seat, class as usize + 1, word);
        value_of(before)
    }

    /// Takes in the other desk, with its share and all that it did. A desk that then has the whole
    /// share knows that the entries of all desks agree.
    pub fn join(self, other: Desk, board: &Board) -> Desk
        requires this { IsDeskOf board.now self }
        requires other { IsDeskOf board.now other }
        ensures board { IsDeskOf board.now result }
        ensures both { sheet_of result ≡ joined (sheet_of self) (sheet_of other) }
        ensures whole { IfWhole (sheet_of result) }
    {
        let Desk { mut seat, ended } = self;
        let Desk {
            seat: theirs,
            ended: end,
        } = other;
        let shared = &board.table.shared;
        shared.join_seat::<Merge>(&mut seat, theirs);
        shared.load::<Settle>(&mut seat, 0);
        desk(seat, ended || end)
    }
}

/// Ends the board and its one desk, which has the whole share: it has drawn each number once, all
/// of them where some claim found no task left, and each of its looks is 0 or among the values by
/// which it lowered.
pub fn close(board: Board, desk: Desk)
    requires board { IsDeskOf board desk }
    requires whole { (sheet_of desk).share ≡ whole }
    ensures { HasAll (sheet_of desk) }
{
    let Board { table, .. } = board;
    let Desk { seat, .. } = desk;
    table.close_with(seat).free();
}
