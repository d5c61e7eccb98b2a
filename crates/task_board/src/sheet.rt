//! What a desk knows, the rule of the board, and what each step tells.
use atomic_table::{Join, Play, Split, TableRule};
use std::collections::LinkedList;

/// How many tasks and classes a board has.
#[derive(Clone, Copy, Debug, PartialEq, Eq)]
pub struct Extent {
    /// The number of tasks, which are numbered from 0.
    pub tasks: u32,
    /// The number of classes, which are numbered from 0.
    pub classes: u32,
}

/// What a desk has done, and its part of the board. Contracts speak of it; no value of it is made.
pub struct Sheet {
    /// The number of tasks of the desk's board.
    pub tasks: u32,
    /// How many of the 2^32 parts of the whole share the desk has.
    pub share: u64,
    /// How many claims found no task left.
    pub over: u64,
    /// The tasks that were claimed, in the order of the claims.
    pub drawn: LinkedList<u32>,
    /// The classes that were looked at, each with the value that was seen.
    pub looks: LinkedList<(u32, i64)>,
    /// The classes that were lowered, each with the value by which it was.
    pub lowered: LinkedList<(u32, i64)>,
}

/// The board's state condition, which holds between any two steps.
pub struct Order;

impl TableRule<(), Sheet, Extent> for Order {
    ghost use Rattle.task_board.specs.Sheets.{fresh, IsOrdered};

    ghost holds = { IsOrdered };

    ghost first = { λ size. fresh size.tasks };
}

/// A desk gives one part to a new one.
pub struct Cut;

impl Split<Sheet> for Cut {
    ghost use Rattle.task_board.specs.Sheets.{split_left, split_right};

    ghost left = { split_left };

    ghost right = { split_right };
}

/// A desk takes in another.
pub struct Merge;

impl Join<Sheet> for Merge {
    ghost use Rattle.task_board.specs.Sheets.{joined, spent};

    ghost both = { joined };

    ghost spent = { spent };
}

/// What a claim tells.
pub struct Claim;

impl Play<(), Sheet> for Claim {
    ghost use Rattle.task_board.specs.Sheets.{Claims};

    ghost then = { Claims };
}

/// What a look tells.
pub struct Look;

impl Play<(), Sheet> for Look {
    ghost use Rattle.task_board.specs.Sheets.{Looks};

    ghost then = { Looks };
}

/// What a lowering tells.
pub struct Lower;

impl Play<(), Sheet> for Lower {
    ghost use Rattle.task_board.specs.Sheets.{Lowers};

    ghost then = { Lowers };
}

/// What a desk is told once it has taken in another.
pub struct Settle;

impl Play<(), Sheet> for Settle {
    ghost use Rattle.task_board.specs.Sheets.{Settles};

    ghost then = { Settles };
}
