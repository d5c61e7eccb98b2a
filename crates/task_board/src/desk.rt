//! A board, and a worker's place at it. The steps are in `board.rt`.
ghost use Rattle.std.specs.Prelude.{◌≡◌, ◌+◌, ◌<◌, ◌↔◌, [], true};

use crate::sheet::{Extent, Order, Sheet};
use atomic_table::{Seat, Table};
use std::alloc::Global;

/// The words that all workers share: the counter of tasks, and a least value for each class.
///
/// Tasks and classes are numbered from 0. A board is shared by reference while workers step.
#[derive(Drop)]
pub struct Board {
    pub(crate) table: Table<(), Sheet, Extent, Order, Global>,
    pub(crate) tasks: u32,
    pub(crate) classes: u32,
    ghost sized: { (table.shared.table_id.words ≡ classes + 1) × (table.shared.table_id.slots ≡ 0) × (table.shared.key.tasks ≡ tasks) × (table.shared.key.classes ≡ classes) },
}

/// A worker's place at a board, with at least one of the 2^32 parts of the whole share.
///
/// A desk steps at the board that it was made for. It has no bytes of the board: what it did is
/// known to contracts alone, as its [`Sheet`].
#[derive(Drop)]
pub struct Desk {
    pub(crate) seat: Seat<(), Sheet>,
    pub(crate) ended: bool,
    ghost no_slot: { seat.me.1 ≡ [] },
    ghost some_share: { 0 < seat.me.0.share },
    ghost ended_is: { (ended ≡ true) ↔ (0 < seat.me.0.over) },
}
