//! What the tables of a plan say.

use cover_core::Plan;
use plan_core::{Bytes, Seq};

/// A duty as its rows say it.
#[derive(Drop)]
pub struct DutyRow {
    /// The number of its group of drivers (GRUPPE_NR).
    pub group: u32,
    /// Its pieces in the order of their rows, each by the number of its block and its index in the block.
    pub parts: Seq<(u32, u32)>,
}

/// What the tables of a plan say of its blocks, duties and bounds.
#[derive(Drop)]
pub struct PlanText {
    /// The blocks, each with its trips in the order of their rows, and with the worth 0.
    pub blocks: Plan,
    /// The duties.
    pub duties: Seq<DutyRow>,
    /// The bounds of the four passes.
    pub bounds: Seq<u64>,
}

/// Why tables are no plan.
#[derive(Drop)]
pub enum PlanFault {
    /// The first place where the tables are wrong.
    Form {
        /// The table.
        table: Bytes,
        /// The row, from 1, or 0 for the table as a whole.
        row: u32,
    },
    /// Out of memory.
    Memory,
}
