//! What words ask for.

use crate::command::Command;
use plan_core::{Bytes, Seq};
use price_rounds::Effort;

/// What the words ask for.
#[derive(Drop)]
pub struct Request {
    /// What the planner is to do.
    pub command: Command,
    /// How much work a plan is given. Where no options say it, 1 worker, 40 price rounds, 20 lowering rounds and 20 exchange steps.
    pub effort: Effort,
    /// Whether the blocks of a day with one depot are those of its flow plan, where it has one whose paths are blocks.
    pub flow: bool,
    /// The day as the number YYYYMMDD. A made day is 2026-03-02; a roster has days of its own, and then this is 0.
    pub day: u32,
    /// The names of the files, in the order in which they are read: those of the planning files in the order of their words, then for `check`
    /// and `replan` that of the plan, and for `check` last that of its certificate. A day is made without files.
    pub names: Seq<Bytes>,
}
