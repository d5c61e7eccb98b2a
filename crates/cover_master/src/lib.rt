//! Price rounds over a pool of columns: where prices start, how large the price steps of a round are, how one moves prices, and how a
//! column lowers them.
//!
//! Prices are in thousandths of a cost unit. A price step is a step of the subgradient method for the Lagrangian dual of set partitioning:
//! the price of an item that no chosen column has rises, that of an item that more than one has falls. Prices stay from
//! -10,000,000,000,000 to 10,000,000,000,000.
#![tactic(auto)]

ghost use Rattle.std.specs.Prelude.{◌≡◌, ◌≤◌, ◌≤ℤ◌, pos};
ghost use Rattle.plan_core.specs.Limits.{most_price};
ghost use Rattle.cover_master.specs.Method.{step_size_of};

mod clamps;
mod lowering;
mod selection;
mod start;
mod turns;

pub use lowering::{lower, lower_items, share};
pub use start::start_prices;
pub use turns::turn;

/// The size of the price steps of a round, counted from 1: the greatest start price divided by one more than the round, rounded down, and
/// at least 1. The greatest start price is from 0 to 10,000,000,000,000 and the round at most 200.
pub fn step_size(greatest: i64, round: u32) -> i64
    requires low { pos 0 ≤ℤ greatest }
    requires high { greatest ≤ℤ pos most_price }
    requires round { round ≤ 200 }
    ensures { result ≡ step_size_of greatest round }
{
    let part = greatest / (round as i64 + 1);
    if part < 1 { 1 } else { part }
}
