//! A diving heuristic: plans found by fixing columns one after another, at prices that climb in between.
//!
//! A *dive* fixes columns of a pool one after another, those first that a climb of the prices chose most often (diving heuristics of
//! column generation). What is fixed leaves a smaller problem: fewer items, fewer places, a lower aim. The prices climb again on the
//! columns that are still in play, and so on until no column is left that can be fixed; then rounding places the items that are left. In
//! a *partial* dive some columns of a plan stay from the start on, and the rest is priced anew a few times.
//!
//! Columns are priced by workers in threads. Only [`price`] sees how many there are, and its clauses determine its answer; all other code
//! here hands the workers, the threads and the gate on and asks them nothing. So by its form a dive gives the same plan for any number of
//! workers. That it does is no clause.
#![tactic(auto)]

mod course;
mod crew;
mod descent;
mod diving;
mod ground;
mod key;
mod order;
mod stock;

pub use course::{Course, climb_once};
pub use crew::{Workers, price};
pub use descent::{copy_all, copy_column, push_column};
pub use diving::dive;
pub use ground::{Ground, open_rest, worth_alone};
pub use order::value_at;
pub use stock::Stock;
