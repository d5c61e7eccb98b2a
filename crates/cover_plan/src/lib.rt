//! Planning of a set partitioning problem: a plan, a bound on the number of columns of every plan, and a bound on their costs.
//!
//! Blocks of vehicles and duties of drivers are planned by the same call. Two passes of price rounds give the bounds and a pool of
//! columns; the pool is rounded to a plan, and exchange steps make it cheaper. How planning ends is defined without workers
//! (`specs/Endings.antt`), and in one way alone ([`ends_once`]). The first pass can be had alone, where a plan is known ([`count_of`]).
//!
//! The other method, climbing, finds plan and bounds in its own way. Its plans are plans and its bounds are bounds as well; how it ends is
//! not defined as a function, so that it ends in one way for any number of workers is no theorem here.
#![tactic(auto)]

mod climbing;
mod counting;
mod fault;
mod known;
mod laws;
mod making;
mod planned;

pub use counting::Counting;
pub use fault::PlanFault;
pub use known::KnownPlan;
pub use laws::ends_once;
pub use making::{count_of, plan_of};
pub use planned::Planned;
