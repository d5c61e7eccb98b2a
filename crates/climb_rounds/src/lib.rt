//! Climbing: a plan and a great dual bound by column generation with the subgradient method, on a pool of columns.
//!
//! Like the rounds of `price_rounds` this offers prices, one vector after another, and keeps the offer of the greatest bound; but it takes
//! the prices from climbs on the Lagrangian of a pool, and it finds plans on the way by dives. Which prices are offered is advice alone:
//! each offer is priced over all columns of the problem, so its bound is a bound on every plan (weak duality of linear programming).
//!
//! Columns are priced by workers in threads, and exchange steps are found by threads; what both give is determined by their clauses
//! (`plan_dive::price`, `tail_exchange::improve`). All other code here hands threads, workers and gate on and asks them nothing, so by its
//! form a pass gives the same for any number of workers; this is tested, and it is no clause.
#![tactic(auto)]

mod begin;
mod best;
mod climbed;
mod guess;
mod lowering;
mod mending;
mod offers;
mod passes;
mod rounds;
mod setting;
mod start;
mod step;
mod walk;

pub use climbed::{ClimbFault, Climbed};
pub use passes::{climb_count, climb_plan};
