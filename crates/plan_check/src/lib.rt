//! Whether lists are a plan, and what a plan and paid prices show together. Nothing here knows of buses: a checker of blocks and duties
//! asks both times the same.
#![tactic(auto)]

mod check;
mod counts;
mod firsts;
mod laws;
mod verdict;

pub use check::check_plan;
pub use firsts::{ItemTimes, first_times, first_unlawful};
pub use laws::{lists_are_judged, plan_is_shown, plans_are_found};
pub use verdict::PlanVerdict;
