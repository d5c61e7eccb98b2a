//! The checker of plans and certificates has one answer, and so has that of earlier plans.
//!
//! A plan and its certificate are answered by a yes with the plan's numbers or by a reason, and no case has two answers. So any run of the
//! checker that does not run out of memory prints the same line, whoever wrote the checker, as long as it answers what the definition says.
#![tactic(auto)]

mod laws;

pub use laws::{check_answers_once, old_plan_has_one_answer};
