//! A separate checker of plans and their certificates. It has passes of its own and no pricer: what it says rests on the day, the tables
//! of the plan and those of the certificate alone.
//!
//! A yes implies that the plan is lawful, that its tables are those of its blocks and duties, and that no plan has fewer vehicles or
//! drivers or lower costs than the printed bounds. A no comes with the first reason.
#![tactic(auto)]

mod blocks;
mod bounds;
mod case;
mod duties;
mod gaps;
mod laws;
mod old;
mod parts;
mod printing;
mod reason;
mod stop;
mod whole;

pub use case::Case;
pub use laws::{accepted_has_no_reason, answers_say_old, yes_is_certified};
pub use old::{OldPlan, check_old};
pub use reason::{Answered, Reason};
pub use whole::check;
