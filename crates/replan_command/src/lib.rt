//! Replanning of a day from a moment on: what has begun before it stays, and the rest is planned anew.
//!
//! [`replan_text`] reads the tables of an earlier plan of the day, finds what of its blocks and duties has begun before the moment, plans the rest
//! of the blocks and then, over the pieces of the new blocks, the rest of the duties, and writes the tables of the new plan.
//! `specs/Replanning.antt` says what the new plan is: it keeps what has begun, and no plan that keeps it has fewer vehicles or duties or lower
//! costs than the printed bounds. No worker occurs there, and where the rest is planned by fixed rounds there is one text or one cause alone
//! ([`replan_answers_once`]).
#![tactic(auto)]

mod blocks;
mod duties;
mod fault;
mod laws;
mod replanning;
mod rest;
mod writing;

pub use fault::ReplanFault;
pub use laws::{days_alike_are_replanned_alike, replan_answers_once};
pub use writing::replan_text;
