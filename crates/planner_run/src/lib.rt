//! The planner's commands, over files and sinks that are handed in: what a request is answered, and the top call `run`.
//!
//! A command reads its files, computes its whole text, and writes it; a refusal writes one line to standard error. `run` says all of that
//! of the bytes read and written. `run_program` calls it with the words and the files of the operating system.
#![tactic(auto)]

mod answer;
mod certify;
mod check;
mod day;
mod lines;
mod made;
mod model;
mod outcome;
mod plan;
mod program;
mod ready;
mod replan;
mod running;
mod status;
mod trips;
mod week;

pub use program::run_program;
pub use ready::{Ready, ready_day};
pub use running::run;
pub use status::{InputFault, Status};
