//! The plan of a day and its text: vehicle blocks of the trips, driver duties over the pieces that the blocks are cut into, and bounds on
//! the numbers and costs of both.
//!
//! [`plan_day`] plans both sides by the method of `day_method`, and [`plan_text`] writes the tables of the plan in the text form of
//! VDV 451; [`short_text`] writes its counts and bounds alone. `specs/PlanText.antt` says what the text is: the blocks and duties are
//! plans, lawful and within vehicles and drivers, and no plan has fewer vehicles or lower costs than the printed bounds. No worker occurs
//! there, and a day that is planned by fixed rounds has one text or one cause alone ([`day_answers_once`]). The order of its deadheads has
//! no bearing on either ([`days_alike_answer_alike`]). A day may be planned by climbing too; then all of this is promised but that its text
//! is one.
#![tactic(auto)]

mod day_plan;
mod fault;
mod flow;
mod laws;
mod method;
mod planning;
mod short;
mod writing;

pub use day_plan::DayPlan;
pub use fault::{ItemName, PlanFault};
pub use laws::{day_answers_once, days_alike_answer_alike};
pub use method::Method;
pub use planning::{block_pieces, duty_net, plan_day};
pub use short::short_text;
pub use writing::{plan_text, text_of};
