//! Covers of the open lists of pieces by marks: certificates that prices of pieces are paid, whoever made them.
//!
//! The mark of an open list of pieces says what decides how the list may go on as a duty under Regulation (EC) 561/2006. Marks that have
//! one at least as good for each open list show, without a search, that no lawful duty has a value below minus its class price.
#![tactic(auto)]

mod gaps;
mod laws;
mod making;
mod marks;
mod open_mark;
mod steps;

pub use gaps::first_gap;
pub use laws::duty_cover_is_paid;
pub use making::make_cover;
pub use marks::DutyMarks;
pub use open_mark::OpenMark;
