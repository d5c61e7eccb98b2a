//! Days on which each trip and each piece has room of its own are planned: they are never refused for want of places.
#![tactic(auto)]

mod laws;

pub use laws::{
    made_days_are_planned, made_tables_tell_a_day, roomy_days_are_planned, wide_problems_have_plans,
};
