//! How long the routes of trips are, in metres (REC_SEL of VDV 452).
#![tactic(auto)]

mod lengths;

pub use lengths::route_length;
