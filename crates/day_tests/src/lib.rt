//! Tests of what an operating day is made of: what no contract says, as small networks and days whose answers come from outside, and that
//! calls succeed at all.
//!
//! A crate with tests is proved twice, with them and without, so those of this floor stand in a crate of their own above it.
#![tactic(auto)]

#[cfg(test)]
mod day_calendar_tests;
#[cfg(test)]
mod day_model_tests;
#[cfg(test)]
mod day_tables_tests;
#[cfg(test)]
mod deadheads_tests;
#[cfg(test)]
mod place_net_tests;
#[cfg(test)]
mod plan_params_tests;
#[cfg(test)]
mod point_grid_tests;
#[cfg(test)]
mod trip_times_tests;
