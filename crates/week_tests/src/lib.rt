//! Tests of the check of drivers' weeks: what no contract says, as rosters whose answers come from the articles themselves, and that calls
//! succeed at all.
//!
//! A crate with tests is proved twice, with them and without, so those of this floor stand in a crate of their own above it.
#![tactic(auto)]

#[cfg(test)]
mod week_check_tests;
