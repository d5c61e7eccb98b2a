//! Tests of the commands `certify`, `check` and `replan` and of the flag `--flow`, over files and sinks in memory, row by row.
//!
//! A crate with tests is proved twice; so they stand above the crate that they try.
#![tactic(auto)]

#[cfg(test)]
mod cert_tests;
#[cfg(test)]
mod flow_tests;
#[cfg(test)]
mod replan_tests;
