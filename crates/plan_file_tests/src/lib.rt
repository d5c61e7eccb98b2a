//! Tests of plans and certificates that are read: what no contract says. A small day is built by hand, its plan and its certificate are
//! written, read back and read with faults.
//!
//! A crate with tests is proved twice, so the tests of this floor stand above its crates, in one of their own.
#![tactic(auto)]

#[cfg(test)]
mod plan_cert_tests;
#[cfg(test)]
mod plan_read_tests;
#[cfg(test)]
mod small_day;
#[cfg(test)]
mod written_plan;
