//! Tests of the commands `day`, `plan` and `make`, over files and sinks in memory: texts, costs, lines and statuses of worked days, row by
//! row; the export of many files; and hostile use: too many trips or bytes, and reads and writes that fail.
//!
//! A crate with tests is proved twice; so they stand above the crate that they try.
#![tactic(auto)]

#[cfg(test)]
mod export_tests;
#[cfg(test)]
mod hostile_tests;
#[cfg(test)]
mod made_tests;
#[cfg(test)]
mod plan_tests;
