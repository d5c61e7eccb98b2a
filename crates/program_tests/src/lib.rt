//! Tests of the commands `trips` and `week`, over files and sinks in memory, and of what the program asks of the outside: words, files,
//! reads, writes, and the code with which it ends.
//!
//! A crate with tests is proved twice; so they stand above the crate that they try.
#![tactic(auto)]

#[cfg(test)]
mod outside_tests;
#[cfg(test)]
mod trip_tests;
#[cfg(test)]
mod week_tests;
