//! Tests of the base and of text, and of tables as they are read from it: what no contract says, as values that come from outside, and that
//! calls succeed at all.
//!
//! A crate with tests is proved twice, with them and without, so those of this floor stand in a crate of their own above it.
#![tactic(auto)]

#[cfg(test)]
mod number_tables_tests;
#[cfg(test)]
mod plan_core_tests;
#[cfg(test)]
mod texts;
#[cfg(test)]
mod vdv451_text_tests;
#[cfg(test)]
mod vdv452_tables_tests;
