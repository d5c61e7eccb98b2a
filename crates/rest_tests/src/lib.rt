//! Tests of what is left of a cover where columns have begun: what no contract says, and that calls succeed.
//!
//! A crate with tests is proved twice, so those of a floor stand above it.
#![tactic(auto)]

#[cfg(test)]
mod begun_columns;
#[cfg(test)]
mod cover_rest_tests;
#[cfg(test)]
mod labellings;
#[cfg(test)]
mod rest_labels_tests;
#[cfg(test)]
mod rest_searches;
