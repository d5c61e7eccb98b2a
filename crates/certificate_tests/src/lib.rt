//! Tests of certificates: what no contract says. Covers of duties are compared with the marks of all open lists, the certificate of an
//! example day with one that was worked out by hand, and tables with others.
//!
//! A crate with tests is proved twice, so the tests of this floor stand above its crates, in one of their own.
#![tactic(auto)]

#[cfg(test)]
mod duty_settings;
#[cfg(test)]
mod label_cover_tests;
#[cfg(test)]
mod list_marks;
#[cfg(test)]
mod plan_certify_tests;
#[cfg(test)]
mod table_differences_tests;
