//! Tests of duties, of the rules of driving and rest, and of the tables of a plan: what no contract says, and that calls succeed.
//!
//! A crate with tests is proved twice, so those of a floor stand above it.
#![tactic(auto)]

#[cfg(test)]
mod duty_nets;
#[cfg(test)]
mod duty_network_tests;
#[cfg(test)]
mod duty_pricing_tests;
#[cfg(test)]
mod duty_rest_tests;
#[cfg(test)]
mod eu561_rules_tests;
#[cfg(test)]
mod umlauf_write_tests;
