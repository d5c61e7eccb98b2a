//! Tests of rounding and of tail exchanges: what no contract says. Which plans they end at was worked by hand.
//!
//! A crate with tests is proved twice, so those of a floor stand above it, in a crate of their own.
#![tactic(auto)]

#[cfg(test)]
mod five_items;
#[cfg(test)]
mod given_plans;
#[cfg(test)]
mod plan_round_tests;
#[cfg(test)]
mod tail_exchange_tests;
