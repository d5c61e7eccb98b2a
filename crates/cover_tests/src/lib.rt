//! Tests of covering: what no contract says. Prices, bounds, climbs, weaves and least covers are those that were worked by hand or by
//! another program, and each function gives an answer where memory is left.
//!
//! A crate with tests is proved twice, so those of a floor stand above it, in a crate of their own.
#![tactic(auto)]

#[cfg(test)]
mod class_lowering_tests;
#[cfg(test)]
mod column_pool_tests;
#[cfg(test)]
mod column_weave_tests;
#[cfg(test)]
mod cover_core_tests;
#[cfg(test)]
mod cover_master_tests;
#[cfg(test)]
mod dual_bound_tests;
#[cfg(test)]
mod lagrangian_climb_tests;
#[cfg(test)]
mod made_columns;
#[cfg(test)]
mod offer_estimate_tests;
#[cfg(test)]
mod path_cover_tests;
#[cfg(test)]
mod plan_check_tests;
#[cfg(test)]
mod three_items;
