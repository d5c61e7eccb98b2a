//! Tests of blocks, and of what of them has begun: what no contract says, and that calls succeed.
//!
//! A crate with tests is proved twice, so those of a floor stand above it.
#![tactic(auto)]

#[cfg(test)]
mod block_cover_tests;
#[cfg(test)]
mod block_rest_tests;
#[cfg(test)]
mod days;
#[cfg(test)]
mod depot_network_tests;
#[cfg(test)]
mod one_pool_flow_tests;
#[cfg(test)]
mod path_pricing_tests;
