//! Tests of pricing in threads and of climbs: what no contract says. Tasks are claimed by several threads, prices and bounds are those
//! that were worked by hand, and the same for any number of workers.
//!
//! A crate with tests is proved twice, so those of a floor stand above it, in a crate of their own.
#![tactic(auto)]

#[cfg(test)]
mod climb_rounds_tests;
#[cfg(test)]
mod held_gate;
#[cfg(test)]
mod pair_pricer;
#[cfg(test)]
mod price_rounds_tests;
#[cfg(test)]
mod single_pricer;
#[cfg(test)]
mod spelling;
#[cfg(test)]
mod task_board_tests;
#[cfg(test)]
mod worker_price_tests;
