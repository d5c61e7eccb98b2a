//! The nodes of an acyclic network, covered by paths at least cost (the single-depot vehicle scheduling problem as a minimum-cost flow).
//! Nothing here knows of buses.
#![tactic(auto)]

mod arcs;
mod augment;
mod cover;
mod follow;
mod growth;
mod laws;
mod least;
mod lowering;
mod numbers;
mod placing;
mod prices;
mod search;

pub use arcs::Arcs;
pub use growth::Falls;
pub use laws::{
    feasible_potentials_pay, greatest_potentials_are_high, matchings_are_covers, slackness,
    stuck_trees,
};
pub use least::{LeastCover, least_cover};
pub use prices::{PathPrices, prices_of};
