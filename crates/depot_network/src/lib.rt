//! What a list of trips is worth as a block of a pool: the multi-depot vehicle scheduling problem as a set partitioning problem, after the
//! chapter on public transit of Desaulniers and Hickman. Trips are items, pools of vehicles are classes.
#![tactic(auto)]

mod cost;
mod laws;
mod network;
mod open;
mod opening;
mod rates;
mod step;

pub use laws::counted_blocks;
pub use network::PoolNet;
pub use open::OpenBlock;
pub use rates::{cost_at_rate, cost_of_following, cost_of_pull_in, link_cost};
pub use step::Step;
