//! Labels of levels in a region: those of finished levels are kept, those of the level that is being made may be taken out again, and
//! their cells are then used again.
#![tactic(auto)]

mod stock;

pub use stock::Stock;
