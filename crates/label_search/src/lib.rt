//! A search by labels with dominance for the first least of all lists of items that close: shortest paths with resources, as they are
//! priced in column generation.
//!
//! A labelling says how a list begins, how it goes on, and with what value it closes. The search makes the labels of all lists item by
//! item, and keeps of the lists that end with one item only those to which no other is at least as good. What it finds is the first
//! least of *all* lists that close within a limit, kept or not.
#![tactic(auto)]

mod columns;
mod labels;
mod later;
mod least;
mod levels;
mod node;

pub use columns::{best_column, column_of, cover_pays};
pub use labels::Labels;
pub use later::{rest, rests};
pub use least::search;
pub use node::{Best, Found, Level, Node};
