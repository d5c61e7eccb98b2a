//! Columns woven from links between items: a heuristic that proposes columns between two pricing steps.
//!
//! A *link* of a class joins an item to a later one, with the *rise*: a thousand times what the list of both is worth more than the first
//! alone. If worth were what the first item alone is worth and all rises along a list, the column of least value that ends in each item
//! would be a shortest path over links, found in one walk through the items (dynamic programming over an acyclic network). So of each 16
//! last items the best such list is looked up in the problem: each woven column has the worth that the problem gives it, and a value
//! below minus what its class asks.
//!
//! Links are kept for the pairs of items that stood side by side in a column so far, and at first for the three nearest later items of
//! each item and class. Prices, values and rises are in thousandths of a cost unit. What is proved: the links have the rises of their
//! pairs, what is woven are columns of the problem of such values, and no number overflows. Which of them are woven is only tested; no
//! bound rests on it.
#![tactic(auto)]

mod building;
mod link;
mod links;
mod nearest;
mod sums;
mod weaving;
mod web;

pub use link::Link;
pub use links::ClassLinks;
pub use weaving::weave;
pub use web::Web;
