//! Labels (shortest paths with resources) of a day that has begun: those of the rest, from labels of the lists that they stand for.
//!
//! A labelling of a problem's lists gives one of the lists of any rest of it: a head's label is made by folding the steps over its items, a
//! head is never a next item, and a finished head has no next. The laws of the one are those of the other; so the one search by labels
//! prices the rest too.
#![tactic(auto)]

mod begins;
mod best;
mod label;
mod laws;
mod marks;
mod prices;
mod pricing;

pub use begins::{ItemRange, first_items};
pub use best::best_of_rest;
pub use label::RestLabel;
pub use laws::rest_is_tied;
pub use marks::{ended_heads, starting_items};
pub use prices::spread_prices;
pub use pricing::RestLabels;
