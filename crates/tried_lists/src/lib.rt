//! Lists of a few items, tried one by one: what each is worth, and the first least one beside the answers of a pricer. Tests share it.
#![tactic(auto)]

mod searches;

pub use searches::{Found, agrees, are_there, best, prices_of, searched, worth_of};
