//! Pricing in parallel (column generation): several workers at one board find the columns of least reduced cost, the same for any number.
//!
//! A *task* is a class with one of the groups of 16 first items. Workers claim tasks, and price each under a limit: of a class whose
//! least value so far is known, a first least is looked for only where its value is below 0 and twice it is at most that value.
//! What is kept in the end are the columns for which that holds with the least value of all. No limit hides one of these, so the
//! columns and the least values are the same for any number of workers and any order of their steps: they are equations with
//! definitions that know of no worker (`specs/Priced.antt`). The workers' theorem, [`every_run_is_priced`], says it over all runs of
//! the board's machine.
#![tactic(auto)]

mod found;
mod laws;
mod order;
mod price;
mod priced;
mod worker;
mod workers;

pub use found::Found;
pub use laws::{every_run_is_priced, least_values};
pub use price::price_all;
pub use priced::Priced;
pub use worker::work;
