//! Column generation with subgradient steps over a problem: the pool of columns for a plan, and the prices of the greatest bound.
//!
//! A *pass* begins at the start prices with an empty pool. In each price round the prices are offered, the columns of least value are
//! added to the pool, and 16 price steps move the prices. In each lowering round the prices are offered, and the columns of least value
//! lower them one after another. The prices are offered once more, and of all offers the first one with the greatest bound is kept. No plan
//! costs less than its bound (weak duality of linear programming).
//!
//! Columns are priced by workers in threads. What a pass gives is defined without them (`specs/Rounds.antt`), so it is the same for any
//! number of workers and any order of their steps.
#![tactic(auto)]

mod effort;
mod laws;
mod moves;
mod passing;
mod pricing;
mod progress;

pub use effort::Effort;
pub use laws::offers_are_paid;
pub use moves::{add_all, caps_of};
pub use passing::pass;
pub use pricing::{first_offer, next_offer, price_once};
