//! How a day is planned, as a definition: two passes of column generation for blocks and two for duties, and that it has one ending.
//!
//! The blocks of the day are planned first: a pass with each block worth 1, where a bound above the number of vehicles ends the planning;
//! then a pass with costs, rounding and exchange. Where a plan of blocks is known it stands for that second pass. The blocks are put in printed order and cut, and the duties over their pieces are
//! planned in the same way. `specs/Method.antt` says it over any problems of blocks and duties, so that the rest of a day that has begun
//! is planned by the same definition. No worker occurs in it, and where the method is that of fixed rounds it admits one ending alone
//! ([`day_ends_once`]); climbing is told by what it promises of each side.
#![tactic(auto)]

mod laws;
mod side;

pub use laws::day_ends_once;
pub use side::Side;
