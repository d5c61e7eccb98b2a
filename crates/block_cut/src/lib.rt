//! The legs of vehicle blocks, and the pieces that blocks are cut into.
//!
//! A block is a pull-out, its trips with the deadheads and stands between them, and a pull-in. It is cut at each stand of at least the
//! handover time that lies at a relief point or at its depot, since there one driver can hand over to the next. What lies between
//! neighbouring cuts is a piece.
#![tactic(auto)]

mod block;
mod cutting;
mod leg_list;

pub use cutting::cut;
pub use leg_list::legs;
