//! Replanning of vehicle blocks from a moment: what has begun before it stays, and the rest is planned anew.
//!
//! The *heads* of an earlier plan are what of its blocks has begun: a pool and the trips that are kept, the first ones of a block. A plan
//! of the day's blocks keeps what has begun exactly where its own heads are those of the earlier plan. The *rest* is a set partitioning
//! problem of its own, whose items are first the heads and then the trips in no head. Its plans, written out, are the plans of the day
//! that keep the heads, with the same costs; so a bound of the rest is a bound on all of these.
#![tactic(auto)]

mod begins;
mod begun;
mod earlier;
mod head;
mod laws;
mod pricing;
mod rest;
mod walk;

pub use earlier::heads;
pub use head::Head;
pub use laws::{heads_are_heads, kept_is_same_heads};
pub use rest::BlockRest;
