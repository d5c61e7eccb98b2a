//! Replanning of drivers' duties from a moment: what has begun before it stays with its driver, and the rest is planned anew.
//!
//! The *heads* of an earlier plan are what of its duties has begun: a group of drivers and the begun pieces. A piece of the new blocks is
//! the piece of the earlier plan that has the same index in the block with the same first trip. The *rest* is a set partitioning problem
//! of its own, whose items are first the heads and then the pieces in no head. Its plans, written out, are the plans of the day's duties
//! that keep the heads, with the same costs; so a bound of the rest is a bound on all of these. In such a plan every duty without a head
//! has no begun piece of an earlier duty.
#![tactic(auto)]

mod begun;
mod begun_parts;
mod earlier;
mod head;
mod laws;
mod pricing;
mod rest;
mod walk;

pub use earlier::duty_heads;
pub use head::DutyHead;
pub use laws::{heads_are_heads, kept_leaves_none_begun};
pub use rest::DutyRest;
