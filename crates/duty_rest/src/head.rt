//! Heads of duties.

use plan_core::Seq;

/// What of a duty has begun before a moment: its first pieces, which stay with its driver.
#[derive(Drop)]
pub struct DutyHead {
    /// The group of drivers, from 0.
    pub class: u32,
    /// The begun pieces, which rise by number.
    pub pieces: Seq<u32>,
    /// Whether the duty is over before the moment: then no further piece may follow.
    pub finished: bool,
}
