//! How a vehicle goes from one trip to another.

/// How a vehicle of a pool goes from the end of a trip to the start of a later one. All times are in seconds, from 0 to 172,800.
#[derive(Clone, Copy, Debug, PartialEq, Eq)]
pub enum Link {
    /// It drives to the next trip at once and stands at that trip's first point.
    Direct {
        /// How long it drives.
        dead: u32,
        /// How long it stands: at least the minimum layover, at most the greatest wait.
        stand: u32,
    },
    /// It drives to the depot at once, stands there, and leaves so that it arrives at the next trip's start.
    Depot {
        /// How long it drives to the depot.
        inward: u32,
        /// How long it drives from the depot to the next trip.
        outward: u32,
        /// How long it stands at the depot.
        stand: u32,
    },
}
