//! Trips with their times, and why a trip has none.

ghost use Rattle.std.specs.Prelude.{◌≡◌};
ghost use Rattle.trip_times.specs.Names.{name_of};

use plan_core::{Point, Sec};
use thiserror::Error;

/// A trip with its ends, and when it is there.
#[derive(Clone, Copy, Debug, PartialEq, Eq)]
pub struct Trip {
    /// FRT_FID, at most 10^18.
    pub fid: u64,
    /// LI_NR.
    pub line: u32,
    /// The first point of its stop sequence.
    pub from: Point,
    /// The departure at the first point (FRT_START), from 0 to 172,800.
    pub begin: Sec,
    /// The last point of its stop sequence.
    pub to: Point,
    /// The arrival at the last point, from the departure to 172,800.
    pub end: Sec,
}

/// Why a trip has no times. Of several that hold, the one that stands first here counts.
#[derive(Clone, Copy, Debug, PartialEq, Eq, Error)]
pub enum TripFault {
    /// REC_LID has no row of the trip's line and variant.
    #[error("NoRoute")]
    NoRoute,
    /// The stop sequence has fewer than two points.
    #[error("ShortRoute")]
    ShortRoute,
    /// SEL_FZT_FELD has no row of this section; it is the first such one of the stop sequence.
    #[error("NoRunTime")]
    NoRunTime {
        /// Where the section begins.
        from: Point,
        /// Where it ends.
        to: Point,
    },
    /// The trip ends after 172,800.
    #[error("PastEnd")]
    PastEnd,
}

impl TripFault {
    /// The fault's name, as it is printed.
    pub fn name(self) -> &'static [u8]
        ensures { result.now ≡ name_of self }
    {
        match self {
            TripFault::NoRoute => b"NoRoute",
            TripFault::ShortRoute => b"ShortRoute",
            TripFault::NoRunTime { .. } => b"NoRunTime",
            TripFault::PastEnd => b"PastEnd",
        }
    }
}
