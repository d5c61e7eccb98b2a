//! Why there is no day.

ghost use Rattle.std.specs.Prelude.{◌≡◌};

use plan_core::Memory;
use plan_params::ParamFault;
use trip_times::TripFault;

/// Why a network gives no day. Of several reasons the one that stands first here counts.
#[derive(Debug, Drop)]
pub enum DayModelFault {
    /// The day has more than 3,000 trips.
    TooManyTrips {
        /// How many it has.
        count: u32,
    },
    /// The first fault of the settings; its kind is never `Memory`.
    Params(ParamFault),
    /// A trip has no times. It is the first such one by departure and number.
    Trip {
        /// FRT_FID of the trip.
        fid: u64,
        /// The first reason why it has none.
        fault: TripFault,
    },
    /// Out of memory.
    Memory,
}

impl From<Memory> for DayModelFault {
    ghost use Rattle.day_model.specs.declared.fault.DayModelFault.TheVariants as faults;

    ghost from_gives = { λ _ fault. fault ≡ faults.Memory };

    fn from(_memory: Memory) -> DayModelFault {
        DayModelFault::Memory
    }
}
