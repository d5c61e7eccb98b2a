//! What the checker answers.

ghost use Rattle.std.specs.Prelude.{◌≡◌};
ghost use Rattle.cert_check.specs.Names.{name_of, number_of};

use cover_core::Gap;
use plan_cert::Place;
use plan_core::Bytes;

/// Why a plan and its certificate are not accepted. Passes are numbered from 1, and so are blocks and duties; classes from 0.
#[derive(Drop)]
pub enum Reason {
    /// The tables are no plan: the first place.
    PlanForm {
        /// The table.
        table: Bytes,
        /// The row, from 1, or 0 for the table as a whole.
        row: u32,
    },
    /// A trip is not in exactly one block.
    TripTimes {
        /// FRT_FID of the trip.
        fid: u64,
        /// How often it stands in blocks.
        times: u32,
    },
    /// A list of trips is no block of its pool.
    BlockUnlawful {
        /// The block.
        block: u32,
    },
    /// A pool has more blocks than vehicles.
    PoolOver {
        /// HOF_NR.
        pool: u32,
        /// How many blocks it has.
        used: u32,
        /// How many vehicles it has.
        cap: u32,
    },
    /// A piece is not in exactly one duty.
    PieceTimes {
        /// The block of the piece.
        block: u32,
        /// The index of the piece in the block.
        index: u32,
        /// How often it stands in duties.
        times: u32,
    },
    /// A list of pieces is no lawful duty of its group.
    DutyUnlawful {
        /// The duty.
        duty: u32,
    },
    /// A group has more duties than drivers.
    GroupOver {
        /// GRUPPE_NR.
        group: u32,
        /// How many duties it has.
        used: u32,
        /// How many drivers it has.
        cap: u32,
    },
    /// A table is not the one that the plan's blocks and duties make: the first place.
    PlanDiffers {
        /// The table.
        table: Bytes,
        /// The row, from 1, or 0 for the table as a whole.
        row: u32,
    },
    /// The tables are no certificate.
    CertForm {
        /// The first place.
        at: Place,
    },
    /// A class price is below 0.
    NegativeClassPrice {
        /// The pass.
        pass: u32,
        /// The class.
        class: u32,
    },
    /// Marks are no cover.
    Uncovered {
        /// The pass.
        pass: u32,
        /// The first gap.
        gap: Gap,
    },
    /// A bound is greater than the one that the prices show.
    BoundTooHigh {
        /// The pass.
        pass: u32,
        /// The bound of the plan.
        printed: u64,
        /// The bound of the prices.
        shown: u64,
    },
}

impl Reason {
    /// The reason's number. There is no number 11.
    pub fn number(&self) -> u64
        ensures { result ≡ number_of self.now }
    {
        match self {
            Reason::PlanForm { .. } => 1,
            Reason::TripTimes { .. } => 2,
            Reason::BlockUnlawful { .. } => 3,
            Reason::PoolOver { .. } => 4,
            Reason::PieceTimes { .. } => 5,
            Reason::DutyUnlawful { .. } => 6,
            Reason::GroupOver { .. } => 7,
            Reason::PlanDiffers { .. } => 8,
            Reason::CertForm { .. } => 9,
            Reason::NegativeClassPrice { .. } => 10,
            Reason::Uncovered { .. } => 12,
            Reason::BoundTooHigh { .. } => 13,
        }
    }

    /// The reason's name, as it is printed.
    pub fn name(&self) -> &'static [u8]
        ensures { result.now ≡ name_of self.now }
    {
        match self {
            Reason::PlanForm { .. } => b"PlanForm",
            Reason::TripTimes { .. } => b"TripTimes",
            Reason::BlockUnlawful { .. } => b"BlockUnlawful",
            Reason::PoolOver { .. } => b"PoolOver",
            Reason::PieceTimes { .. } => b"PieceTimes",
            Reason::DutyUnlawful { .. } => b"DutyUnlawful",
            Reason::GroupOver { .. } => b"GroupOver",
            Reason::PlanDiffers { .. } => b"PlanDiffers",
            Reason::CertForm { .. } => b"CertForm",
            Reason::NegativeClassPrice { .. } => b"NegativeClassPrice",
            Reason::Uncovered { .. } => b"Uncovered",
            Reason::BoundTooHigh { .. } => b"BoundTooHigh",
        }
    }
}

/// What the checker answers.
#[derive(Drop)]
pub enum Answered {
    /// The plan is lawful, and its bounds are shown.
    Yes {
        /// How many blocks there are.
        vehicles: u64,
        /// What the blocks cost.
        block_cost: u64,
        /// How many duties there are.
        duties: u64,
        /// What the duties cost.
        duty_cost: u64,
    },
    /// The first reason against it.
    No(Reason),
}
