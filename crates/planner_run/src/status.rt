//! How a command ends.

ghost use Rattle.std.specs.Prelude.{◌≡◌};

use cert_check::Reason;
use cover_core::Plan;
use day_calendar::DayFault;
use day_method::Side;
use plan_command::ItemName;
use plan_core::Memory;
use plan_params::ParamFault;
use trip_times::TripFault;
use vdv451_text::TextFault;
use vdv452_tables::TableFault;

/// What is wrong with the input files.
#[derive(Debug, Drop)]
pub enum InputFault {
    /// The first fault of the text of a file. Files are numbered from 1 in the order of their words.
    Text {
        file: u32,
        fault: TextFault,
    },
    /// The first fault of the tables.
    Table(TableFault),
    /// The last day of a roster is 14 or more days after its first one. Days are YYYYMMDD.
    Days {
        /// The first day.
        first: u32,
        /// The last day.
        last: u32,
    },
    /// The day has more than 3,000 trips.
    Trips {
        count: u32,
    },
    /// The first fault of the settings.
    Params(ParamFault),
    /// The first trip of the day, by departure and number, that has no times, by FRT_FID, and why.
    Trip {
        fid: u64,
        fault: TripFault,
    },
}

/// How a command ends, with the cause where it refused.
#[derive(Drop)]
pub enum Status {
    /// The text of the command was written whole.
    Ok,
    /// The words are none of the planner's.
    Usage,
    /// The files hold something wrong.
    Input(InputFault),
    /// The day is no date, has no version or no day type.
    Day(DayFault),
    /// The bound on the number of blocks is above the number of vehicles, and then the day has no blocks; or the bound on the number of
    /// duties is above the number of drivers, and then there are no duties over the pieces of the blocks that were planned.
    NoPlan {
        /// The side that has no plan.
        side: Side,
        /// The bound.
        bound: u64,
        /// The number of vehicles, or of drivers.
        places: u64,
    },
    /// Rounding leaves a trip or a piece: each pool or group in which it alone has a worth is full, and it fits into no block or duty.
    NotPlaced {
        /// The side that it is of.
        side: Side,
        /// Its number among the trips of the day or the pieces of the blocks, from 0.
        item: u32,
        /// The trip or piece.
        name: ItemName,
        /// The blocks or duties beside which it is left.
        partial: Plan,
    },
    /// A read of the file of this number failed.
    ReadFault {
        file: u32,
    },
    /// A write failed; what was taken before is an initial part of the text.
    WriteFault,
    /// Memory ran out.
    Memory,
    /// A plan and its certificate were checked, and this is the first reason against them. The line that says so was written whole.
    CheckNo(Reason),
    /// The tables of the earlier plan are no plan of the day, whatever places there are: the first reason against them.
    OldPlan(Reason),
}

impl From<Memory> for Status {
    ghost use Rattle.planner_run.specs.declared.status.Status.TheVariants as statuses;

    ghost from_gives = { λ _ status. status ≡ statuses.Memory };

    fn from(_memory: Memory) -> Status {
        Status::Memory
    }
}

impl Status {
    ghost use Rattle.planner_run.specs.Codes.{code_of};
    ghost use Rattle.planner_run.specs.Endings.{is_done as is_done_by};

    /// Whether the text of the command was written whole: it ends with Ok, or with a no of the checker.
    pub fn is_done(&self) -> bool
        ensures { result ≡ is_done_by self.now }
    {
        matches!(self, Status::Ok | Status::CheckNo(_))
    }

    /// The status number with which the program ends: 0 Ok, 2 Usage, 3 Input, 4 Day, 5 NoPlan, 6 NotPlaced, 7 ReadFault, 8 WriteFault, 9 Memory,
    /// 10 CheckNo, 11 OldPlan.
    pub fn code(&self) -> u8
        ensures { result ≡ code_of self.now }
    {
        match self {
            Status::Ok => 0,
            Status::Usage => 2,
            Status::Input(_) => 3,
            Status::Day(_) => 4,
            Status::NoPlan { .. } => 5,
            Status::NotPlaced { .. } => 6,
            Status::ReadFault { .. } => 7,
            Status::WriteFault => 8,
            Status::Memory => 9,
            Status::CheckNo(_) => 10,
            Status::OldPlan(_) => 11,
        }
    }
}
