//! How a run ends.

ghost use Rattle.std.specs.Prelude.{◌≡◌};

use plan_rows::Place;
use std::alloc::AllocError;
use vdv451_text::TextFault;

/// How a run ends, with the cause where it refused.
#[derive(Clone, Copy, Debug, PartialEq, Eq)]
pub enum Status {
    /// The page was written whole.
    Ok,
    /// The words are not one file.
    Usage,
    /// The first fault of the file's text.
    Text(TextFault),
    /// The first place of its tables that is not drawn.
    Form(Place),
    /// A read of the file failed.
    ReadFault,
    /// A write failed; what was taken before is an initial part of the page.
    WriteFault,
    /// Memory ran out.
    Memory,
}

impl From<AllocError> for Status {
    ghost use Rattle.plan_chart.specs.declared.status.Status.TheVariants as statuses;

    ghost from_gives = { λ _ status. status ≡ statuses.Memory };

    fn from(_error: AllocError) -> Status {
        Status::Memory
    }
}

impl Status {
    ghost use Rattle.plan_chart.specs.Codes.{code_of};

    /// The status number with which the program ends: 0 Ok, 2 Usage, 3 Text and Form, 7 ReadFault, 8 WriteFault, 9 Memory. They are the
    /// planner's.
    pub fn code(self) -> u8
        ensures { result ≡ code_of self }
    {
        match self {
            Status::Ok => 0,
            Status::Usage => 2,
            Status::Text(_) => 3,
            Status::Form(_) => 3,
            Status::ReadFault => 7,
            Status::WriteFault => 8,
            Status::Memory => 9,
        }
    }
}
