//! Why files are refused.

ghost use Rattle.std.specs.Prelude.{◌≡◌};

use plan_core::Memory as OutOfMemory;
use vdv451_text::TextFault;

/// Why files are refused. Files are numbered from 1 in the order in which they are read.
#[derive(Clone, Copy, Debug, PartialEq, Eq)]
pub enum FileFault {
    /// The text of a file has this first fault, and the texts of the files before it have none.
    Text {
        /// The number of the file, from 1.
        file: u32,
        /// Its first fault; `TooLarge` at line 0 where it has more bytes than it may have.
        fault: TextFault,
    },
    /// A read of a file failed, and the texts of the files before it have no fault.
    Read {
        /// The number of the file, from 1.
        file: u32,
    },
    /// Memory ran out.
    Memory,
}

impl From<OutOfMemory> for FileFault {
    ghost use Rattle.input_files.specs.declared.fault.FileFault.TheVariants as faults;

    ghost from_gives = { λ _ fault. fault ≡ faults.Memory };

    fn from(_memory: OutOfMemory) -> FileFault {
        FileFault::Memory
    }
}
