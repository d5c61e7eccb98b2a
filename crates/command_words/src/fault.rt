//! Why words are refused.

ghost use Rattle.std.specs.Prelude.{◌≡◌};
ghost use Rattle.command_words.specs.declared.fault.WordsFault.TheVariants as faults;

use plan_core::Memory;

/// Why words are refused.
#[derive(Clone, Copy, Debug, PartialEq, Eq)]
pub enum WordsFault {
    /// The words are none of the planner's.
    Usage,
    /// Memory ran out.
    Memory,
}

impl From<Memory> for WordsFault {
    ghost from_gives = { λ _ fault. fault ≡ faults.Memory };

    fn from(_memory: Memory) -> WordsFault {
        WordsFault::Memory
    }
}
