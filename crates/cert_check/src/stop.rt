//! Why the checker ends before its last test.
#![tactic(auto)]

ghost use Rattle.std.specs.Prelude.{◌≡◌};
ghost use Rattle.cert_check.specs.declared.stop.Stop.TheVariants as stops;

use crate::reason::Reason;
use plan_core::Memory;
use std::alloc::AllocError;

/// Why the checker ends before its last test.
#[derive(Drop)]
pub enum Stop {
    /// A reason against the plan or its certificate.
    Against(Reason),
    /// Out of memory.
    Memory,
}

impl From<Memory> for Stop {
    ghost from_gives = { λ _ stop. stop ≡ stops.Memory };

    fn from(_memory: Memory) -> Stop {
        Stop::Memory
    }
}

impl From<AllocError> for Stop {
    ghost from_gives = { λ _ stop. stop ≡ stops.Memory };

    fn from(_error: AllocError) -> Stop {
        Stop::Memory
    }
}
