//! What the next file is, and how many bytes it may have.

ghost use Rattle.std.specs.Prelude.{◌≡◌, ◌≤◌};
ghost use Rattle.input_files.specs.Stages.{IsStage, next_stage, room as most_of};

/// How many bytes all planning files may have together, and a plan by itself.
pub const MOST_BYTES: u64 = 67_108_864;

/// How many bytes a certificate may have.
pub const MOST_CERT: u64 = 268_435_456;

/// What the next file is.
#[derive(Clone, Copy, Debug, PartialEq, Eq)]
pub enum Stage {
    /// A planning file. The last planning file is followed by a plan.
    Planning {
        /// How many further planning files may come behind it.
        more: u32,
        /// How many bytes it may have, together with the planning files behind it.
        left: u64,
    },
    /// A plan, which may have 67,108,864 bytes by itself. It is followed by a certificate.
    Plan,
    /// A certificate, which may have 268,435,456 bytes, as each one behind it.
    Cert,
}

impl Stage {
    /// How many bytes the next file may have.
    pub fn room(self) -> u64
        ensures bytes { result ≡ most_of self }
        ensures bound { IsStage self → result ≤ 268435456 }
    {
        match self {
            Stage::Planning { left, .. } => left,
            Stage::Plan => MOST_BYTES,
            Stage::Cert => MOST_CERT,
        }
    }

    /// What follows behind a file of so many bytes.
    pub fn after(self, bytes: u64) -> Stage
        requires { bytes ≤ most_of self }
        ensures next { result ≡ next_stage self bytes }
        ensures stage { IsStage self → IsStage result }
    {
        match self {
            Stage::Planning { more: 0, .. } => Stage::Plan,
            Stage::Planning { more, left } => Stage::Planning {
                more: more - 1,
                left: left - bytes,
            },
            Stage::Plan | Stage::Cert => Stage::Cert,
        }
    }
}
