//! What a command writes, and how it then ends.

use crate::status::Status;
use plan_core::Bytes;

/// What a command writes, and the status with which it ends once all of it is written: Ok, or CheckNo.
#[derive(Drop)]
pub struct Outcome {
    /// The text.
    pub text: Bytes,
    /// The status.
    pub ending: Status,
}
