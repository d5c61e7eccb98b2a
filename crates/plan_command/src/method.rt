//! How a day is planned.

use price_rounds::Effort;

/// How a day is planned.
#[derive(Clone, Copy, Debug, PartialEq, Eq)]
pub struct Method {
    /// How much work each pass is given.
    pub effort: Effort,
    /// Whether the blocks are those of the flow plan, where the day has one pool and a flow plan whose paths are blocks
    /// (`one_pool_flow`). They cost least, and so no pass with costs is made for them. Else this changes nothing.
    pub flow: bool,
}
