//! Marks with numbers that are wide enough for an extension of any mark.

use plan_core::Sec;

/// The mark of an open list that was made from a mark. That mark may come from outside, so its driving and its value may be any numbers:
/// with a piece more they may pass what a mark can hold. Here they cannot.
#[derive(Clone, Copy)]
pub struct OpenMark {
    /// The class of the list, from 0.
    pub class: u32,
    /// The last piece of the list, from 0.
    pub piece: u32,
    /// The sign-on.
    pub start: Sec,
    /// The seconds of driving since the last full break.
    pub driving: u64,
    /// Whether a pause of at least 900 s stands after the last full break.
    pub quarter: bool,
    /// The seconds of driving in all.
    pub total: u64,
    /// Whether a pause of at least 10,800 s was had.
    pub three: bool,
    /// A thousand times what the list costs so far, less the prices of its items.
    pub value: i128,
}
