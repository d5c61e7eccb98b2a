//! The rest after a driver's duty.

/// The rest after a driver's duty (articles 4(g) and 8(2)).
#[derive(Clone, Copy, Debug, PartialEq, Eq)]
pub(crate) struct Rest {
    /// The duty's day as YYYYMMDD.
    pub day: u32,
    /// The day of the driver's next duty, or the duty's own where it is the last.
    pub next: u32,
    /// The seconds up to the driver's next duty, or 86,400 after the last.
    pub gap: i64,
    /// The seconds of the gap that lie within the 24 hours from the duty's start; below 0 where the
    /// next duty begins before this one ends.
    pub length: i64,
    /// Whether the duty had a pause of at least three hours, the first part of a split rest.
    pub three: bool,
}
