//! A driver's duty.

ghost use Rattle.std.specs.Prelude.{◌≡◌};
ghost use Rattle.week_check.specs.Duties as duties;

/// A driver's duty on a day.
#[derive(Clone, Copy, Debug, PartialEq, Eq)]
pub struct Turn {
    /// FAHRER_NR, the number of the driver.
    pub driver: u32,
    /// BETRIEBSTAG, the day as YYYYMMDD, in a year from 1 to 9998.
    pub day: u32,
    /// The start, in seconds from the start of 1970-01-01: 86,400 times the number of the day plus
    /// BEGINN, which is from -172,800 to 345,600.
    pub begin: i64,
    /// The end, in the same seconds, not before the start.
    pub end: i64,
    /// LENKZEIT, the driving in seconds, at most 172,800.
    pub driving: u32,
    /// DREI, whether the duty had a pause of at least three hours.
    pub three: bool,
}

/// The first of some duties.
pub(crate) fn first_turn(turns: &[Turn]) -> Option<Turn>
    ensures { result ≡ duties.first_turn turns.now }
{
    match turns.first() {
        Some(turn) => Some(*turn),
        None => None,
    }
}
