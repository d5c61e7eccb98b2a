//! The duties of a day as columns.

use crate::net::DutyNet;
use cover_core::Columns;

impl Columns for DutyNet<'_> {
    ghost use Rattle.duty_network.specs.Duties.{duties};
    ghost use Rattle.duty_network.specs.Listed.{duties_listed};

    ghost problem = { duties };

    ghost listed = { duties_listed };

    /// The pieces.
    fn items(&self) -> u32 {
        self.pieces().len() as u32
    }

    /// The groups of drivers, by GRUPPE_NR.
    fn classes(&self) -> u32 {
        self.fits();
        self.groups().len() as u32
    }

    /// How many drivers a group has (ANZAHL).
    fn cap(&self, class: u32) -> u32 {
        self.group(class).cap
    }

    /// The worth of a list of pieces as a duty of a group, where it keeps articles 6(1), 7 and 8(2) in the limits of the group: the fixed
    /// cost plus the rate times the spread, or 1 where duties are counted. It takes no memory.
    fn worth(&self, class: u32, list: &[u32]) -> Option<u64> {
        self.duty_worth(class, list)
    }
}
