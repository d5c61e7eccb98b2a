//! The marks of open lists, by which it is shown that no list was overlooked.

use crate::Column;
use plan_core::{Sec, Seq};

/// What decides how an open list of pieces may go on. Marks are ordered by their fields, in the order given here.
#[derive(Clone, Copy, Debug, PartialEq, Eq, PartialOrd, Ord)]
pub struct Mark {
    /// The class of the list, from 0.
    pub class: u32,
    /// The last piece of the list, from 0.
    pub piece: u32,
    /// The sign-on.
    pub start: Sec,
    /// The seconds of driving since the last full break.
    pub driving: u32,
    /// Whether a pause of at least 900 s stands after the last full break.
    pub quarter: bool,
    /// The seconds of driving in all.
    pub total: u32,
    /// Whether a pause of at least 10,800 s was had.
    pub three: bool,
    /// A thousand times what the list costs so far, less the prices of its items.
    pub value: i64,
}

/// Marks such that each open list has one at least as good as its own.
#[derive(Drop)]
pub struct Cover {
    /// The marks.
    pub marks: Seq<Mark>,
}

/// What decides how an open block may go on. Marks are ordered by their fields, in the order given here.
#[derive(Clone, Copy, Debug, PartialEq, Eq, PartialOrd, Ord)]
pub struct BlockMark {
    /// The class of the block, from 0.
    pub class: u32,
    /// The last trip of the block, from 0.
    pub trip: u32,
    /// The seconds of driving since the last cut, or since the pull-out's start.
    pub driving: u32,
    /// A thousand times what the block costs so far, less the prices of its trips.
    pub value: i64,
}

/// Marks such that each open block has one at least as good as its own.
#[derive(Drop)]
pub struct BlockCover {
    /// The marks.
    pub marks: Seq<BlockMark>,
}

/// What marks leave uncovered. Items are pieces in a cover of duties, and trips in a cover of blocks.
#[derive(Clone, Copy, Debug, PartialEq, Eq)]
pub enum Gap {
    /// An open list of one item.
    First {
        /// The class of the list.
        class: u32,
        /// The piece, or the trip.
        piece: u32,
    },
    /// An open list that continues that of a mark.
    Next {
        /// The place of the mark.
        place: u32,
        /// The piece, or the trip, that is put behind the list.
        piece: u32,
    },
    /// A mark whose list, when it is closed, has a value below minus the price of its class.
    Close {
        /// The place of the mark.
        place: u32,
    },
}

/// Why there are no marks.
#[derive(Drop)]
pub enum CoverFault {
    /// A list has a value below minus the price of its class: the first least of the first such class.
    Unpaid {
        /// That list.
        column: Column,
    },
    /// Out of memory.
    Memory,
}
