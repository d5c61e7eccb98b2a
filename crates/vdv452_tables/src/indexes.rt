//! The indexes of a network.

use crate::keys::{
    DayKey, GroupDwellKey, LineKey, MoveKey, PointKey, SectionKey, TripDwellKey, TypeKey,
};
use indexmap::IndexMap;
use plan_core::{Point, Seq};

/// What is told of days, points and types of vehicles, by their keys.
#[derive(Drop)]
pub(crate) struct Places {
    pub kinds: IndexMap<DayKey, u32>,
    pub points: IndexMap<PointKey, ()>,
    pub types: IndexMap<TypeKey, ()>,
}

/// What is told of the variants of lines, by their keys.
#[derive(Drop)]
pub(crate) struct Lines {
    pub areas: IndexMap<LineKey, u32>,
    pub courses: IndexMap<LineKey, Seq<Point>>,
}

/// What is told of moves between two points, by their keys.
#[derive(Drop)]
pub(crate) struct Moves {
    pub lengths: IndexMap<SectionKey, Option<u32>>,
    pub runs: IndexMap<MoveKey, u32>,
}

/// How long trips stand, by the keys of groups and of trips.
#[derive(Drop)]
pub(crate) struct Dwells {
    pub groups: IndexMap<GroupDwellKey, u32>,
    pub trips: IndexMap<TripDwellKey, u32>,
}

/// What the rows of a network tell, by their keys.
#[derive(Drop)]
pub(crate) struct Indexes {
    pub places: Places,
    pub lines: Lines,
    pub moves: Moves,
    pub dwells: Dwells,
}
