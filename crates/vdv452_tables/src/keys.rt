//! The keys of the tables, and which rows have them.

ghost use Rattle.std.specs.Prelude.{◌≡◌};
ghost use Rattle.std.proofs.Common.{ap};
ghost use Rattle.vdv452_tables.specs.Keys as keys;

use crate::index::KeyedRow;
use indexmap::Equivalent;
use plan_core::{Bytes, Memory, Point};
use std::alloc::Global;
use std::hash::Hash;
use vdv452_rows::{
    CalendarRow, GroupDwellRow, LineRow, PointRow, RunRow, SectionRow, TripDwellRow, TypeRow,
    bytes_of,
};

/// The key of a day in FIRMENKALENDER.
#[derive(Clone, Copy, PartialEq, Eq, Hash)]
pub(crate) struct DayKey {
    pub version: u32,
    pub day: u32,
}

/// The key of a point in REC_ORT.
#[derive(Clone, Copy, PartialEq, Eq, Hash)]
pub(crate) struct PointKey {
    pub version: u32,
    pub at: Point,
}

/// The key of a type of vehicles in MENGE_FZG_TYP.
#[derive(Clone, Copy, PartialEq, Eq, Hash)]
pub(crate) struct TypeKey {
    pub version: u32,
    pub typ: u32,
}

/// The key of a section in REC_SEL.
#[derive(Clone, Copy, PartialEq, Eq, Hash)]
pub(crate) struct SectionKey {
    pub version: u32,
    pub area: u32,
    pub from: Point,
    pub to: Point,
}

/// The key of a time from point to point, in SEL_FZT_FELD and UEB_FZT.
#[derive(Clone, Copy, PartialEq, Eq, Hash)]
pub(crate) struct MoveKey {
    pub version: u32,
    pub area: u32,
    pub group: u32,
    pub from: Point,
    pub to: Point,
}

impl MoveKey {
    /// The key of a time between two points, of an area and a group of run times.
    pub fn new(version: u32, area: u32, group: u32, from: Point, to: Point) -> MoveKey
        ensures { result ≡ keys.move_key version area group from to }
    {
        MoveKey {
            version,
            area,
            group,
            from,
            to,
        }
    }
}

/// The key of the dwell of a group of run times in ORT_HZTF.
#[derive(Clone, Copy, PartialEq, Eq, Hash)]
pub(crate) struct GroupDwellKey {
    pub version: u32,
    pub group: u32,
    pub at: Point,
}

/// The key of the dwell of a trip in REC_FRT_HZT.
#[derive(Clone, Copy, PartialEq, Eq, Hash)]
pub(crate) struct TripDwellKey {
    pub version: u32,
    pub fid: u64,
    pub at: Point,
}

/// The key of a variant of a line in REC_LID, and of a stop sequence in LID_VERLAUF.
#[derive(PartialEq, Eq, Hash, Drop)]
pub(crate) struct LineKey {
    pub version: u32,
    pub line: u32,
    pub variant: Bytes,
}

/// A key of a variant of a line that is looked for, with its name where it stands.
#[derive(Clone, Copy, PartialEq, Eq, Hash)]
pub(crate) struct LineName<'a> {
    pub version: u32,
    pub line: u32,
    pub variant: &'a Bytes,
}

impl<'a> Equivalent<LineKey> for LineName<'a> {
    ghost equivalent = { λ name key. keys.line_key_eq (keys.named name.version name.line name.variant.now) key };

    ghost respects_hash = { λ name key same. ap ⟦<LineKey as Hash>⟧.hash_input (keys.same_line_key (keys.named name.version name.line name.variant.now) key same) };

    ghost respects_eq = { λ name key other same. ap (λ found. keys.line_key_eq found other) (keys.same_line_key (keys.named name.version name.line name.variant.now) key same) };

    fn equivalent(&self, key: &LineKey) -> bool {
        self.version == key.version && (self.line == key.line && *self.variant == key.variant)
    }
}

/// A point is its own key, and nothing more is told of it.
impl KeyedRow<Point, ()> for Point {
    ghost key_of = { λ at. at };

    ghost value_of = { λ at. tt };

    fn entry(&self, _alloc: Global) -> Result<(Point, ()), Memory> {
        Ok((*self, ()))
    }
}

impl KeyedRow<DayKey, u32> for CalendarRow {
    ghost key_of = { keys.day_key_of };

    ghost value_of = { λ row. row.kind };

    fn entry(&self, _alloc: Global) -> Result<(DayKey, u32), Memory> {
        let key = DayKey {
            version: self.version,
            day: self.day,
        };
        Ok((key, self.kind))
    }
}

impl KeyedRow<PointKey, ()> for PointRow {
    ghost key_of = { keys.point_key_of };

    ghost value_of = { λ row. tt };

    fn entry(&self, _alloc: Global) -> Result<(PointKey, ()), Memory> {
        let key = PointKey {
            version: self.version,
            at: self.at,
        };
        Ok((key, ()))
    }
}

impl KeyedRow<TypeKey, ()> for TypeRow {
    ghost key_of = { keys.type_key_of };

    ghost value_of = { λ row. tt };

    fn entry(&self, _alloc: Global) -> Result<(TypeKey, ()), Memory> {
        let key = TypeKey {
            version: self.version,
            typ: self.typ,
        };
        Ok((key, ()))
    }
}

impl KeyedRow<SectionKey, Option<u32>> for SectionRow {
    ghost key_of = { keys.section_key_of };

    ghost value_of = { λ row. row.length };

    fn entry(&self, _alloc: Global) -> Result<(SectionKey, Option<u32>), Memory> {
        let key = SectionKey {
            version: self.version,
            area: self.area,
            from: self.from,
            to: self.to,
        };
        Ok((key, self.length))
    }
}

impl KeyedRow<MoveKey, u32> for RunRow {
    ghost key_of = { keys.run_key_of };

    ghost value_of = { λ row. row.time };

    fn entry(&self, _alloc: Global) -> Result<(MoveKey, u32), Memory> {
        let key = MoveKey::new(self.version, self.area, self.group, self.from, self.to);
        Ok((key, self.time))
    }
}

impl KeyedRow<GroupDwellKey, u32> for GroupDwellRow {
    ghost key_of = { keys.group_dwell_key_of };

    ghost value_of = { λ row. row.time };

    fn entry(&self, _alloc: Global) -> Result<(GroupDwellKey, u32), Memory> {
        let key = GroupDwellKey {
            version: self.version,
            group: self.group,
            at: self.at,
        };
        Ok((key, self.time))
    }
}

impl KeyedRow<TripDwellKey, u32> for TripDwellRow {
    ghost key_of = { keys.trip_dwell_key_of };

    ghost value_of = { λ row. row.time };

    fn entry(&self, _alloc: Global) -> Result<(TripDwellKey, u32), Memory> {
        let key = TripDwellKey {
            version: self.version,
            fid: self.fid,
            at: self.at,
        };
        Ok((key, self.time))
    }
}

impl KeyedRow<LineKey, u32> for LineRow {
    ghost key_of = { keys.line_key_of };

    ghost value_of = { λ row. row.area };

    fn entry(&self, alloc: Global) -> Result<(LineKey, u32), Memory> {
        let key = LineKey {
            version: self.version,
            line: self.line,
            variant: bytes_of(alloc, self.variant.as_slice())?,
        };
        Ok((key, self.area))
    }
}
