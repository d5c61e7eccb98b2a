//! The tables of a network, by key.

ghost use Rattle.std.specs.Prelude.{◌≡◌, ◌<◌, ◌^◌, ◌≤◌, ◌↔◌, All, IfOk, IfSome, IsNone, length};
ghost use Rattle.std.specs.Option.{option_copied, option_map};
ghost use Rattle.vdv452_tables.specs.Calendar.{IsInForce, begun, kind_on, later as later_row, latest, version_on};
ghost use Rattle.indexmap.specs.IndexMap.{get};
ghost use Rattle.vdv452_tables.specs.Indexes.{course_or_none};
ghost use Rattle.vdv452_tables.specs.Keys.{dead_key_of, line_key_eq, move_key_eq, named, value_at};
ghost use Rattle.vdv452_tables.specs.LookUps.{area_on, course_on, dead_time_on, extra_of, group_dwell_on, has_point_on, has_type_on, known, length_on, run_time_on, trip_dwell_on};
ghost use Rattle.vdv452_tables.specs.Ranges.{Fits, HasRanges, IsLength, IsTime, columns_named};

use crate::indexes::{Indexes, Lines};
use crate::indexing::indexes_of;
use crate::keys::{
    DayKey, GroupDwellKey, LineName, MoveKey, PointKey, SectionKey, TripDwellKey, TypeKey,
};
use crate::net::Net;
use plan_core::{Bytes, Memory, Point, Seq};
use std::alloc::Global;
use std::marker::Model;
use vdv452_rows::{DeadRow, TripRow, VersionRow};

/// The typed rows of the tables of a network, with their indexes by key. No look-up takes memory.
#[derive(Drop)]
pub struct Network {
    rows: Box<Net>,
    indexes: Box<Indexes>,
}

impl Model for Network {
    ghost use Rattle.vdv452_tables.specs.declared.net.Net.{Net};
    ghost use Rattle.vdv452_tables.specs.Indexes.{AreIndexes};
    ghost use Rattle.vdv452_tables.specs.Ranges.{HasRanges};

    ghost Value = { Net };

    ghost view = { λ n. n.rows.value };

    ghost invariant = { λ n. AreIndexes n.rows.value n.indexes.value × HasRanges n.rows.value };
}

/// The row of the later day; of two with one day the first.
fn later(row: VersionRow, other: Option<VersionRow>) -> VersionRow
    ensures { result ≡ later_row row other }
{
    match other {
        Some(other) if row.day < other.day => other,
        _ => row,
    }
}

/// The row of the greatest day not after a day.
fn latest_begun(rows: &[VersionRow], day: u32) -> Option<VersionRow>
    ensures { result ≡ latest (begun rows.now day) }
{
    let mut found = None;
    let mut left = rows.len();
    while left > 0 {
        left -= 1;
        let row = rows[left];
        if row.day <= day {
            found = Some(later(row, found));
        }
    }
    found
}

/// The version of the row of the greatest day not after a day.
fn version_in(rows: &[VersionRow], day: u32) -> Option<u32>
    ensures { result ≡ option_map (λ row. row.version) (latest (begun rows.now day)) }
{
    latest_begun(rows, day).map(|row| row.version)
}

/// The length that a section's row has, if there is a row and its field is not empty.
fn known_length(length: Option<&Option<u32>>) -> Option<u32>
    ensures { result ≡ known (option_copied length.entry) }
{
    match length {
        Some(length) => *length,
        None => None,
    }
}

/// The points of a variant of a line in an index, none where it has none.
fn course_in<'l>(lines: &'l Lines, name: LineName<'_>) -> &'l [Point]
    ensures { result.now ≡ course_or_none (get line_key_eq lines.now.courses (named name.entry.version name.entry.line name.entry.variant.now)) }
{
    match lines.courses.get(name) {
        Some(course) => course.as_slice(),
        None => &[],
    }
}

/// The time of the first row of UEB_FZT with a key.
fn dead_time_in(rows: &[DeadRow], key: MoveKey) -> Option<u32>
    ensures { result ≡ value_at move_key_eq dead_key_of (λ row. row.time) rows.now key }
{
    for row in rows {
        if MoveKey::new(row.version, row.area, row.group, row.from, row.to) == key {
            return Some(row.time);
        }
    }
    None
}

impl Network {
    /// A network of these rows, with their indexes.
    pub(crate) fn new(alloc: Global, rows: Net) -> Result<Network, Memory>
        requires { HasRanges rows }
        ensures { IfOk result (λ net. net ≡ rows) }
    {
        let indexes = Box::new(alloc, indexes_of(alloc, &rows)?)?;
        let rows = Box::new(alloc, rows)?;
        Ok(Network { rows, indexes })
    }

    /// The version in force on a day given as YYYYMMDD: that of the greatest VER_GUELTIGKEIT not
    /// after it. None where every version begins later. It takes no memory.
    pub fn version_at(&self, day: u32) -> Option<u32>
        ensures version { result ≡ version_on self.now day }
        ensures in_force { IfSome result (IsInForce self.now.versions day) }
        ensures none { IsNone result ↔ All (λ row. day < row.day) self.now.versions }
    {
        version_in(self.rows.versions.as_slice(), day)
    }

    /// TAGESART_NR of the row of FIRMENKALENDER with this version and day, given as YYYYMMDD. None
    /// where there is no such row. It takes no memory.
    pub fn kind_at(&self, version: u32, day: u32) -> Option<u32>
        ensures { result ≡ kind_on self.now version day }
    {
        let key = DayKey { version, day };
        self.indexes.places.kinds.get(&key).copied()
    }

    /// All rows of REC_FRT in their order, those of other versions and days too. It takes no memory.
    pub fn trip_rows(&self) -> &[TripRow]
        ensures rows { result.now ≡ self.now.trips }
        ensures few { length result.now < 2 ^ 32 }
        ensures starts { All (λ row. IsTime row.start) result.now }
        ensures fids { All (λ row. row.fid ≤ 10 ^ 18) result.now }
    {
        self.rows.trips.as_slice()
    }

    /// BEREICH_NR of the row of REC_LID with this version, line and variant: the area whose run
    /// times and lengths count. None without such a row. It takes no memory.
    pub fn area(&self, version: u32, line: u32, variant: &Bytes) -> Option<u32>
        ensures { result ≡ area_on self.now version line variant.now }
    {
        let name = LineName {
            version,
            line,
            variant,
        };
        self.indexes.lines.areas.get(name).copied()
    }

    /// The points of a variant of a line.
    fn points(&self, version: u32, line: u32, variant: &Bytes) -> &[Point]
        ensures { result.now ≡ course_on self.now version line variant.now }
    {
        let name = LineName {
            version,
            line,
            variant,
        };
        course_in(&self.indexes.lines, name)
    }

    /// The points of the rows of LID_VERLAUF with this version, line and variant, in the order of
    /// LI_LFD_NR; empty without such rows. It takes no memory.
    pub fn course(&self, version: u32, line: u32, variant: &Bytes) -> &[Point]
        ensures course { result.now ≡ course_on self.now version line variant.now }
        ensures few { length result.now < 2 ^ 32 }
    {
        // The rows of a network are few: its invariant says so.
        let _ = &self.rows;
        self.points(version, line, variant)
    }

    /// SEL_FZT in seconds, of the row of SEL_FZT_FELD with this version, area, group of run times
    /// and points. None without such a row. It takes no memory.
    pub fn run_time(
        &self,
        version: u32,
        area: u32,
        group: u32,
        from: Point,
        to: Point,
    ) -> Option<u32>
        ensures value { result ≡ run_time_on self.now version area group from to }
        ensures range { IfSome result IsTime }
    {
        let key = MoveKey::new(version, area, group, from, to);
        self.indexes.moves.runs.get(&key).copied()
    }

    /// FRT_HZT_ZEIT in seconds, of the row of REC_FRT_HZT with this version, trip and point: how
    /// long that trip stands there. None without such a row. It takes no memory.
    pub fn trip_dwell(&self, version: u32, fid: u64, at: Point) -> Option<u32>
        ensures value { result ≡ trip_dwell_on self.now version fid at }
        ensures range { IfSome result IsTime }
    {
        let key = TripDwellKey { version, fid, at };
        self.indexes.dwells.trips.get(&key).copied()
    }

    /// HP_HZT in seconds, of the row of ORT_HZTF with this version, group of run times and point:
    /// how long each trip of the group stands there. None without such a row. It takes no memory.
    pub fn group_dwell(&self, version: u32, group: u32, at: Point) -> Option<u32>
        ensures value { result ≡ group_dwell_on self.now version group at }
        ensures range { IfSome result IsTime }
    {
        let key = GroupDwellKey { version, group, at };
        self.indexes.dwells.groups.get(&key).copied()
    }

    /// SEL_LAENGE in metres, of the row of REC_SEL with this version, area and points. None without
    /// such a row, and where its field is empty. It takes no memory.
    pub fn length(&self, version: u32, area: u32, from: Point, to: Point) -> Option<u32>
        ensures value { result ≡ length_on self.now version area from to }
        ensures range { IfSome result IsLength }
    {
        let key = SectionKey {
            version,
            area,
            from,
            to,
        };
        known_length(self.indexes.moves.lengths.get(&key))
    }

    /// UEB_FAHRZEIT in seconds, of the row of UEB_FZT with this version, area, group of run times
    /// and points: the time of a move without passengers. None without such a row. It takes no
    /// memory, and as much time as the table has rows: who asks often makes `Deadheads` of them.
    pub fn dead_time(
        &self,
        version: u32,
        area: u32,
        group: u32,
        from: Point,
        to: Point,
    ) -> Option<u32>
        ensures value { result ≡ dead_time_on self.now version area group from to }
        ensures range { IfSome result IsTime }
    {
        let key = MoveKey::new(version, area, group, from, to);
        dead_time_in(self.dead_rows(), key)
    }

    /// All rows of UEB_FZT in their order, those of other versions too. It takes no memory.
    pub fn dead_rows(&self) -> &[DeadRow]
        ensures rows { result.now ≡ self.now.deads }
        ensures times { All (λ row. IsTime row.time) result.now }
    {
        self.rows.deads.as_slice()
    }

    /// Whether REC_ORT has a row with this version and point. It takes no memory.
    pub fn has_point(&self, version: u32, at: Point) -> bool
        ensures { result ≡ has_point_on self.now version at }
    {
        let key = PointKey { version, at };
        self.indexes.places.points.get(&key).is_some()
    }

    /// Whether MENGE_FZG_TYP has a row with this version and type of vehicles. It takes no memory.
    pub fn has_type(&self, version: u32, typ: u32) -> bool
        ensures { result ≡ has_type_on self.now version typ }
    {
        let key = TypeKey { version, typ };
        self.indexes.places.types.get(&key).is_some()
    }

    /// The rows of a table of this project in their order, each with the numbers of all columns, in
    /// the order in which the table's columns are read. Empty for a table that is absent, and for
    /// any name but X_PLAN, X_HOF, X_LINIE_FZG, X_ABLOESE, X_WEG and X_FAHRER. It takes no memory.
    pub fn extra(&self, table: &str) -> &[Seq<u32>]
        ensures rows { result.now ≡ extra_of self.now table.now }
        ensures fits { All (Fits (columns_named table.now)) result.now }
    {
        if table == "X_PLAN" {
            self.rows.plan.as_slice()
        } else if table == "X_HOF" {
            self.rows.depots.as_slice()
        } else if table == "X_LINIE_FZG" {
            self.rows.line_types.as_slice()
        } else if table == "X_ABLOESE" {
            self.rows.reliefs.as_slice()
        } else if table == "X_WEG" {
            self.rows.ways.as_slice()
        } else if table == "X_FAHRER" {
            self.rows.drivers.as_slice()
        } else {
            &[]
        }
    }
}
