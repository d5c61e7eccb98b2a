//! The settings of a plan.

ghost use Rattle.std.specs.Prelude.{◌≡◌, ◌≤◌, All, AllPairs, IfOk, IfSome, length};
ghost use Rattle.vdv452_tables.specs.Ranges.{IsTime};
ghost use Rattle.plan_params.specs.LookUps.{admits_in, is_relief_in, way_in};
ghost use Rattle.plan_params.specs.Limits.{AreSettings, HaveRanges, IsGroup, IsPool};

use crate::indexes::{Indexes, indexes_of};
use crate::rows::ParamRows;
use crate::rows::admission::Admission;
use crate::rows::group::Group;
use crate::rows::pool::Pool;
use crate::rows::settings::Settings;
use crate::rows::way::WayKey;
use plan_core::{Memory, Point};
use std::alloc::Global;
use std::marker::Model;

/// The settings of a plan, with indexes for their look-ups. No look-up takes memory.
#[derive(Drop)]
pub struct Params {
    rows: ParamRows,
    indexes: Indexes,
}

impl Model for Params {
    ghost use Rattle.plan_params.specs.declared.rows.ParamRows.{ParamRows};
    ghost use Rattle.plan_params.specs.Indexes.{AreIndexes};
    ghost use Rattle.plan_params.specs.Limits.{HaveRanges};

    ghost Value = { ParamRows };

    ghost view = { λ params. params.rows };

    ghost invariant = { λ params. AreIndexes params.rows params.indexes × HaveRanges params.rows };
}

impl Params {
    /// The settings of these rows, with their indexes.
    pub(crate) fn new(alloc: Global, rows: ParamRows) -> Result<Params, Memory>
        requires { HaveRanges rows }
        ensures { IfOk result (λ params. params ≡ rows) }
    {
        let indexes = indexes_of(alloc, &rows)?;
        Ok(Params { rows, indexes })
    }

    /// The row of X_PLAN.
    pub fn settings(&self) -> Settings
        ensures value { result ≡ self.now.settings }
        ensures ranges { AreSettings result }
    {
        self.rows.settings
    }

    /// The rows of X_HOF in the order of HOF_NR; of two with one number the earlier row first. There
    /// are at most 32.
    pub fn pools(&self) -> &[Pool]
        ensures rows { result.now ≡ self.now.pools }
        ensures few { length result.now ≤ 32 }
        ensures ranges { All IsPool result.now }
        ensures rise { AllPairs (λ earlier later. earlier.number ≤ later.number) result.now }
    {
        self.rows.pools.as_slice()
    }

    /// The rows of X_FAHRER in the order of GRUPPE_NR; of two with one number the earlier row first.
    /// There are at most 32.
    pub fn groups(&self) -> &[Group]
        ensures rows { result.now ≡ self.now.groups }
        ensures few { length result.now ≤ 32 }
        ensures ranges { All IsGroup result.now }
        ensures rise { AllPairs (λ earlier later. earlier.number ≤ later.number) result.now }
    {
        self.rows.groups.as_slice()
    }

    /// Whether vehicles of a type may serve a line: all types where X_LINIE_FZG has no row of the
    /// line, else those of its rows. It takes no memory.
    pub fn admits(&self, line: u32, typ: u32) -> bool
        ensures { result ≡ admits_in self.now line typ }
    {
        if self.indexes.lines.get(&line).is_none() {
            return true;
        }
        let admission = Admission { line, typ };
        self.indexes.admissions.get(&admission).is_some()
    }

    /// Whether drivers are relieved at a point: X_ABLOESE has it. It takes no memory.
    pub fn relief(&self, at: Point) -> bool
        ensures { result ≡ is_relief_in self.now at }
    {
        self.indexes.reliefs.get(&at).is_some()
    }

    /// How many seconds a driver is on the way between two points: 0 from a point to itself, else
    /// WEG_SEK of the row of X_WEG with these points. None without such a row. It takes no memory.
    pub fn way(&self, from: Point, to: Point) -> Option<u32>
        ensures value { result ≡ way_in self.now from to }
        ensures range { IfSome result IsTime }
    {
        if from == to {
            return Some(0);
        }
        let key = WayKey { from, to };
        self.indexes.ways.get(&key).copied()
    }
}
