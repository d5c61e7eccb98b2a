//! Moves without passengers between two points.

ghost use Rattle.std.specs.Prelude.{◌≡◌, All, IfOk, IfSome, OnOk};
ghost use Rattle.vdv452_tables.specs.Ranges.{IsTime};
ghost use Rattle.deadheads.specs.DeadTimes.{AreDeadheads, AreTimesOf, IsNoted, dead_on};

use indexmap::IndexMap;
use plan_core::{Memory, Point};
use std::alloc::Global;
use std::marker::Model;
use vdv452_tables::{DeadRow, Network};

/// Where a move begins and where it ends.
#[derive(Clone, Copy, PartialEq, Eq, Hash)]
pub struct Ends {
    pub from: Point,
    pub to: Point,
}

/// The times of moves without passengers of one version, area and group of run times (UEB_FZT).
#[derive(Drop)]
pub struct Deadheads {
    times: IndexMap<Ends, u32>,
}

impl Model for Deadheads {
    ghost use Rattle.std.specs.Prelude.{ℕ, List, IfSome};
    ghost use Rattle.vdv452_tables.specs.Ranges.{IsTime};
    ghost use Rattle.deadheads.specs.declared.moves.Ends.{Ends};
    ghost use Rattle.deadheads.specs.Entries.{time_at};

    ghost Value = { List (Ends × ℕ) };

    ghost view = { λ deads. deads.times.entries };

    ghost invariant = { λ deads. (ends : Ends) → IfSome (time_at deads.times.entries ends) IsTime };
}

/// Notes the time of a row, if it is of this version, area and group.
fn note(
    times: &mut IndexMap<Ends, u32>,
    row: &DeadRow,
    version: u32,
    area: u32,
    group: u32,
) -> Result<(), Memory>
    ensures { OnOk result (IsNoted row.now version area group times.old times.new) }
{
    if row.version == version && (row.area == area && row.group == group) {
        let ends = Ends {
            from: row.from,
            to: row.to,
        };
        times.insert(ends, row.time)?;
    }
    Ok(())
}

/// The times of the rows of this version, area and group, from the last row to the first, so that
/// the first row of two points counts.
fn times_of(
    alloc: Global,
    rows: &[DeadRow],
    version: u32,
    area: u32,
    group: u32,
) -> Result<IndexMap<Ends, u32>, Memory>
    ensures { IfOk result (λ times. AreTimesOf rows.now version area group times) }
{
    let mut times = IndexMap::new(alloc);
    let mut left = rows.len();
    while left > 0 {
        left -= 1;
        note(&mut times, &rows[left], version, area, group)?;
    }
    Ok(times)
}

impl Deadheads {
    /// The times of the moves of this version, area and group of run times. The error is running out of memory.
    pub fn new(
        alloc: Global,
        net: &Network,
        version: u32,
        area: u32,
        group: u32,
    ) -> Result<Deadheads, Memory>
        ensures { IfOk result (λ deads. AreDeadheads net.now version area group deads) }
    {
        let times = times_of(alloc, net.dead_rows(), version, area, group)?;
        Ok(Deadheads { times })
    }

    /// UEB_FAHRZEIT in seconds, at most 172,800, of the row of UEB_FZT with these points; 0 from a
    /// point to itself, whatever the rows say. None without such a row. It takes no memory, and
    /// looks once.
    pub fn dead(&self, from: Point, to: Point) -> Option<u32>
        ensures value { result ≡ dead_on self.now from to }
        ensures range { IfSome result IsTime }
    {
        if from == to {
            return Some(0);
        }
        let ends = Ends { from, to };
        self.times.get(&ends).copied()
    }
}
