//! What the tables of a plan say.

ghost use Rattle.plan_rows.specs.Tables as spec;
ghost use Rattle.plan_rows.specs.Tables.{Gives};

use crate::entries::{Blocks, Bounds, Duties, Legs, Pieces, Trips, Vehicles};
use crate::fault::{PlanTable, RowFault};
use crate::rows::{BlockRow, BoundRow, DutyRow, LegRow, PieceRow, TripRow, VehicleRow};
use crate::tables::read_rows;
use plan_core::Seq;
use std::alloc::Global;
use vdv451_text::Table;

/// What the tables of the blocks say.
#[derive(Drop)]
pub struct BlockSheet {
    /// The trips (REC_FRT).
    pub trips: Seq<TripRow>,
    /// The types of the vehicles (REC_UMLAUF).
    pub vehicles: Seq<VehicleRow>,
    /// The blocks (X_UMLAUF).
    pub blocks: Seq<BlockRow>,
    /// The legs (X_UMLAUF_TEIL).
    pub legs: Seq<LegRow>,
}

/// What the tables of the duties and bounds say.
#[derive(Drop)]
pub struct DutySheet {
    /// The duties (X_DIENST).
    pub duties: Seq<DutyRow>,
    /// The pieces (X_DIENST_STUECK).
    pub pieces: Seq<PieceRow>,
    /// The bounds (X_SCHRANKE).
    pub bounds: Seq<BoundRow>,
}

/// What the tables of a plan say, row by row.
#[derive(Drop)]
pub struct Sheet {
    /// The blocks.
    pub blocks: BlockSheet,
    /// The duties.
    pub duties: DutySheet,
}

/// The most rows of a table, but of that of the legs and that of the bounds.
const MOST_ROWS: usize = 3_000;

/// The most legs.
const MOST_LEGS: usize = 30_000;

/// The most bounds.
const MOST_BOUNDS: usize = 4;

/// What the tables of the blocks say, or the first place where they say nothing.
fn read_block_sheet(alloc: Global, tables: &[Table]) -> Result<BlockSheet, RowFault>
    ensures { Gives result (spec.block_sheet_of tables.now) }
{
    let trips = read_rows(alloc, tables, PlanTable::Trips, MOST_ROWS, &Trips)?;
    let vehicles = read_rows(alloc, tables, PlanTable::Vehicles, MOST_ROWS, &Vehicles)?;
    let blocks = read_rows(alloc, tables, PlanTable::Blocks, MOST_ROWS, &Blocks)?;
    let entries = Legs {
        trips: trips.as_slice(),
        blocks: blocks.as_slice(),
    };
    let legs = read_rows(alloc, tables, PlanTable::Legs, MOST_LEGS, &entries)?;
    Ok(BlockSheet {
        trips,
        vehicles,
        blocks,
        legs,
    })
}

/// What the tables of the duties and bounds say, or the first place where they say nothing.
fn read_duty_sheet(alloc: Global, tables: &[Table]) -> Result<DutySheet, RowFault>
    ensures { Gives result (spec.duty_sheet_of tables.now) }
{
    let duties = read_rows(alloc, tables, PlanTable::Duties, MOST_ROWS, &Duties)?;
    let entries = Pieces {
        duties: duties.as_slice(),
    };
    let pieces = read_rows(alloc, tables, PlanTable::Pieces, MOST_ROWS, &entries)?;
    let bounds = read_rows(alloc, tables, PlanTable::Bounds, MOST_BOUNDS, &Bounds)?;
    Ok(DutySheet {
        duties,
        pieces,
        bounds,
    })
}

/// What the tables of a plan say, or the first place where they say nothing.
pub fn read_sheet(alloc: Global, tables: &[Table]) -> Result<Sheet, RowFault>
    ensures { Gives result (spec.sheet_of tables.now) }
{
    let blocks = read_block_sheet(alloc, tables)?;
    let duties = read_duty_sheet(alloc, tables)?;
    Ok(Sheet { blocks, duties })
}
