//! Plans, read from tables.

ghost use Rattle.std.specs.Prelude.{◌<◌, ◌^◌, All, IfOk, length};
ghost use Rattle.umlauf_write.specs.Reading.{read_of};
ghost use Rattle.plan_read.specs.Places.{Gives, IsReadOf};
ghost use Rattle.plan_read.specs.Reading as spec;
ghost use Rattle.plan_read.specs.Reading.{FindsRows, IsNamed};

use crate::bounds::bound_entries;
use crate::fault::{PlanTable, ReadFault, whole};
use crate::gathering::{gathered_blocks, gathered_duties};
use crate::own::{Own, own_entries};
use crate::parts::part_entries;
use crate::rows::{Counts, trip_entries};
use crate::table::{PairRows, TripleRows, pair_rows, triple_rows};
use crate::told::by_fid;
use day_model::Day;
use plan_core::{Bytes, Seq};
use std::alloc::Global;
use umlauf_write::{PlanFault, PlanText};
use vdv451_text::Table;

/// The rows of the five tables of a plan.
#[derive(Clone, Copy)]
struct PlanRows<'t> {
    /// REC_FRT.
    trips: PairRows<'t>,
    /// X_UMLAUF.
    blocks: PairRows<'t>,
    /// X_DIENST.
    duties: PairRows<'t>,
    /// X_DIENST_STUECK.
    parts: TripleRows<'t>,
    /// X_SCHRANKE.
    bounds: PairRows<'t>,
}

/// Four bounds are there.
fn all_four(bounds: &[u64]) -> Result<(), ReadFault>
    ensures { Gives result (spec.all_four bounds.now) }
{
    if bounds.len() < 4 {
        Err(whole(PlanTable::Bounds))
    } else {
        Ok(())
    }
}

/// What the rows of five tables say.
fn rows_said(alloc: Global, day: &Day, rows: &PlanRows) -> Result<PlanText, ReadFault>
    requires { spec.AreSized rows.now }
    ensures said { Gives result (spec.rows_said day.now rows.now) }
    ensures bounds { IfOk result (λ text. All (λ bound. bound < 2 ^ 63) text.bounds) }
{
    let counts = Counts {
        blocks: rows.blocks.rows.len() as u32,
        duties: rows.duties.rows.len() as u32,
    };
    let told = by_fid(alloc, day.trips())?;
    let trips = trip_entries(alloc, told.as_slice(), &counts, &rows.trips)?;
    let classes = own_entries(alloc, Own::Blocks, day, &rows.blocks)?;
    let groups = own_entries(alloc, Own::Duties, day, &rows.duties)?;
    let parts = part_entries(alloc, &counts, &rows.parts)?;
    let bounds = bound_entries(alloc, &rows.bounds)?;
    all_four(bounds.as_slice())?;
    Ok(PlanText {
        blocks: gathered_blocks(alloc, trips.as_slice(), classes.as_slice())?,
        duties: gathered_duties(alloc, parts.as_slice(), groups.as_slice())?,
        bounds,
    })
}

/// The rows of the five tables, each of which stands once and has its columns.
fn rows_found<'t>(tables: &'t [Table]) -> Result<PlanRows<'t>, ReadFault>
    requires { All (λ table. length table.rows < 2 ^ 32) tables.now }
    ensures { FindsRows result tables.now }
{
    let trips = pair_rows(tables, PlanTable::Trips, b"FRT_FID", b"UM_UID")?;
    let blocks = pair_rows(tables, PlanTable::Blocks, b"UM_UID", b"HOF_NR")?;
    let duties = pair_rows(tables, PlanTable::Duties, b"DIENST_NR", b"GRUPPE_NR")?;
    let parts = triple_rows(
        tables,
        PlanTable::Parts,
        b"DIENST_NR",
        b"UM_UID",
        b"STUECK_NR",
    )?;
    let bounds = pair_rows(tables, PlanTable::Bounds, b"ART", b"SCHRANKE")?;
    Ok(PlanRows {
        trips,
        blocks,
        duties,
        parts,
        bounds,
    })
}

/// The plan that tables say, where a table is named by its kind.
fn read_tables(alloc: Global, day: &Day, tables: &[Table]) -> Result<PlanText, ReadFault>
    requires { All (λ table. length table.rows < 2 ^ 32) tables.now }
    ensures said { Gives result (spec.read_places day.now tables.now) }
    ensures bounds { IfOk result (λ text. All (λ bound. bound < 2 ^ 63) text.bounds) }
{
    match rows_found(tables) {
        Ok(rows) => rows_said(alloc, day, &rows),
        Err(fault) => Err(fault),
    }
}

/// A fault with the name of its table.
fn fault_of_table(alloc: Global, fault: ReadFault) -> PlanFault
    ensures { IsNamed fault result }
{
    let ReadFault::Form(place) = fault else {
        return PlanFault::Memory;
    };
    match Vec::from_slice(alloc, place.table.name()) {
        Ok(name) => PlanFault::Form {
            table: Bytes::from_vec(name),
            row: place.row,
        },
        Err(_) => PlanFault::Memory,
    }
}

/// The plan that tables say of a day, as `umlauf_write::plan_tables` writes them.
///
/// Five tables are read: of REC_FRT the columns FRT_FID and UM_UID, of X_UMLAUF UM_UID and HOF_NR, of X_DIENST DIENST_NR and GRUPPE_NR,
/// of X_DIENST_STUECK DIENST_NR, UM_UID and STUECK_NR, and of X_SCHRANKE ART and SCHRANKE. Other tables and further columns are passed
/// over, and formats are free. Blocks (UM_UID), duties (DIENST_NR) and passes (ART) are numbered from 1, each by the place of its row; a
/// trip is named by its FRT_FID, a pool by its HOF_NR and a group by its GRUPPE_NR, where of two with one number the first is meant.
///
/// A block's trips and a duty's pieces stand in the order of their rows, and each block has the worth 0. A trip may be missing or stand
/// in several rows, and so may a piece. Each bound is below 2^63, as every number of a field is.
///
/// Each table has fewer than 2^32 rows, as one that was read from a file has. Each row is looked at once, and a trip is found by halving
/// the trips of the day, which are put in the order of their FRT_FID first.
///
/// # Errors
///
/// `Form` names the first place that is wrong, the tables in the order above, first all of them as wholes and then their rows:
///
/// - a table is missing, stands twice or lacks a column (row 0);
/// - a field is no number, SCHRANKE is below 0, or STUECK_NR is not from 0 to 4,294,967,295 (its row);
/// - UM_UID of X_UMLAUF, DIENST_NR of X_DIENST or ART is not the number of its row, or X_SCHRANKE has a fifth row (its row);
/// - a row names a trip that is not of the day, or a block, duty, pool or group that is not there (its row);
/// - X_SCHRANKE has fewer than four rows (row 0, after all rows).
///
/// `Memory` where memory runs out, and for nothing else.
pub fn read_plan(alloc: Global, day: &Day, tables: &[Table]) -> Result<PlanText, PlanFault>
    requires { All (λ table. length table.rows < 2 ^ 32) tables.now }
    ensures read { IsReadOf (read_of day.now tables.now) result }
    ensures bounds { IfOk result (λ text. All (λ bound. bound < 2 ^ 63) text.bounds) }
{
    match read_tables(alloc, day, tables) {
        Ok(text) => Ok(text),
        Err(fault) => Err(fault_of_table(alloc, fault)),
    }
}
