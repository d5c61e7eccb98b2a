//! The tables of a day that is made from a seed.

ghost use Rattle.std.specs.Prelude.{◌≡◌, ◌≤◌, ◌++◌, ◌∷◌, [], IfOk, OnOk, map};
ghost use Rattle.plan_core.specs.Limits.{most_items};
ghost use Rattle.day_maker.specs.Limits.{AreSmall};
ghost use Rattle.day_maker.specs.Made as made;
ghost use Rattle.day_maker.specs.Made.{made_tables, rows_of};

use crate::cells::{Cell, add};
use crate::headings::part_table;
use crate::parts::Part;
use crate::tables::table_over;
use crate::trips::trip_rows;
use plan_core::{Memory, Seq};
use std::alloc::Global;
use vdv451_text::{Field, Table};

/// The one row of some cells.
fn one_row(alloc: Global, cells: &[Cell]) -> Result<Seq<Seq<Field>>, Memory>
    requires { AreSmall cells.now }
    ensures { IfOk result (λ rows. rows ≡ rows_of (cells.now ∷ [])) }
{
    let mut rows = Seq::new(alloc);
    add(alloc, &mut rows, cells)?;
    Ok(rows)
}

/// The table of the version in force.
fn version_table(alloc: Global) -> Result<Table, Memory>
    ensures { IfOk result (λ table. table ≡ made.version_table) }
{
    let rows = one_row(alloc, &[Cell::Number(20_260_101), Cell::Number(1)])?;
    table_over(
        alloc,
        "BASIS_VER_GUELTIGKEIT",
        &["VER_GUELTIGKEIT", "BASIS_VERSION"],
        rows,
    )
}

/// The table of the one day.
fn calendar_table(alloc: Global) -> Result<Table, Memory>
    ensures { IfOk result (λ table. table ≡ made.calendar_table) }
{
    let rows = one_row(
        alloc,
        &[Cell::Number(1), Cell::Number(20_260_302), Cell::Number(1)],
    )?;
    table_over(
        alloc,
        "FIRMENKALENDER",
        &["BASIS_VERSION", "BETRIEBSTAG", "TAGESART_NR"],
        rows,
    )
}

/// The table of trips.
fn trip_table(alloc: Global, seed: u32, trips: u32) -> Result<Table, Memory>
    requires { trips ≤ most_items }
    ensures { IfOk result (λ table. table ≡ made.trip_table seed trips) }
{
    let rows = trip_rows(alloc, seed, trips)?;
    table_over(
        alloc,
        "REC_FRT",
        &[
            "BASIS_VERSION",
            "FRT_FID",
            "FRT_START",
            "LI_NR",
            "TAGESART_NR",
            "FAHRTART_NR",
            "FGR_NR",
            "STR_LI_VAR",
            "UM_UID",
        ],
        rows,
    )
}

/// The table of types of vehicles.
fn type_table(alloc: Global) -> Result<Table, Memory>
    ensures { IfOk result (λ table. table ≡ made.type_table) }
{
    let rows = one_row(alloc, &[Cell::Number(1), Cell::Number(1)])?;
    table_over(
        alloc,
        "MENGE_FZG_TYP",
        &["BASIS_VERSION", "FZG_TYP_NR"],
        rows,
    )
}

/// The table of settings.
fn settings_table(alloc: Global) -> Result<Table, Memory>
    ensures { IfOk result (λ table. table ≡ made.settings_table) }
{
    let rows = one_row(
        alloc,
        &[
            Cell::Number(1),
            Cell::Number(1),
            Cell::Number(300),
            Cell::Number(7_200),
            Cell::Number(300),
        ],
    )?;
    table_over(
        alloc,
        "X_PLAN",
        &[
            "UEB_BEREICH_NR",
            "UEB_FGR_NR",
            "WENDE_SEK",
            "MAX_WARTE_SEK",
            "UEBERGABE_SEK",
        ],
        rows,
    )
}

/// Puts behind others the tables of the calendar.
fn add_calendar(alloc: Global, tables: &mut Seq<Table>) -> Result<(), Memory>
    ensures { OnOk result (tables.new ≡ tables.old ++ made.version_table ∷ made.calendar_table ∷ []) }
{
    tables.push(version_table(alloc)?)?;
    tables.push(calendar_table(alloc)?)?;
    Ok(())
}

/// Puts behind others the tables of types and settings.
fn add_settings(alloc: Global, tables: &mut Seq<Table>) -> Result<(), Memory>
    ensures { OnOk result (tables.new ≡ tables.old ++ made.type_table ∷ made.settings_table ∷ []) }
{
    tables.push(type_table(alloc)?)?;
    tables.push(settings_table(alloc)?)?;
    Ok(())
}

/// Puts behind others the tables of parts, in their order.
fn add_parts(alloc: Global, tables: &mut Seq<Table>, parts: &[Part]) -> Result<(), Memory>
    ensures { OnOk result (tables.new ≡ tables.old ++ map made.part_table parts.now) }
{
    for part in parts {
        tables.push(part_table(alloc, *part)?)?;
    }
    Ok(())
}

/// The tables of a day that is made from a seed: a network of seven lines between eight terminals, two depots, and so many trips, from 1
/// to 3,000, at drawn departures. They are tables of planning files in the order in which these are described, for the day 2026-03-02.
///
/// # Errors
///
/// `Memory` where memory runs out, and for nothing else.
pub fn make_tables(alloc: Global, seed: u32, trips: u32) -> Result<Seq<Table>, Memory>
    requires { trips ≤ most_items }
    ensures { IfOk result (λ tables. tables ≡ made_tables seed trips) }
{
    let mut tables = Seq::new(alloc);
    add_calendar(alloc, &mut tables)?;
    add_parts(
        alloc,
        &mut tables,
        &[
            Part::Points,
            Part::Lengths,
            Part::Times,
            Part::Dwells,
            Part::Variants,
            Part::Courses,
        ],
    )?;
    tables.push(trip_table(alloc, seed, trips)?)?;
    tables.push(part_table(alloc, Part::Deadheads)?)?;
    add_settings(alloc, &mut tables)?;
    add_parts(
        alloc,
        &mut tables,
        &[
            Part::Pools(trips),
            Part::Reliefs,
            Part::Ways,
            Part::Groups(trips),
        ],
    )?;
    Ok(tables)
}
