//! The command `trips`: the rows of a day's trips.

ghost use Rattle.std.specs.Prelude.{◌≡◌, ◌≢◌, ◌<◌, ◌≤◌, ◌^◌, ◌⊎◌, ℕ, List, None, Some, All, IsTrue, IfOk, IfErr, OnOk, length, slice_index_or, ◌∷◌, []};
ghost use Rattle.plan_core.specs.Limits.{most_items};
ghost use Rattle.vdv451_text.specs.Plain.{are_plain, text};
ghost use Rattle.vdv452_tables.specs.declared.reading.Needs.TheVariants as needs;
ghost use Rattle.vdv452_rows.specs.Schema.{trips as trips_schema};
ghost use Rattle.vdv452_tables.specs.Calendar.{net_of, schemas_of};
ghost use Rattle.vdv452_rows.specs.Rows.{first_fault, table_of};
ghost use Rattle.vdv451_text.specs.declared.table.Table.{Table as TextTable};
ghost use Rattle.planner_run.specs.Trips.{IsDayCause, IsTripsText, picked_table, rows_at};
ghost use Rattle.planner_run.specs.Trips.{IsCrowdRefusal, IsDayIn, IsRefusalIn, IsRefused};
ghost use Rattle.day_calendar.specs.DayTrips.{AreDayRows};
ghost use Rattle.vdv451_text.specs.Plain.{is_plain_table};

use crate::model::{day_kind, network};
use crate::status::{InputFault, Status};
use day_calendar::{DayKind, day_rows};
use day_model::MOST_TRIPS;
use plan_core::{Bytes, Memory, Seq};
use std::alloc::Global;
use vdv451_text::{Field, Table, copied_columns, copied_row, write_tables};
use vdv452_tables::{Needs, Network};

/// The rows that stand at these places.
fn picked_rows(
    alloc: Global,
    rows: &[Seq<Field>],
    places: &[u32],
) -> Result<Seq<Seq<Field>>, Memory>
    requires { All (λ place. place < length rows.now) places.now }
    ensures { IfOk result (λ picked. picked ≡ rows_at rows.now places.now) }
{
    let mut picked = Seq::new(alloc);
    for place in places {
        picked.push(copied_row(alloc, rows[*place as usize].as_slice())?)?;
    }
    Ok(picked)
}

/// The table with the rows at these places alone.
fn table_of_places(alloc: Global, table: &Table, places: &[u32]) -> Result<Table, Memory>
    requires { All (λ place. place < length table.now.rows) places.now }
    ensures { IfOk result (λ picked. picked ≡ picked_table table.now places.now) }
{
    Ok(Table {
        name: table.name.clone()?,
        columns: copied_columns(alloc, table.columns.as_slice())?,
        rows: picked_rows(alloc, table.rows.as_slice(), places)?,
    })
}

/// The place of the table REC_FRT, which is there.
pub(crate) fn trips_place(tables: &[Table]) -> usize
    requires { table_of trips_schema tables.now ≢ None }
    ensures within { result < length tables.now }
    ensures found { (other : TextTable) → table_of trips_schema tables.now ≡ Some (slice_index_or tables.now result other) }
{
    let name: &[u8] = b"REC_FRT";
    for (place, table) in tables.iter().enumerate() {
        if table.name.as_slice() == name {
            return place;
        }
    }
    unreachable!()
}

/// The text of the table REC_FRT with the rows at these places.
fn rows_text(alloc: Global, table: &Table, places: &[u32]) -> Result<Bytes, Memory>
    requires plain { IsTrue (is_plain_table table.now) }
    requires within { All (λ place. place < length table.now.rows) places.now }
    ensures { IfOk result (λ bytes. bytes ≡ text (picked_table table.now places.now ∷ [])) }
{
    let table = table_of_places(alloc, table, places)?;
    write_tables(alloc, &[table])
}

/// The places of the day's trips, of which there are at most 3,000.
fn day_places(alloc: Global, net: &Network, kind: &DayKind) -> Result<Seq<u32>, Status>
    requires { length net.now.trips < 2 ^ 32 }
    ensures rows { IfOk result (AreDayRows net.now.trips kind.now.version kind.now.kind) }
    ensures within { IfOk result (All (λ place. place < length net.now.trips)) }
    ensures few { IfOk result (λ places. length places ≤ most_items) }
    ensures cause { IfErr result (IsCrowdRefusal net.now.trips kind.now.version kind.now.kind) }
{
    let places = day_rows(alloc, net, kind)?;
    if places.len() > MOST_TRIPS {
        return Err(Status::Input(InputFault::Trips {
            count: places.len() as u32,
        }));
    }
    Ok(places)
}

/// A day type, and the places of its trips among the rows of REC_FRT, by departure and number.
#[derive(Drop)]
struct DayPlaces {
    kind: DayKind,
    places: Seq<u32>,
}

/// The day in a network, or why it has none.
fn day_in(alloc: Global, net: &Network, day: u32) -> Result<DayPlaces, Status>
    requires { length net.now.trips < 2 ^ 32 }
    ensures day { IfOk result (λ found. IsDayIn net.now day found.kind found.places) }
    ensures within { IfOk result (λ found. All (λ place. place < length net.now.trips) found.places) }
    ensures cause { IfErr result (IsRefusalIn net.now day) }
{
    let kind = day_kind(net, day)?;
    let places = day_places(alloc, net, &kind)?;
    Ok(DayPlaces { kind, places })
}

/// The day in the tables of all files, or why there is none.
fn day_of(alloc: Global, tables: &[Table], day: u32) -> Result<DayPlaces, Status>
    requires { All (λ table. length table.rows < 2 ^ 32) tables.now }
    ensures faultless { OnOk result (first_fault (schemas_of needs.Calendar) tables.now ≡ None) }
    ensures day { IfOk result (λ found. IsDayIn (net_of needs.Calendar tables.now) day found.kind found.places) }
    ensures within { IfOk result (λ found. All (λ place. place < length (net_of needs.Calendar tables.now).trips) found.places) }
    ensures cause { IfErr result (IsRefused tables.now day) }
{
    match network(alloc, tables, Needs::Calendar) {
        Ok(net) => day_in(alloc, &net, day),
        Err(status) => Err(status),
    }
}

/// The text of the day's trips, from the tables of all files: REC_FRT with their rows, unchanged, by departure and number.
///
/// # Errors
///
/// `Input` with the first fault of the tables; then `Day` where the day has no day type; then `Input` with the number of trips where
/// there are more than 3,000; and `Memory`.
pub fn trips_text(alloc: Global, tables: &[Table], day: u32) -> Result<Bytes, Status>
    requires plain { IsTrue (are_plain tables.now) }
    requires sized { All (λ table. length table.rows < 2 ^ 32) tables.now }
    ensures written { IfOk result (IsTripsText tables.now day) }
    ensures cause { IfErr result (IsRefused tables.now day) }
{
    let found = day_of(alloc, tables, day)?;
    let table = &tables[trips_place(tables)];
    Ok(rows_text(alloc, table, found.places.as_slice())?)
}
