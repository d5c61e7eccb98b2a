//! The day that the tables tell, together with the table that its trips were read from.

ghost use Rattle.std.specs.Prelude.{◌≡◌, ◌<◌, ◌^◌, None, Some, All, IsTrue, IfOk, IfErr, length, slice_get};
ghost use Rattle.vdv451_text.specs.Plain.{are_plain, is_plain_table};
ghost use Rattle.vdv452_tables.specs.declared.reading.Needs.TheVariants as needs;
ghost use Rattle.vdv452_tables.specs.Calendar.{schemas_of};
ghost use Rattle.vdv452_rows.specs.Rows.{first_fault, table_of};
ghost use Rattle.vdv452_rows.specs.Schema.{trips as trips_schema};
ghost use Rattle.plan_command.specs.PlanText.{HasTripRows};
ghost use Rattle.planner_run.specs.Model.{IsModelIn, IsModelOf, IsModelRefusalIn, IsModelRefused};

use crate::model::{model_of, network};
use crate::status::Status;
use crate::trips::trips_place;
use day_model::Day;
use plan_core::Seq;
use std::alloc::Global;
use vdv451_text::Table;
use vdv452_tables::{Needs, Network};

/// A day, and the table that its trips were read from. The other tables are let go.
#[derive(Drop)]
pub struct Ready {
    /// The day.
    pub model: Day,
    /// The table.
    pub rec_frt: Table,
}

/// The table at a place; the others are let go.
fn only_table(tables: Seq<Table>, place: usize) -> Table
    requires { place < length tables }
    ensures { slice_get tables place ≡ Some result }
{
    let mut tables = tables.into_vec();
    tables.swap_remove(place)
}

/// The table of the trips, REC_FRT, which is there; the others are let go.
fn trips_table(tables: Seq<Table>) -> Table
    requires { first_fault (schemas_of needs.All) tables ≡ None }
    ensures { table_of trips_schema tables ≡ Some result }
{
    let place = trips_place(tables.as_slice());
    only_table(tables, place)
}

/// The day in a network, beside the table of its trips.
fn ready_in(alloc: Global, net: &Network, rec_frt: Table, day: u32) -> Result<Ready, Status>
    ensures model { IfOk result (λ ready. IsModelIn net.now day ready.model) }
    ensures same { IfOk result (λ ready. ready.rec_frt ≡ rec_frt) }
    ensures cause { IfErr result (IsModelRefusalIn net.now day) }
{
    match model_of(alloc, net, day) {
        Ok(model) => Ok(Ready { model, rec_frt }),
        Err(status) => Err(status),
    }
}

/// The day that the tables of all files tell, with the table of its trips. The other tables are let go once their rows are read, so that
/// they take no memory while the day is built and planned, and the rows once the day is built.
///
/// # Errors
///
/// `Input` with the first fault of the tables; then `Day` where the day has no day type; then `Input` with the number of trips where there
/// are more than 3,000, the first fault of the settings, or the first trip without times; and `Memory`.
pub fn ready_day(alloc: Global, tables: Seq<Table>, day: u32) -> Result<Ready, Status>
    requires plain { IsTrue (are_plain tables) }
    requires sized { All (λ table. length table.rows < 2 ^ 32) tables }
    ensures model { IfOk result (λ ready. IsModelOf tables day ready.model) }
    ensures found { IfOk result (λ ready. table_of trips_schema tables ≡ Some ready.rec_frt) }
    ensures plain { IfOk result (λ ready. IsTrue (is_plain_table ready.rec_frt)) }
    ensures rows { IfOk result (λ ready. HasTripRows ready.model ready.rec_frt) }
    ensures cause { IfErr result (IsModelRefused tables day) }
{
    match network(alloc, tables.as_slice(), Needs::All) {
        Ok(net) => {
            // No number of a trip is above 10^18: the network says so.
            let _ = net.trip_rows();
            ready_in(alloc, &net, trips_table(tables), day)
        }
        Err(status) => Err(status),
    }
}
