//! The command `day`: what a day is, and when and how far its trips go.

ghost use Rattle.std.specs.Prelude.{◌≡◌, ◌<◌, ◌^◌, All, IfOk, IfErr, length};
ghost use Rattle.vdv451_text.specs.Plain.{text};
ghost use Rattle.day_model.specs.Building.{IsDayOf};
ghost use Rattle.day_tables.specs.DayTables.{day_tables_of};
ghost use Rattle.planner_run.specs.DayText.{IsDayText, IsDayTextIn};
ghost use Rattle.planner_run.specs.Model.{IsModelIn, IsModelRefusalIn, IsModelRefused};

use crate::model::{model_of, network};
use crate::status::Status;
use day_model::Day;
use day_tables::tables_of_day;
use plan_core::{Bytes, Memory};
use std::alloc::Global;
use vdv451_text::{Table, write_tables};
use vdv452_tables::{Needs, Network};

/// The text of a day's tables.
fn tables_text(alloc: Global, net: &Network, day: &Day) -> Result<Bytes, Memory>
    requires { IsDayOf net.now day.now.kind day.now }
    ensures { IfOk result (λ bytes. bytes ≡ text (day_tables_of net.now day.now)) }
{
    let tables = tables_of_day(alloc, net, day)?;
    write_tables(alloc, tables.as_slice())
}

/// The text of a day in a network, or why there is none.
fn text_in(alloc: Global, net: &Network, day: u32) -> Result<Bytes, Status>
    ensures written { IfOk result (IsDayTextIn net.now day) }
    ensures cause { IfErr result (IsModelRefusalIn net.now day) }
{
    let model = match model_of(alloc, net, day) {
        Ok(model) => model,
        Err(status) => return Err(status),
    };
    match tables_text(alloc, net, &model) {
        Ok(bytes) => Ok(bytes),
        Err(_) => Err(Status::Memory),
    }
}

/// The text of the day that the tables of all files tell: X_TAG with what the day is, and X_FAHRT with its trips.
///
/// # Errors
///
/// `Input` with the first fault of the tables; then `Day` where the day has no day type; then `Input` with the number of trips where there
/// are more than 3,000, the first fault of the settings, or the first trip without times; and `Memory`.
pub fn day_text(alloc: Global, tables: &[Table], day: u32) -> Result<Bytes, Status>
    requires sized { All (λ table. length table.rows < 2 ^ 32) tables.now }
    ensures written { IfOk result (IsDayText tables.now day) }
    ensures cause { IfErr result (IsModelRefused tables.now day) }
{
    match network(alloc, tables, Needs::All) {
        Ok(net) => text_in(alloc, &net, day),
        Err(status) => Err(status),
    }
}
