//! The day that the tables tell.

ghost use Rattle.std.specs.Prelude.{◌≡◌, ◌<◌, ◌^◌, None, All, IfOk, IfErr, OnOk, length};
ghost use Rattle.vdv452_tables.specs.Calendar.{net_of, schemas_of};
ghost use Rattle.vdv452_rows.specs.Rows.{first_fault};
ghost use Rattle.day_calendar.specs.Kinds.{IsKindOf};
ghost use Rattle.planner_run.specs.Model.{IsModelIn, IsModelRefusalIn, IsTableRefusal, model_status as model_status_of};
ghost use Rattle.planner_run.specs.Trips.{IsDayRefusal, refused_tables};

use crate::status::{InputFault, Status};
use day_calendar::{DayKind, kind_of};
use day_model::{Day, DayModelFault, build_day};
use std::alloc::Global;
use vdv451_text::Table;
use vdv452_tables::{Needs, Network, TableFault, TableKind, read_tables};

/// The status for tables with a fault.
fn table_status(fault: TableFault) -> Status
    ensures { result ≡ refused_tables fault }
{
    if fault.kind == TableKind::Memory {
        Status::Memory
    } else {
        Status::Input(InputFault::Table(fault))
    }
}

/// The network of the tables that are needed.
pub(crate) fn network(alloc: Global, tables: &[Table], needs: Needs) -> Result<Network, Status>
    requires { All (λ table. length table.rows < 2 ^ 32) tables.now }
    ensures net { IfOk result (λ net. net ≡ net_of needs tables.now) }
    ensures faultless { OnOk result (first_fault (schemas_of needs) tables.now ≡ None) }
    ensures cause { IfErr result (IsTableRefusal needs tables.now) }
{
    match read_tables(alloc, tables, needs) {
        Ok(net) => Ok(net),
        Err(fault) => Err(table_status(fault)),
    }
}

/// The version, day type and weekday of a day, or why it has none.
pub(crate) fn day_kind(net: &Network, day: u32) -> Result<DayKind, Status>
    ensures kind { IfOk result (IsKindOf net.now day) }
    ensures cause { IfErr result (IsDayRefusal net.now day) }
{
    match kind_of(net, day) {
        Ok(kind) => Ok(kind),
        Err(fault) => Err(Status::Day(fault)),
    }
}

/// The status for a first reason against a day.
fn model_status(fault: DayModelFault) -> Status
    ensures { result ≡ model_status_of fault }
{
    match fault {
        DayModelFault::TooManyTrips { count } => Status::Input(InputFault::Trips { count }),
        DayModelFault::Params(fault) => Status::Input(InputFault::Params(fault)),
        DayModelFault::Trip { fid, fault } => Status::Input(InputFault::Trip { fid, fault }),
        DayModelFault::Memory => Status::Memory,
    }
}

/// The day in a network, or why there is none.
///
/// # Errors
///
/// `Day` where the day has no day type; then `Input` with the number of trips where there are more than 3,000, the first fault of the
/// settings, or the first trip without times; and `Memory`.
pub(crate) fn model_of(alloc: Global, net: &Network, day: u32) -> Result<Day, Status>
    ensures day { IfOk result (IsModelIn net.now day) }
    ensures cause { IfErr result (IsModelRefusalIn net.now day) }
{
    let kind = match day_kind(net, day) {
        Ok(kind) => kind,
        Err(status) => return Err(status),
    };
    match build_day(alloc, net, &kind) {
        Ok(model) => Ok(model),
        Err(fault) => Err(model_status(fault)),
    }
}
