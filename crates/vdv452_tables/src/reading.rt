//! The tables of a network, read and tested.

ghost use Rattle.std.specs.Prelude.{◌≡◌, ◌≢◌, ◌<◌, ◌^◌, [], Some, None, All, IfOk, IfErr, OnOk, IsErrAnd, length};
ghost use Rattle.vdv452_rows.specs.declared.fault.TableFault.{TableFault};
ghost use Rattle.vdv452_rows.specs.Answers.{IsRefusal};
ghost use Rattle.vdv452_tables.specs.Calendar.{own_schemas, place_schemas, schemas_of, time_schemas, trip_schemas};
ghost use Rattle.vdv452_tables.specs.Calendar.{empty, net_of, rows_as, with_all, with_calendar, with_own, with_places, with_times, with_trips};
ghost use Rattle.vdv452_rows.specs.Rows.{HasOwnKeys, faults_of, first_fault, table_faults};

use crate::net::Net;
use crate::network::Network;
use plan_core::Seq;
use std::alloc::Global;
use vdv451_text::Table;
use vdv452_rows::{Refusal, Schema, TableFault, TableKind, TypedRow, own, read_table, standard};

/// Which tables are looked at.
#[derive(Clone, Copy, Debug, PartialEq, Eq)]
pub enum Needs {
    /// BASIS_VER_GUELTIGKEIT, FIRMENKALENDER and REC_FRT.
    Calendar,
    /// All tables after VDV 452 that the planner knows, and the tables of this project.
    All,
}

/// The rows of a schema's table, or the table's first fault.
fn read_rows<R: TypedRow>(
    alloc: Global,
    tables: &[Table],
    schema: Schema,
) -> Result<Seq<R>, Refusal>
    requires { All (λ table. length table.rows < 2 ^ 32) tables.now }
    ensures rows { IfOk result (λ rows. rows ≡ rows_as R.row_of schema tables.now) }
    ensures right { OnOk result (table_faults schema tables.now ≡ []) }
    ensures wrong { IfErr result (IsRefusal (table_faults schema tables.now)) }
{
    Ok(Seq::from_vec(read_table(alloc, &schema, tables)?))
}

/// No rows.
fn empty_net(alloc: Global) -> Net
    ensures { result ≡ empty }
{
    Net {
        versions: Seq::new(alloc),
        days: Seq::new(alloc),
        points: Seq::new(alloc),
        sections: Seq::new(alloc),
        runs: Seq::new(alloc),
        group_dwells: Seq::new(alloc),
        trip_dwells: Seq::new(alloc),
        lines: Seq::new(alloc),
        stops: Seq::new(alloc),
        trips: Seq::new(alloc),
        deads: Seq::new(alloc),
        types: Seq::new(alloc),
        plan: Seq::new(alloc),
        depots: Seq::new(alloc),
        line_types: Seq::new(alloc),
        reliefs: Seq::new(alloc),
        ways: Seq::new(alloc),
        drivers: Seq::new(alloc),
    }
}

/// Reads BASIS_VER_GUELTIGKEIT, FIRMENKALENDER and REC_FRT.
fn read_calendar(alloc: Global, tables: &[Table], net: &mut Net) -> Result<(), Refusal>
    requires { All (λ table. length table.rows < 2 ^ 32) tables.now }
    ensures rows { OnOk result (net.new ≡ with_calendar net.old tables.now) }
    ensures right { OnOk result (faults_of (schemas_of Needs.Calendar) tables.now ≡ []) }
    ensures wrong { IfErr result (IsRefusal (faults_of (schemas_of Needs.Calendar) tables.now)) }
{
    net.versions = read_rows(alloc, tables, standard::versions(alloc)?)?;
    net.days = read_rows(alloc, tables, standard::days(alloc)?)?;
    net.trips = read_rows(alloc, tables, standard::trips(alloc)?)?;
    Ok(())
}

/// Reads BASIS_VER_GUELTIGKEIT, FIRMENKALENDER, REC_ORT and REC_SEL.
fn read_places(alloc: Global, tables: &[Table], net: &mut Net) -> Result<(), Refusal>
    requires { All (λ table. length table.rows < 2 ^ 32) tables.now }
    ensures rows { OnOk result (net.new ≡ with_places net.old tables.now) }
    ensures right { OnOk result (faults_of place_schemas tables.now ≡ []) }
    ensures wrong { IfErr result (IsRefusal (faults_of place_schemas tables.now)) }
{
    net.versions = read_rows(alloc, tables, standard::versions(alloc)?)?;
    net.days = read_rows(alloc, tables, standard::days(alloc)?)?;
    net.points = read_rows(alloc, tables, standard::points(alloc)?)?;
    net.sections = read_rows(alloc, tables, standard::sections(alloc)?)?;
    Ok(())
}

/// Reads SEL_FZT_FELD, ORT_HZTF and REC_FRT_HZT.
fn read_times(alloc: Global, tables: &[Table], net: &mut Net) -> Result<(), Refusal>
    requires { All (λ table. length table.rows < 2 ^ 32) tables.now }
    ensures rows { OnOk result (net.new ≡ with_times net.old tables.now) }
    ensures right { OnOk result (faults_of time_schemas tables.now ≡ []) }
    ensures wrong { IfErr result (IsRefusal (faults_of time_schemas tables.now)) }
{
    net.runs = read_rows(alloc, tables, standard::runs(alloc)?)?;
    net.group_dwells = read_rows(alloc, tables, standard::group_dwells(alloc)?)?;
    net.trip_dwells = read_rows(alloc, tables, standard::trip_dwells(alloc)?)?;
    Ok(())
}

/// Reads REC_LID, LID_VERLAUF, REC_FRT, UEB_FZT and MENGE_FZG_TYP.
fn read_trips(alloc: Global, tables: &[Table], net: &mut Net) -> Result<(), Refusal>
    requires { All (λ table. length table.rows < 2 ^ 32) tables.now }
    ensures rows { OnOk result (net.new ≡ with_trips net.old tables.now) }
    ensures right { OnOk result (faults_of trip_schemas tables.now ≡ []) }
    ensures wrong { IfErr result (IsRefusal (faults_of trip_schemas tables.now)) }
{
    net.lines = read_rows(alloc, tables, standard::lines(alloc)?)?;
    net.stops = read_rows(alloc, tables, standard::stops(alloc)?)?;
    net.trips = read_rows(alloc, tables, standard::trips(alloc)?)?;
    net.deads = read_rows(alloc, tables, standard::deads(alloc)?)?;
    net.types = read_rows(alloc, tables, standard::types(alloc)?)?;
    Ok(())
}

/// Reads X_PLAN, X_HOF, X_LINIE_FZG, X_ABLOESE, X_WEG and X_FAHRER.
fn read_own(alloc: Global, tables: &[Table], net: &mut Net) -> Result<(), Refusal>
    requires { All (λ table. length table.rows < 2 ^ 32) tables.now }
    ensures rows { OnOk result (net.new ≡ with_own net.old tables.now) }
    ensures right { OnOk result (faults_of own_schemas tables.now ≡ []) }
    ensures wrong { IfErr result (IsRefusal (faults_of own_schemas tables.now)) }
{
    net.plan = read_rows(alloc, tables, own::plan(alloc)?)?;
    net.depots = read_rows(alloc, tables, own::depots(alloc)?)?;
    net.line_types = read_rows(alloc, tables, own::line_types(alloc)?)?;
    net.reliefs = read_rows(alloc, tables, own::reliefs(alloc)?)?;
    net.ways = read_rows(alloc, tables, own::ways(alloc)?)?;
    net.drivers = read_rows(alloc, tables, own::drivers(alloc)?)?;
    Ok(())
}

/// Reads all tables.
fn read_all(alloc: Global, tables: &[Table], net: &mut Net) -> Result<(), Refusal>
    requires { All (λ table. length table.rows < 2 ^ 32) tables.now }
    ensures rows { OnOk result (net.new ≡ with_all net.old tables.now) }
    ensures right { OnOk result (faults_of (schemas_of Needs.All) tables.now ≡ []) }
    ensures wrong { IfErr result (IsRefusal (faults_of (schemas_of Needs.All) tables.now)) }
{
    read_places(alloc, tables, net)?;
    read_times(alloc, tables, net)?;
    read_trips(alloc, tables, net)?;
    read_own(alloc, tables, net)?;
    Ok(())
}

/// Reads the tables that are needed.
fn read_needed(alloc: Global, tables: &[Table], needs: Needs) -> Result<Net, Refusal>
    requires { All (λ table. length table.rows < 2 ^ 32) tables.now }
    ensures rows { IfOk result (λ net. net ≡ net_of needs tables.now) }
    ensures right { OnOk result (faults_of (schemas_of needs) tables.now ≡ []) }
    ensures wrong { IfErr result (IsRefusal (faults_of (schemas_of needs) tables.now)) }
{
    let mut net = empty_net(alloc);
    let read = match needs {
        Needs::Calendar => read_calendar(alloc, tables, &mut net),
        Needs::All => read_all(alloc, tables, &mut net),
    };
    match read {
        Ok(()) => Ok(net),
        Err(refusal) => Err(refusal),
    }
}

/// Reads the tables that are needed, and makes their indexes.
fn read_network(alloc: Global, tables: &[Table], needs: Needs) -> Result<Network, Refusal>
    requires { All (λ table. length table.rows < 2 ^ 32) tables.now }
    ensures rows { IfOk result (λ net. net ≡ net_of needs tables.now) }
    ensures right { OnOk result (faults_of (schemas_of needs) tables.now ≡ []) }
    ensures wrong { IfErr result (IsRefusal (faults_of (schemas_of needs) tables.now)) }
{
    let rows = read_needed(alloc, tables, needs)?;
    Ok(Network::new(alloc, rows)?)
}

/// Reads the tables that are needed, after the profile of VDV 452.
///
/// `Needs::Calendar` looks at BASIS_VER_GUELTIGKEIT, FIRMENKALENDER and REC_FRT. `Needs::All` looks
/// at BASIS_VER_GUELTIGKEIT, FIRMENKALENDER, REC_ORT, REC_SEL, SEL_FZT_FELD, ORT_HZTF, REC_FRT_HZT,
/// REC_LID, LID_VERLAUF, REC_FRT, UEB_FZT, MENGE_FZG_TYP, X_PLAN, X_HOF, X_LINIE_FZG, X_ABLOESE,
/// X_WEG and X_FAHRER, of which ORT_HZTF, REC_FRT_HZT, X_LINIE_FZG, X_ABLOESE and X_WEG may be
/// absent and then have no rows.
///
/// The first fault is found thus: tables in this order; in a table `TableTwice`, `NoTable`,
/// `NoColumn` in the order of its columns, then row by row first `NoValue` and `Range` column by
/// column, then `KeyTwice`. X_PLAN has no key, so no `KeyTwice`. Other tables and columns are passed
/// over.
pub fn read_tables(alloc: Global, tables: &[Table], needs: Needs) -> Result<Network, TableFault>
    requires { All (λ table. length table.rows < 2 ^ 32) tables.now }
    ensures rows { IfOk result (λ net. net ≡ net_of needs tables.now) }
    ensures keys { OnOk result (All (HasOwnKeys tables.now) (schemas_of needs)) }
    ensures faultless { OnOk result (first_fault (schemas_of needs) tables.now ≡ None) }

    // An error is running out of memory or the first fault, and where there is a fault there is an error.
    ensures fault { IfErr result (λ fault. fault.kind ≢ TableKind.Memory → first_fault (schemas_of needs) tables.now ≡ Some fault) }
    ensures refused { (fault : TableFault) → first_fault (schemas_of needs) tables.now ≡ Some fault → IsErrAnd result (λ e. e.kind ≢ TableKind.Memory → e ≡ fault) }
{
    match read_network(alloc, tables, needs) {
        Ok(net) => Ok(net),
        Err(Refusal::Fault(fault)) => Err(fault),
        Err(Refusal::Memory) => Err(TableFault::memory(alloc)),
    }
}
