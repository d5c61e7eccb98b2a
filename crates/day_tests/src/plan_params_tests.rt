//! The settings of a small plan, right and with one fault.

use plan_core::Point;
use plan_params::{Group, ParamKind, Params, Pool, Settings, read_params};
use small_networks::{TableRows, network};
use std::alloc::Global;
use std::test::Fail;
use vdv452_tables::{Needs, Network};

/// The rows of the tables of this project; X_FAHRER lacks ZEHN_STD.
#[derive(Clone, Copy)]
struct Rows {
    plan: &'static [&'static str],
    depots: &'static [&'static str],
    line_types: &'static [&'static str],
    reliefs: &'static [&'static str],
    ways: &'static [&'static str],
    drivers: &'static [&'static str],
}

/// Rows without a fault.
const WORKED: Rows = Rows {
    plan: &["1; 1; 300; 7200; 300"],
    depots: &["1; 2; 9; 1; 2; 1000; 1; 0"],
    line_types: &[],
    reliefs: &["1; 2"],
    ways: &["1; 2; 2; 9; 1200", "2; 9; 1; 2; 1200"],
    drivers: &["1; 2; 9; 2; 500; 1; 600; 300; 1"],
};

/// A depot more than there may be, the last first.
const DEPOTS: [&str; 33] = [
    "33; 2; 9; 1; 2; 1000; 1; 0",
    "32; 2; 9; 1; 2; 1000; 1; 0",
    "31; 2; 9; 1; 2; 1000; 1; 0",
    "30; 2; 9; 1; 2; 1000; 1; 0",
    "29; 2; 9; 1; 2; 1000; 1; 0",
    "28; 2; 9; 1; 2; 1000; 1; 0",
    "27; 2; 9; 1; 2; 1000; 1; 0",
    "26; 2; 9; 1; 2; 1000; 1; 0",
    "25; 2; 9; 1; 2; 1000; 1; 0",
    "24; 2; 9; 1; 2; 1000; 1; 0",
    "23; 2; 9; 1; 2; 1000; 1; 0",
    "22; 2; 9; 1; 2; 1000; 1; 0",
    "21; 2; 9; 1; 2; 1000; 1; 0",
    "20; 2; 9; 1; 2; 1000; 1; 0",
    "19; 2; 9; 1; 2; 1000; 1; 0",
    "18; 2; 9; 1; 2; 1000; 1; 0",
    "17; 2; 9; 1; 2; 1000; 1; 0",
    "16; 2; 9; 1; 2; 1000; 1; 0",
    "15; 2; 9; 1; 2; 1000; 1; 0",
    "14; 2; 9; 1; 2; 1000; 1; 0",
    "13; 2; 9; 1; 2; 1000; 1; 0",
    "12; 2; 9; 1; 2; 1000; 1; 0",
    "11; 2; 9; 1; 2; 1000; 1; 0",
    "10; 2; 9; 1; 2; 1000; 1; 0",
    "9; 2; 9; 1; 2; 1000; 1; 0",
    "8; 2; 9; 1; 2; 1000; 1; 0",
    "7; 2; 9; 1; 2; 1000; 1; 0",
    "6; 2; 9; 1; 2; 1000; 1; 0",
    "5; 2; 9; 1; 2; 1000; 1; 0",
    "4; 2; 9; 1; 2; 1000; 1; 0",
    "3; 2; 9; 1; 2; 1000; 1; 0",
    "2; 2; 9; 1; 2; 1000; 1; 0",
    "1; 2; 9; 1; 2; 1000; 1; 0",
];

/// The network of these rows, with the points (1, 1), (1, 2) and (2, 9) and the type 1 in version 1.
fn network_of(alloc: Global, rows: Rows) -> Result<Network, Fail> {
    let given: [TableRows; 8] = [
        ("REC_ORT", &["1; 1; 1", "1; 1; 2", "1; 2; 9"]),
        ("MENGE_FZG_TYP", &["1; 1"]),
        ("X_PLAN", rows.plan),
        ("X_HOF", rows.depots),
        ("X_FAHRER", rows.drivers),
        ("X_LINIE_FZG", rows.line_types),
        ("X_ABLOESE", rows.reliefs),
        ("X_WEG", rows.ways),
    ];
    network(alloc, &given, Needs::All)
}

/// What is read of these rows.
fn read(alloc: Global, rows: Rows) -> Result<Params, Fail> {
    let net = network_of(alloc, rows)?;
    Ok(read_params(alloc, &net, 1)?)
}

/// Whether these rows are refused so.
fn is_refused(
    alloc: Global,
    rows: Rows,
    kind: ParamKind,
    table: &str,
    row: u32,
) -> Result<bool, Fail> {
    let net = network_of(alloc, rows)?;
    match read_params(alloc, &net, 1) {
        Ok(_) => Ok(false),
        Err(fault) => Ok(
            fault.kind == kind && fault.table.as_slice() == table.as_bytes() && fault.row == row,
        ),
    }
}

const HERE: Point = Point { typ: 1, nr: 2 };

const DEPOT: Point = Point { typ: 2, nr: 9 };

const SETTINGS: Settings = Settings {
    area: 1,
    group: 1,
    turn: 300,
    max_wait: 7_200,
    handover: 300,
};

const POOL: Pool = Pool {
    number: 1,
    depot: DEPOT,
    typ: 1,
    cap: 2,
    fixed: 1_000,
    dead_rate: 1,
    stand_rate: 0,
};

const GROUP: Group = Group {
    number: 1,
    home: DEPOT,
    cap: 2,
    fixed: 500,
    rate: 1,
    sign_on: 600,
    sign_off: 300,
    ten: false,
    reduced: true,
};

/// Whether the settings are those of the worked rows.
fn has_worked(params: &Params) -> bool {
    params.settings() == SETTINGS
        && params.pools() == [POOL].as_slice()
        && params.groups() == [GROUP].as_slice()
        && params.admits(5, 1)
        && params.admits(5, 7)
}

/// Whether the look-ups of points give what the worked rows say.
fn has_worked_ways(params: &Params) -> bool {
    params.relief(HERE)
        && !params.relief(DEPOT)
        && params.way(HERE, DEPOT) == Some(1_200)
        && params.way(HERE, HERE) == Some(0)
        && params.way(HERE, Point { typ: 1, nr: 1 }).is_none()
}

fn tells_worked(alloc: Global, rows: Rows) -> Result<bool, Fail> {
    let params = read(alloc, rows)?;
    Ok(has_worked(&params) && has_worked_ways(&params))
}

#[test]
fn reads_what_the_tables_say(rt: HostRuntime) -> Result<(), Fail> {
    assert!(rt; tells_worked(rt.alloc(), WORKED)?);
    Ok(())
}

/// Whether these are 32 depots with the numbers from 1 on.
fn are_numbered(pools: &[Pool]) -> bool {
    let mut number = 0u32;
    for pool in pools {
        number = number.saturating_add(1);
        if pool.number != number {
            return false;
        }
    }
    number == 32
}

/// Whether the depots come by their numbers, and line 5 has vehicles of type 1 alone.
fn is_in_order(alloc: Global, rows: Rows) -> Result<bool, Fail> {
    let params = read(alloc, rows)?;
    let admits = params.admits(5, 1) && !params.admits(5, 2) && params.admits(6, 2);
    Ok(admits && are_numbered(params.pools()))
}

#[test]
fn depots_come_by_their_numbers(rt: HostRuntime) -> Result<(), Fail> {
    let rows = Rows {
        depots: &DEPOTS[1..],
        line_types: &["5; 1"],
        ..WORKED
    };
    assert!(rt; is_in_order(rt.alloc(), rows)?);
    Ok(())
}

#[test]
fn a_table_may_have_too_few_or_too_many_rows(rt: HostRuntime) -> Result<(), Fail> {
    let alloc = rt.alloc();

    let rows = Rows {
        plan: &[],
        ..WORKED
    };
    assert!(rt; is_refused(alloc, rows, ParamKind::NotOne, "X_PLAN", 0)?);

    let plan = &["1; 1; 300; 7200; 300", "1; 1; 300; 7200; 300"];
    let rows = Rows { plan, ..WORKED };
    assert!(rt; is_refused(alloc, rows, ParamKind::NotOne, "X_PLAN", 0)?);

    let rows = Rows {
        depots: &DEPOTS,
        ..WORKED
    };
    assert!(rt; is_refused(alloc, rows, ParamKind::TooMany, "X_HOF", 0)?);
    Ok(())
}

#[test]
fn a_row_may_name_a_type_that_is_not_there(rt: HostRuntime) -> Result<(), Fail> {
    let alloc = rt.alloc();

    let depots = &["1; 2; 9; 7; 2; 1000; 1; 0"];
    let rows = Rows { depots, ..WORKED };
    assert!(rt; is_refused(alloc, rows, ParamKind::UnknownType, "X_HOF", 1)?);

    let line_types = &["5; 1", "5; 7"];
    let rows = Rows {
        line_types,
        ..WORKED
    };
    assert!(rt; is_refused(alloc, rows, ParamKind::UnknownType, "X_LINIE_FZG", 2)?);
    Ok(())
}

#[test]
fn a_row_may_name_a_point_that_is_not_there(rt: HostRuntime) -> Result<(), Fail> {
    let alloc = rt.alloc();

    let depots = &["1; 2; 8; 7; 2; 1000; 1; 0"];
    let rows = Rows { depots, ..WORKED };
    assert!(rt; is_refused(alloc, rows, ParamKind::UnknownPoint, "X_HOF", 1)?);

    let reliefs = &["1; 2", "1; 8"];
    let rows = Rows { reliefs, ..WORKED };
    assert!(rt; is_refused(alloc, rows, ParamKind::UnknownPoint, "X_ABLOESE", 2)?);

    let drivers = &["1; 2; 8; 2; 500; 1; 600; 300; 0"];
    let rows = Rows { drivers, ..WORKED };
    assert!(rt; is_refused(alloc, rows, ParamKind::UnknownPoint, "X_FAHRER", 1)?);

    let ways = &["1; 2; 2; 8; 1200"];
    let rows = Rows { ways, ..rows };
    assert!(rt; is_refused(alloc, rows, ParamKind::UnknownPoint, "X_WEG", 1)?);
    Ok(())
}
