//! A day's tables and a small network, right and with one fault.

ghost use Rattle.std.specs.Prelude.{◌<◌, ◌^◌, All, IfOk, length};

use crate::texts::joined;
use plan_core::{Bytes, Point, Seq};
use std::alloc::Global;
use std::test::Fail;
use vdv451_text::{Table, read_file};
use vdv452_tables::{Needs, Network, TableFault, TableKind, read_tables};

/// A version and a day, whose columns stand in an order of their own; a second TAGESART_NR does not count.
const DAYS: &[u8] =
    b"tbl; BASIS_VER_GUELTIGKEIT\natr; VER_GUELTIGKEIT; BASIS_VERSION\nfrm; num[10.0]; num[10.0]\nrec; 20260101; 1\nend; 1\ntbl; FIRMENKALENDER\natr; TAGESART_NR; BETRIEBSTAG; TAGESART_NR; BASIS_VERSION\nfrm; num[10.0]; num[10.0]; num[10.0]; num[10.0]\nrec; 1; 20260302; 7; 1\nend; 1\n";

/// Trip 1, without the end of its table.
const TRIPS: &[u8] =
    b"tbl; REC_FRT\natr; BASIS_VERSION; FRT_FID; FRT_START; LI_NR; TAGESART_NR; FAHRTART_NR; FGR_NR; STR_LI_VAR; UM_UID\nfrm; num[9.0]; num[9.0]; num[9.0]; num[9.0]; num[9.0]; num[9.0]; num[9.0]; num[9.0]; num[9.0]\nrec; 1; 1; 28800; 1; 1; 1; 1; \"H\";\n";

const SECOND: &[u8] = b"rec; 1; 2; 33000; 1; 1; 1; 1; -7;\n";

const END: &[u8] = b"end; 2\neof; 3\n";

const TWICE: &[u8] = b"end; 2\ntbl; REC_FRT\natr; BASIS_VERSION\nfrm; num[9.0]\nend; 0\neof; 4\n";

/// Points, and times between them. The second point follows.
const TIMES: &[u8] =
    b"end; 2\ntbl; REC_SEL\natr; BASIS_VERSION; BEREICH_NR; ONR_TYP_NR; ORT_NR; SEL_ZIEL; SEL_ZIEL_TYP; SEL_LAENGE\nfrm; num[9.0]; num[9.0]; num[9.0]; num[9.0]; num[9.0]; num[9.0]; num[9.0]\nrec; 1; 5; 1; 10; 20; 2; 400\nrec; 1; 5; 2; 20; 10; 1;\nend; 2\ntbl; SEL_FZT_FELD\natr; BASIS_VERSION; BEREICH_NR; FGR_NR; ONR_TYP_NR; ORT_NR; SEL_ZIEL; SEL_ZIEL_TYP; SEL_FZT\nfrm; num[9.0]; num[9.0]; num[9.0]; num[9.0]; num[9.0]; num[9.0]; num[9.0]; num[9.0]\nrec; 1; 5; 3; 1; 10; 20; 2; 90\nend; 1\ntbl; ORT_HZTF\natr; BASIS_VERSION; FGR_NR; ONR_TYP_NR; ORT_NR; HP_HZT\nfrm; num[9.0]; num[9.0]; num[9.0]; num[9.0]; num[9.0]\nrec; 1; 3; 2; 20; 15\nend; 1\ntbl; REC_FRT_HZT\natr; BASIS_VERSION; FRT_FID; ONR_TYP_NR; ORT_NR; FRT_HZT_ZEIT\nfrm; num[9.0]; num[9.0]; num[9.0]; num[9.0]; num[9.0]\nrec; 1; 2; 2; 20; 40\nend; 1\ntbl; UEB_FZT\natr; BASIS_VERSION; BEREICH_NR; FGR_NR; ONR_TYP_NR; ORT_NR; UEB_ZIEL_TYP; UEB_ZIEL; UEB_FAHRZEIT\nfrm; num[9.0]; num[9.0]; num[9.0]; num[9.0]; num[9.0]; num[9.0]; num[9.0]; num[9.0]\nrec; 1; 5; 3; 1; 10; 2; 20; 300\nrec; 1; 5; 3; 2; 20; 1; 10; 310\nend; 2\ntbl; MENGE_FZG_TYP\natr; BASIS_VERSION; FZG_TYP_NR\nfrm; num[9.0]; num[9.0]\nrec; 1; 2\nend; 1\n";

const POINTS: &[u8] =
    b"tbl; REC_ORT\natr; BASIS_VERSION; ONR_TYP_NR; ORT_NR\nfrm; num[9.0]; num[9.0]; num[9.0]\nrec; 1; 1; 10\n";

/// Two variants of a line, whose stop sequences stand in another order.
const LINES: &[u8] =
    b"tbl; REC_LID\natr; BASIS_VERSION; LI_NR; STR_LI_VAR; BEREICH_NR\nfrm; num[9.0]; num[9.0]; char[6]; num[9.0]\nrec; 1; 7; \"H\"; 5\nrec; 1; 7; \"R\"; 6\nend; 2\ntbl; LID_VERLAUF\natr; BASIS_VERSION; LI_LFD_NR; LI_NR; STR_LI_VAR; ONR_TYP_NR; ORT_NR\nfrm; num[9.0]; num[9.0]; num[9.0]; char[6]; num[9.0]; num[9.0]\nrec; 1; 2; 7; \"H\"; 2; 20\nrec; 1; 1; 7; \"R\"; 1; 10\nrec; 1; 1; 7; \"H\"; 1; 10\nend; 3\n";

/// The tables of this project: X_ABLOESE is absent, and X_PLAN has two rows that are the same.
const SETTINGS: &[u8] =
    b"tbl; X_PLAN\natr; UEB_BEREICH_NR; UEB_FGR_NR; WENDE_SEK; MAX_WARTE_SEK; UEBERGABE_SEK\nfrm; num[9.0]; num[9.0]; num[9.0]; num[9.0]; num[9.0]\nrec; 5; 3; 60; 3600; 300\nrec; 5; 3; 60; 3600; 300\nend; 2\ntbl; X_HOF\natr; HOF_NR; ONR_TYP_NR; ORT_NR; FZG_TYP_NR; ANZAHL; FIX_KOSTEN; LEER_SATZ; STAND_SATZ\nfrm; num[9.0]; num[9.0]; num[9.0]; num[9.0]; num[9.0]; num[9.0]; num[9.0]; num[9.0]\nrec; 1; 2; 20; 2; 4; 100; 1; 3\nend; 1\ntbl; X_LINIE_FZG\natr; LI_NR; FZG_TYP_NR\nfrm; num[9.0]; num[9.0]\nrec; 7; 2\nend; 1\ntbl; X_WEG\natr; ONR_TYP_NR; ORT_NR; ZIEL_TYP; ZIEL_NR; WEG_SEK\nfrm; num[9.0]; num[9.0]; num[9.0]; num[9.0]; num[9.0]\nrec; 1; 10; 2; 20; 120\nend; 1\n";

/// The columns of X_FAHRER that must be there.
const GROUPS: &[u8] =
    b"tbl; X_FAHRER\natr; GRUPPE_NR; ONR_TYP_NR; ORT_NR; ANZAHL; FIX_KOSTEN; SATZ; ANMELDE_SEK; ABMELDE_SEK";

/// A group without columns of allowances.
const PLAIN: &[u8] =
    b"\nfrm; num[9.0]; num[9.0]; num[9.0]; num[9.0]; num[9.0]; num[9.0]; num[9.0]; num[9.0]\nrec; 1; 1; 10; 9; 50; 3; 300; 200\nend; 1\n";

/// The columns of allowances, the second one first, and a group whose fields of them follow.
const ALLOWED: &[u8] =
    b"; KURZE_RUHE; ZEHN_STD\nfrm; num[9.0]; num[9.0]; num[9.0]; num[9.0]; num[9.0]; num[9.0]; num[9.0]; num[9.0]; num[1.0]; num[1.0]\nrec; 1; 1; 10; 9; 50; 3; 300; 200; ";

const HERE: Point = Point { typ: 1, nr: 10 };

const THERE: Point = Point { typ: 2, nr: 20 };

/// The kind of a fault, whether it is in FRT_START, and its row; None where there is none.
type DayFault = Option<(TableKind, bool, u32)>;

fn has_day(net: &Network) -> bool {
    net.version_at(20_260_302) == Some(1)
        && net.version_at(20_251_231).is_none()
        && net.kind_at(1, 20_260_302) == Some(1)
        && net.kind_at(1, 20_260_301).is_none()
}

fn has_trips(net: &Network) -> bool {
    match net.trip_rows() {
        [_, second] => {
            second.fid == 2 && second.row == 1 && second.variant.as_slice() == b"-7".as_slice()
        }
        _ => false,
    }
}

fn kind_and_row(fault: &TableFault) -> (TableKind, bool, u32) {
    let in_start = fault.column.as_slice() == b"FRT_START".as_slice();
    (fault.kind, in_start, fault.row)
}

/// Whether the tables of a day, whose second trip and end are these, are read, or have this first fault.
fn is_answered(alloc: Global, rest: [&[u8]; 2], fault: DayFault) -> Result<bool, Fail> {
    let text = joined(alloc, &[DAYS, TRIPS, rest[0], rest[1]])?;
    let tables = read_file(alloc, &text, 10_000)?;
    match read_tables(alloc, tables.as_slice(), Needs::Calendar) {
        Ok(net) => Ok(fault.is_none() && has_day(&net) && has_trips(&net)),
        Err(refused) => Ok(fault == Some(kind_and_row(&refused))),
    }
}

/// How the table of trips goes on, and the first fault.
const DAY_CASES: [([&[u8]; 2], DayFault); 9] = [
    ([SECOND, END], None),
    ([b"rec; 1; 2; \"+033000\"; 1; 1; 1; 1; -7;\n", END], None),
    ([b"rec; 1; 2; 172800; 1; 1; 1; 1; -7;\n", END], None),
    ([SECOND, TWICE], Some((TableKind::TableTwice, false, 0))),
    (
        [b"rec; 1; 2; ; 1; 1; 1; 1; -7;\n", END],
        Some((TableKind::NoValue, true, 2)),
    ),
    (
        [b"rec; 1; 2; \"\"; 1; 1; 1; 1; -7;\n", END],
        Some((TableKind::Range, true, 2)),
    ),
    (
        [b"rec; 1; 2; 172801; 1; 1; 1; 1; -7;\n", END],
        Some((TableKind::Range, true, 2)),
    ),
    (
        [b"rec; 1; 1; 172801; 1; 1; 1; 1; -7;\n", END],
        Some((TableKind::Range, true, 2)),
    ),
    (
        [b"rec; 1; 1; 33000; 1; 1; 1; 1; -7;\n", END],
        Some((TableKind::KeyTwice, false, 2)),
    ),
];

#[test]
fn reads_a_day_or_names_its_first_fault(rt: HostRuntime) -> Result<(), Fail> {
    for (rest, fault) in DAY_CASES {
        assert!(rt; is_answered(rt.alloc(), rest, fault)?);
    }
    Ok(())
}

/// The tables of a network whose X_FAHRER goes on so and whose REC_ORT has this second row.
fn network_tables(alloc: Global, groups: [&[u8]; 2], point: &[u8]) -> Result<Seq<Table>, Fail>
    ensures { IfOk result (λ tables. All (λ table. length table.rows < 2 ^ 32) tables) }
{
    let parts = [
        DAYS,
        TRIPS,
        SECOND,
        b"end; 2\n",
        LINES,
        SETTINGS,
        GROUPS,
        groups[0],
        groups[1],
        POINTS,
        point,
        TIMES,
        b"eof; 17\n",
    ];
    let text = joined(alloc, &parts)?;
    Ok(read_file(alloc, &text, 10_000)?)
}

fn has_times(net: &Network) -> bool {
    net.run_time(1, 5, 3, HERE, THERE) == Some(90)
        && net.run_time(1, 5, 3, HERE, HERE).is_none()
        && net.trip_dwell(1, 2, THERE) == Some(40)
        && net.group_dwell(1, 3, THERE) == Some(15)
        && net.dead_time(1, 5, 3, THERE, HERE) == Some(310)
}

fn has_places(net: &Network) -> bool {
    net.length(1, 5, HERE, THERE) == Some(400)
        && net.length(1, 5, THERE, HERE).is_none()
        && net.dead_rows().len() == 2
        && net.has_point(1, HERE)
        && !net.has_point(1, THERE)
        && net.has_type(1, 2)
        && !net.has_type(2, 2)
}

fn has_lines(net: &Network, variant: &Bytes) -> bool {
    net.area(1, 7, variant) == Some(5)
        && net.area(1, 8, variant).is_none()
        && net.course(1, 7, variant) == [HERE, THERE].as_slice()
        && net.course(2, 7, variant).is_empty()
}

fn has_settings(net: &Network) -> bool {
    let [way] = net.extra("X_WEG") else {
        return false;
    };
    way.as_slice() == [1, 10, 2, 20, 120].as_slice()
        && net.extra("X_PLAN").len() == 2
        && net.extra("X_ABLOESE").is_empty()
        && net.extra("REC_ORT").is_empty()
}

/// Whether the look-ups of a network with this group and this second point give what its rows say.
fn tells_rows(alloc: Global, groups: [&[u8]; 2], point: &[u8]) -> Result<bool, Fail> {
    let tables = network_tables(alloc, groups, point)?;
    let net = read_tables(alloc, tables.as_slice(), Needs::All)?;
    let variant = Bytes::from_vec(b"H".to_vec(alloc)?);
    Ok(has_times(&net) && has_places(&net) && has_lines(&net, &variant) && has_settings(&net))
}

#[test]
fn looks_up_what_the_rows_say(rt: HostRuntime) -> Result<(), Fail> {
    assert!(rt; tells_rows(rt.alloc(), [PLAIN, b""], b"rec; 1; 1; 20\n")?);
    Ok(())
}

fn is_second_point(refused: &TableFault) -> bool {
    refused.kind == TableKind::KeyTwice
        && refused.row == 2
        && refused.table.as_slice() == b"REC_ORT".as_slice()
}

fn names_second_point(alloc: Global, groups: [&[u8]; 2], point: &[u8]) -> Result<bool, Fail> {
    let tables = network_tables(alloc, groups, point)?;
    match read_tables(alloc, tables.as_slice(), Needs::All) {
        Ok(_) => Ok(false),
        Err(refused) => Ok(is_second_point(&refused)),
    }
}

#[test]
fn a_point_may_not_stand_twice(rt: HostRuntime) -> Result<(), Fail> {
    assert!(rt; names_second_point(rt.alloc(), [PLAIN, b""], b"rec; 1; 1; 10\n")?);
    Ok(())
}

fn has_group(net: &Network, flags: (u32, u32)) -> bool {
    let [group] = net.extra("X_FAHRER") else {
        return false;
    };
    let (ten, reduced) = flags;
    group.as_slice() == [1, 1, 10, 9, 50, 3, 300, 200, ten, reduced].as_slice()
}

fn is_no_flag(refused: &TableFault) -> bool {
    refused.kind == TableKind::Range
        && refused.row == 1
        && refused.table.as_slice() == b"X_FAHRER".as_slice()
        && refused.column.as_slice() == b"ZEHN_STD".as_slice()
}

/// Whether a network with this group has these allowances, or is refused for what is no flag where there are none.
fn has_allowances(
    alloc: Global,
    groups: [&[u8]; 2],
    flags: Option<(u32, u32)>,
) -> Result<bool, Fail> {
    let tables = network_tables(alloc, groups, b"rec; 1; 1; 20\n")?;
    match (read_tables(alloc, tables.as_slice(), Needs::All), flags) {
        (Ok(net), Some(flags)) => Ok(has_group(&net, flags)),
        (Err(refused), None) => Ok(is_no_flag(&refused)),
        _ => Ok(false),
    }
}

/// How the table of groups goes on, and its allowances; none where the second one is no flag.
const ALLOWANCES: [([&[u8]; 2], Option<(u32, u32)>); 4] = [
    ([PLAIN, b""], Some((0, 0))),
    ([ALLOWED, b"; 1\nend; 1\n"], Some((1, 0))),
    ([ALLOWED, b"1; 0\nend; 1\n"], Some((0, 1))),
    ([ALLOWED, b"1; 2\nend; 1\n"], None),
];

#[test]
fn allowances_may_be_missing_or_empty(rt: HostRuntime) -> Result<(), Fail> {
    for (groups, flags) in ALLOWANCES {
        assert!(rt; has_allowances(rt.alloc(), groups, flags)?);
    }
    Ok(())
}
