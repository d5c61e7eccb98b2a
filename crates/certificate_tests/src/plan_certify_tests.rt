//! Certificates of small days: the example day byte for byte, and made days by both methods.

ghost use Rattle.std.specs.Prelude.{◌<◌, ◌^◌, ◌↔◌, All, IsTrue, length};
ghost use Rattle.price_rounds.specs.Efforts.{IsEffort};

use day_maker::make_tables;
use day_model::Day;
use plan_cert::read_cert;
use plan_certify::{certificate_text, day_is_certified_once};
use plan_command::{Method, plan_day};
use plan_core::{Bytes, NoGate};
use price_rounds::Effort;
use small_networks::{DEMO, day_in, day_over};
use std::alloc::Global;
use std::test::Fail;
use std::thread::Threads;
use vdv451_text::{Table, read_file};
use vdv452_tables::{Needs, read_tables};

/// The text of the certificate of the demo network's day, worked out by hand. Prices of 500 each, for which the first trip or piece has a
/// value of 500 and both have one of 0, show that a block and a duty are needed; blocks cost 2,200 and duties 10,400, and half of that is the
/// price of each trip and piece. The second trip alone is no mark, since with the first one before it a block costs less and has driven less
/// since the cut. The second piece alone is one, since its driver signs on later.
const CERT: &[u8] = b"mod; DD.MM.YYYY; HH:MM:SS; free\r
src; \"planner\"; \"01.01.2000\"; \"00:00:00\"\r
chs; \"ISO8859-1\"\r
ver; \"1.4\"\r
ifv; \"1.4\"\r
dve; \"1.4\"\r
fft; \"\"\r
tbl; X_PREIS\r
atr; ART; LFD_NR; PREIS\r
frm; num[19.0]; num[19.0]; num[19.0]\r
rec; 1; 1; 500\r
rec; 1; 2; 500\r
rec; 2; 1; 1100000\r
rec; 2; 2; 1100000\r
rec; 3; 1; 500\r
rec; 3; 2; 500\r
rec; 4; 1; 5200000\r
rec; 4; 2; 5200000\r
end; 8\r
tbl; X_KLASSENPREIS\r
atr; ART; KLASSE; PREIS\r
frm; num[19.0]; num[19.0]; num[19.0]\r
rec; 1; 1; 0\r
rec; 2; 1; 0\r
rec; 3; 1; 0\r
rec; 4; 1; 0\r
end; 4\r
tbl; X_MARKE\r
atr; ART; GRUPPE_NR; STUECK; BEGINN; LENK; VIERTEL; GESAMT; DREI; WERT\r
frm; num[19.0]; num[19.0]; num[19.0]; num[19.0]; num[19.0]; num[19.0]; num[19.0]; num[19.0]; num[19.0]\r
rec; 3; 1; 1; 27600; 4200; 0; 4200; 0; 500\r
rec; 3; 1; 2; 27600; 8400; 0; 8400; 0; 0\r
rec; 3; 1; 2; 31200; 4200; 0; 4200; 0; 500\r
rec; 4; 1; 1; 27600; 4200; 0; 4200; 0; -32300000\r
rec; 4; 1; 2; 27600; 8400; 0; 8400; 0; -37500000\r
rec; 4; 1; 2; 31200; 4200; 0; 4200; 0; -35900000\r
end; 6\r
tbl; X_UMARKE\r
atr; ART; HOF_NR; LFD_NR; LENK; WERT\r
frm; num[19.0]; num[19.0]; num[19.0]; num[19.0]; num[19.0]\r
rec; 1; 1; 1; 4200; 500\r
rec; 1; 1; 2; 3600; 0\r
rec; 2; 1; 1; 4200; 500000\r
rec; 2; 1; 2; 3600; -600000\r
end; 4\r
eof; 4\r
";

/// Whether no table has 2^32 rows.
fn are_few(tables: &[Table]) -> bool
    ensures { IsTrue result ↔ All (λ table. length table.rows < 2 ^ 32) tables.now }
{
    tables.iter().all(|table| table.rows.len() < 4_294_967_296)
}

/// The day of few planning tables.
fn day_of_tables(alloc: Global, tables: &[Table]) -> Result<Day, Fail>
    requires { All (λ table. length table.rows < 2 ^ 32) tables.now }
{
    let net = read_tables(alloc, tables, Needs::All)?;
    day_over(alloc, &net, 1)
}

/// The day of planning tables.
fn day_of(alloc: Global, tables: &[Table]) -> Result<Day, Fail> {
    if are_few(tables) {
        day_of_tables(alloc, tables)
    } else {
        Err(Fail::from("large"))
    }
}

/// The day of the demo network. The texts stand in functions of their own, so that no other proof carries them along.
fn example_day(alloc: Global) -> Result<Day, Fail> {
    day_in(alloc, DEMO.as_bytes(), 1)
}

fn is_cert(text: &[u8]) -> bool {
    text == CERT
}

/// The text of the certificate of a day.
fn text_of<R: Threads + Sync>(
    rt: &R,
    alloc: Global,
    day: &Day,
    method: &Method,
) -> Result<Bytes, Fail>
    requires { IsEffort method.now.effort }
{
    match certificate_text(rt, alloc, day, method, &NoGate) {
        Ok(text) => Ok(text),
        Err(_) => Err(Fail::from("no certificate")),
    }
}

/// The default numbers.
fn defaults() -> Method
    ensures { IsEffort result.effort }
{
    Method {
        effort: Effort {
            workers: 1,
            rounds: 40,
            lower: 20,
            exchange: 20,
            climb: false,
        },
        flow: false,
    }
}

/// Whether the certificate of the example day is the one that was worked out.
fn is_certified<R: Threads + Sync>(rt: &R, alloc: Global) -> Result<bool, Fail> {
    let day = example_day(alloc)?;
    let text = text_of(rt, alloc, &day, &defaults())?;
    Ok(is_cert(text.as_slice()))
}

/// That a day has one certificate, away from what is tried.
fn law() {
    day_is_certified_once();
}

#[test]
fn the_example_day_is_certified(rt: HostRuntime) -> Result<(), Fail> {
    law();
    assert!(rt; is_certified(&rt, rt.alloc())?);
    Ok(())
}

/// A made day, which is planned with two workers and few rounds.
#[derive(Clone, Copy)]
struct Case {
    seed: u32,
    trips: u32,
    climb: bool,
}

fn case_at(place: usize) -> Case {
    let (seed, trips, climb) = match place {
        0 => (7, 8, false),
        1 => (7, 8, true),
        2 => (11, 14, false),
        _ => (11, 14, true),
    };
    Case { seed, trips, climb }
}

/// The made day of a case.
fn made_day(alloc: Global, case: &Case) -> Result<Day, Fail> {
    let tables = make_tables(alloc, case.seed, case.trips.min(3_000))?;
    day_of(alloc, tables.as_slice())
}

fn method_of(case: &Case) -> Method
    ensures { IsEffort result.effort }
{
    Method {
        effort: Effort {
            workers: 2,
            rounds: 8,
            lower: 4,
            exchange: 10,
            climb: case.climb,
        },
        flow: false,
    }
}

/// How many pieces the plan of a day has.
fn pieces_of<R: Threads + Sync>(
    rt: &R,
    alloc: Global,
    day: &Day,
    method: &Method,
) -> Result<u32, Fail>
    requires { IsEffort method.now.effort }
{
    match plan_day(rt, alloc, day, method, &NoGate) {
        Ok(plan) => Ok(plan.pieces.len() as u32),
        Err(_) => Err(Fail::from("no plan")),
    }
}

/// How many parts are read from the text of a certificate of a day with so many pieces.
fn parts_in(alloc: Global, text: &[u8], day: &Day, pieces: u32) -> Result<usize, Fail> {
    let tables = read_file(alloc, text, 10_000_000)?;
    match read_cert(alloc, tables.as_slice(), day, pieces) {
        Ok(cert) => Ok(cert.parts.len()),
        Err(_) => Err(Fail::from("not read")),
    }
}

/// Whether four parts are read from the text of the certificate of a day.
fn has_four_parts<R: Threads + Sync>(
    rt: &R,
    alloc: Global,
    day: &Day,
    method: &Method,
) -> Result<bool, Fail>
    requires { IsEffort method.now.effort }
{
    let pieces = pieces_of(rt, alloc, day, method)?;
    let text = text_of(rt, alloc, day, method)?;
    Ok(parts_in(alloc, text.as_slice(), day, pieces)? == 4)
}

/// Whether a case has a certificate with the four parts.
fn is_read<R: Threads + Sync>(rt: &R, alloc: Global, case: &Case) -> Result<bool, Fail> {
    let day = made_day(alloc, case)?;
    has_four_parts(rt, alloc, &day, &method_of(case))
}

/// The first case that has none, where there is one.
fn first_unread<R: Threads + Sync>(rt: &R, alloc: Global) -> Result<Option<usize>, Fail> {
    for place in 0..4 {
        let case = case_at(place);
        if !is_read(rt, alloc, &case)? {
            return Ok(Some(place));
        }
    }
    Ok(None)
}

#[test]
fn made_days_are_certified_by_both_methods(rt: HostRuntime) -> Result<(), Fail> {
    assert_eq!(rt; first_unread(&rt, rt.alloc())?, None);
    Ok(())
}
