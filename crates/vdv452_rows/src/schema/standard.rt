//! The tables after VDV 452.

ghost use Rattle.std.specs.Prelude.{◌≡◌, IfOk};
ghost use Rattle.vdv452_rows.specs.Schema as schema;

use super::{
    Domain, Schema, key, needed_table, number, optional_table, plain, seconds, some_metres,
    trip_key, unseen_column, word_key,
};
use plan_core::Memory;
use std::alloc::Global;

/// BASIS_VER_GUELTIGKEIT: from which day on which version is in force.
pub fn versions(alloc: Global) -> Result<Schema, Memory>
    ensures { IfOk result (λ found. found ≡ schema.versions) }
{
    let outlines = [key(b"VER_GUELTIGKEIT"), number(b"BASIS_VERSION")];
    needed_table(alloc, b"BASIS_VER_GUELTIGKEIT", &outlines)
}

/// FIRMENKALENDER: the day type of each day.
pub fn days(alloc: Global) -> Result<Schema, Memory>
    ensures { IfOk result (λ found. found ≡ schema.days) }
{
    let outlines = [
        key(b"BASIS_VERSION"),
        key(b"BETRIEBSTAG"),
        number(b"TAGESART_NR"),
    ];
    needed_table(alloc, b"FIRMENKALENDER", &outlines)
}

/// REC_ORT: the points of the network.
pub fn points(alloc: Global) -> Result<Schema, Memory>
    ensures { IfOk result (λ found. found ≡ schema.points) }
{
    let outlines = [key(b"BASIS_VERSION"), key(b"ONR_TYP_NR"), key(b"ORT_NR")];
    needed_table(alloc, b"REC_ORT", &outlines)
}

/// REC_SEL: the sections between neighbouring points, with their lengths.
pub fn sections(alloc: Global) -> Result<Schema, Memory>
    ensures { IfOk result (λ found. found ≡ schema.sections) }
{
    let outlines = [
        key(b"BASIS_VERSION"),
        key(b"BEREICH_NR"),
        key(b"ONR_TYP_NR"),
        key(b"ORT_NR"),
        key(b"SEL_ZIEL"),
        key(b"SEL_ZIEL_TYP"),
        some_metres(b"SEL_LAENGE"),
    ];
    needed_table(alloc, b"REC_SEL", &outlines)
}

/// SEL_FZT_FELD: the run times of the sections by groups.
pub fn runs(alloc: Global) -> Result<Schema, Memory>
    ensures { IfOk result (λ found. found ≡ schema.runs) }
{
    let outlines = [
        key(b"BASIS_VERSION"),
        key(b"BEREICH_NR"),
        key(b"FGR_NR"),
        key(b"ONR_TYP_NR"),
        key(b"ORT_NR"),
        key(b"SEL_ZIEL"),
        key(b"SEL_ZIEL_TYP"),
        seconds(b"SEL_FZT"),
    ];
    needed_table(alloc, b"SEL_FZT_FELD", &outlines)
}

/// ORT_HZTF: how long the trips of a group stand at a point.
pub fn group_dwells(alloc: Global) -> Result<Schema, Memory>
    ensures { IfOk result (λ found. found ≡ schema.group_dwells) }
{
    let outlines = [
        key(b"BASIS_VERSION"),
        key(b"FGR_NR"),
        key(b"ONR_TYP_NR"),
        key(b"ORT_NR"),
        seconds(b"HP_HZT"),
    ];
    optional_table(alloc, b"ORT_HZTF", &outlines)
}

/// REC_FRT_HZT: how long one trip stands at a point.
pub fn trip_dwells(alloc: Global) -> Result<Schema, Memory>
    ensures { IfOk result (λ found. found ≡ schema.trip_dwells) }
{
    let outlines = [
        key(b"BASIS_VERSION"),
        trip_key(b"FRT_FID"),
        key(b"ONR_TYP_NR"),
        key(b"ORT_NR"),
        seconds(b"FRT_HZT_ZEIT"),
    ];
    optional_table(alloc, b"REC_FRT_HZT", &outlines)
}

/// REC_LID: the variants of the lines, with their areas.
pub fn lines(alloc: Global) -> Result<Schema, Memory>
    ensures { IfOk result (λ found. found ≡ schema.lines) }
{
    let outlines = [
        key(b"BASIS_VERSION"),
        key(b"LI_NR"),
        word_key(b"STR_LI_VAR"),
        number(b"BEREICH_NR"),
    ];
    needed_table(alloc, b"REC_LID", &outlines)
}

/// LID_VERLAUF: the stop sequences of the variants.
pub fn stops(alloc: Global) -> Result<Schema, Memory>
    ensures { IfOk result (λ found. found ≡ schema.stops) }
{
    let outlines = [
        key(b"BASIS_VERSION"),
        key(b"LI_LFD_NR"),
        key(b"LI_NR"),
        word_key(b"STR_LI_VAR"),
        number(b"ONR_TYP_NR"),
        number(b"ORT_NR"),
    ];
    needed_table(alloc, b"LID_VERLAUF", &outlines)
}

/// REC_FRT: the trips.
pub fn trips(alloc: Global) -> Result<Schema, Memory>
    ensures { IfOk result (λ found. found ≡ schema.trips) }
{
    let outlines = [
        key(b"BASIS_VERSION"),
        trip_key(b"FRT_FID"),
        seconds(b"FRT_START"),
        number(b"LI_NR"),
        number(b"TAGESART_NR"),
        number(b"FAHRTART_NR"),
        number(b"FGR_NR"),
        plain(b"STR_LI_VAR", Domain::AnyWord),
        unseen_column(b"UM_UID"),
    ];
    needed_table(alloc, b"REC_FRT", &outlines)
}

/// UEB_FZT: the times of moves without passengers.
pub fn deads(alloc: Global) -> Result<Schema, Memory>
    ensures { IfOk result (λ found. found ≡ schema.deads) }
{
    let outlines = [
        key(b"BASIS_VERSION"),
        key(b"BEREICH_NR"),
        key(b"FGR_NR"),
        key(b"ONR_TYP_NR"),
        key(b"ORT_NR"),
        key(b"UEB_ZIEL_TYP"),
        key(b"UEB_ZIEL"),
        seconds(b"UEB_FAHRZEIT"),
    ];
    needed_table(alloc, b"UEB_FZT", &outlines)
}

/// MENGE_FZG_TYP: the types of vehicles.
pub fn types(alloc: Global) -> Result<Schema, Memory>
    ensures { IfOk result (λ found. found ≡ schema.types) }
{
    let outlines = [key(b"BASIS_VERSION"), key(b"FZG_TYP_NR")];
    needed_table(alloc, b"MENGE_FZG_TYP", &outlines)
}
