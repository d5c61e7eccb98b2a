//! The tables of this project, which hold the planner's settings.

ghost use Rattle.std.specs.Prelude.{◌≡◌, IfOk};
ghost use Rattle.vdv452_rows.specs.Schema as schema;

use super::{
    Schema, count, fixed_costs, flag, key, needed_table, number, optional_table, rate, seconds,
};
use plan_core::Memory;
use std::alloc::Global;

/// X_PLAN: settings of the whole plan. It has no key.
pub fn plan(alloc: Global) -> Result<Schema, Memory>
    ensures { IfOk result (λ found. found ≡ schema.plan) }
{
    let outlines = [
        number(b"UEB_BEREICH_NR"),
        number(b"UEB_FGR_NR"),
        seconds(b"WENDE_SEK"),
        seconds(b"MAX_WARTE_SEK"),
        seconds(b"UEBERGABE_SEK"),
    ];
    needed_table(alloc, b"X_PLAN", &outlines)
}

/// X_HOF: the depots, with their vehicles and costs.
pub fn depots(alloc: Global) -> Result<Schema, Memory>
    ensures { IfOk result (λ found. found ≡ schema.depots) }
{
    let outlines = [
        key(b"HOF_NR"),
        number(b"ONR_TYP_NR"),
        number(b"ORT_NR"),
        number(b"FZG_TYP_NR"),
        count(b"ANZAHL"),
        fixed_costs(b"FIX_KOSTEN"),
        rate(b"LEER_SATZ"),
        rate(b"STAND_SATZ"),
    ];
    needed_table(alloc, b"X_HOF", &outlines)
}

/// X_LINIE_FZG: which types of vehicles may serve a line.
pub fn line_types(alloc: Global) -> Result<Schema, Memory>
    ensures { IfOk result (λ found. found ≡ schema.line_types) }
{
    let outlines = [key(b"LI_NR"), key(b"FZG_TYP_NR")];
    optional_table(alloc, b"X_LINIE_FZG", &outlines)
}

/// X_ABLOESE: the points where drivers are relieved.
pub fn reliefs(alloc: Global) -> Result<Schema, Memory>
    ensures { IfOk result (λ found. found ≡ schema.reliefs) }
{
    let outlines = [key(b"ONR_TYP_NR"), key(b"ORT_NR")];
    optional_table(alloc, b"X_ABLOESE", &outlines)
}

/// X_WEG: the ways of drivers between points.
pub fn ways(alloc: Global) -> Result<Schema, Memory>
    ensures { IfOk result (λ found. found ≡ schema.ways) }
{
    let outlines = [
        key(b"ONR_TYP_NR"),
        key(b"ORT_NR"),
        key(b"ZIEL_TYP"),
        key(b"ZIEL_NR"),
        seconds(b"WEG_SEK"),
    ];
    optional_table(alloc, b"X_WEG", &outlines)
}

/// X_FAHRER: the groups of drivers, with their costs and allowances. The two columns of allowances
/// may be missing.
pub fn drivers(alloc: Global) -> Result<Schema, Memory>
    ensures { IfOk result (λ found. found ≡ schema.drivers) }
{
    let outlines = [
        key(b"GRUPPE_NR"),
        number(b"ONR_TYP_NR"),
        number(b"ORT_NR"),
        count(b"ANZAHL"),
        fixed_costs(b"FIX_KOSTEN"),
        rate(b"SATZ"),
        seconds(b"ANMELDE_SEK"),
        seconds(b"ABMELDE_SEK"),
        flag(b"ZEHN_STD"),
        flag(b"KURZE_RUHE"),
    ];
    needed_table(alloc, b"X_FAHRER", &outlines)
}
