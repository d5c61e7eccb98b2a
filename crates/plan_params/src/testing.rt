//! The first fault of the settings. No test takes memory.

ghost use Rattle.std.specs.Prelude.{◌≡◌, map};
ghost use Rattle.std.specs.List.{flat_map};
ghost use Rattle.std.specs.Option.{option_map};
ghost use Rattle.vdv452_rows.specs.Rows.{first};
ghost use Rattle.plan_params.specs.Faults.{fault_of, first_fault, number_of as number_at_place, reference_kinds, row_faults, row_kinds, table_faults};
ghost use Rattle.plan_params.specs.Rules.{rule_of};

use crate::fault::ParamKind;
use crate::row::{number_at, point_at};
use crate::rule::{Reference, TableRule, rules};
use plan_core::Seq;
use vdv452_tables::Network;

/// How many rows X_HOF and X_FAHRER may have.
const MOST_ROWS: usize = 32;

/// A fault with the name of its table where it stands.
#[derive(Clone, Copy)]
pub(crate) struct Found<'a> {
    pub kind: ParamKind,
    pub table: &'a str,
    pub row: u32,
}

/// The number of the row at a place from 0.
fn number_of(place: usize) -> u32
    ensures { result ≡ number_at_place place }
{
    if place < 4_294_967_294 {
        place as u32 + 1
    } else {
        4_294_967_295
    }
}

fn reference_kind(
    net: &Network,
    version: u32,
    row: &[u32],
    reference: Reference,
) -> Option<ParamKind>
    ensures { result ≡ first (reference_kinds net.now version row.now reference) }
{
    match reference {
        Reference::PointAt(typ, nr) => {
            if net.has_point(version, point_at(row, typ, nr)) {
                None
            } else {
                Some(ParamKind::UnknownPoint)
            }
        }
        Reference::TypeAt(place) => {
            if net.has_type(version, number_at(row, place)) {
                None
            } else {
                Some(ParamKind::UnknownType)
            }
        }
    }
}

/// What is wrong first with a row.
fn row_kind(net: &Network, version: u32, references: &[Reference], row: &[u32]) -> Option<ParamKind>
    ensures { result ≡ first (row_kinds net.now version references.now row.now) }
{
    for reference in references {
        let kind = reference_kind(net, version, row, *reference);
        if kind.is_some() {
            return kind;
        }
    }
    None
}

/// The first fault of a table's rows.
fn rows_fault<'a>(
    net: &Network,
    version: u32,
    rule: &TableRule<'a>,
    rows: &[Seq<u32>],
) -> Option<Found<'a>>
    ensures { option_map fault_of result ≡ first (row_faults net.now version (rule_of rule.now) 0 rows.now) }
{
    for (place, row) in rows.iter().enumerate() {
        if let Some(kind) = row_kind(net, version, rule.references, row.as_slice()) {
            return Some(Found {
                kind,
                table: rule.name,
                row: number_of(place),
            });
        }
    }
    None
}

/// The first fault of a table.
fn table_fault<'a>(net: &Network, version: u32, rule: &TableRule<'a>) -> Option<Found<'a>>
    ensures { option_map fault_of result ≡ first (table_faults net.now version (rule_of rule.now)) }
{
    let rows = net.extra(rule.name);
    if rule.is_limited && rows.len() > MOST_ROWS {
        return Some(Found {
            kind: ParamKind::TooMany,
            table: rule.name,
            row: 0,
        });
    }
    rows_fault(net, version, rule, rows)
}

/// The first fault of some tables in their order.
fn first_in<'a>(net: &Network, version: u32, rules: &[TableRule<'a>]) -> Option<Found<'a>>
    ensures { option_map fault_of result ≡ first (flat_map (table_faults net.now version) (map rule_of rules.now)) }
{
    for rule in rules {
        let found = table_fault(net, version, rule);
        if found.is_some() {
            return found;
        }
    }
    None
}

/// The first fault of all tables, X_PLAN before the others.
#[tactic(auto, unfolding(crate::specs::Faults::first_fault))]
pub(crate) fn find_fault(net: &Network, version: u32) -> Option<Found<'static>>
    ensures { option_map fault_of result ≡ first_fault net.now version }
{
    if net.extra("X_PLAN").len() != 1 {
        return Some(Found {
            kind: ParamKind::NotOne,
            table: "X_PLAN",
            row: 0,
        });
    }
    first_in(net, version, &rules())
}
