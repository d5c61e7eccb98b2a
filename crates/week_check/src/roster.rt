//! The roster's table as duties.

ghost use Rattle.std.specs.Prelude.{◌≡◌, ◌≢◌, ◌<◌, ◌^◌, ◌++◌, ◌∷◌, [], All, AllPairs, Err, IfErr, IfOk, IfSome, List, None, OnOk, Result, Some, filter, length, map, not, true};
ghost use Rattle.std.specs.List.{find, list_any};
ghost use Rattle.std.specs.Option.{option_copied};
ghost use Rattle.vdv452_rows.specs.Rows.{has_name};
ghost use Rattle.week_check.specs.Duties.{AreNear, IsRoster, IsTurn};
ghost use Rattle.week_check.specs.Roster as spec;
ghost use Rattle.week_check.specs.RosterAnswers.{AreFarDays, IsAnswer, IsFaultOf, IsFirstOf};
ghost use Rattle.week_check.specs.declared.fault.RosterFault.{RosterFault};
ghost use Rattle.week_check.specs.declared.turn.Turn.{Turn};
ghost use Rattle.vdv451_text.specs.declared.table.Table.{Table};

use crate::column::column_name;
use crate::days::number_of;
use crate::entry::{DriverDay, Entry, key_of, turn_of, wrong_column};
use crate::fault::{RosterFault, fault_of, roster_name};
use crate::places::{Places, entry_at, kind_at, missing_column, places_in};
use crate::span::{first_day, last_day};
use crate::turn::Turn;
use indexmap::IndexSet;
use plan_core::Seq;
use std::alloc::Global;
use vdv451_text::{Field, Table};
use vdv452_tables::TableKind;

/// The numbers of a row whose values are right, or the fault of the first one that is not.
fn read_entry(
    alloc: Global,
    places: &Places,
    number: u32,
    row: &[Field],
) -> Result<Entry, RosterFault>
    ensures value { IfOk result (λ entry. entry ≡ spec.entry_of (spec.fields_at places.now row.now)) }
    ensures none { IfOk result (λ entry. spec.wrong_column entry ≡ None) }
    ensures right { OnOk result (spec.value_faults number (spec.fields_at places.now row.now) ≡ []) }
    ensures wrong { IfErr result (IsFirstOf (spec.value_faults number (spec.fields_at places.now row.now))) }
{
    let entry = entry_at(places, row);
    match wrong_column(&entry) {
        Some(column) => {
            let kind = kind_at(places, row, column);
            Err(fault_of(alloc, kind, column_name(column), number))
        }
        None => Ok(entry),
    }
}

/// Notes a key among those of the rows before. Answers whether none of these is the same.
fn note_key(keys: &mut IndexSet<DriverDay>, key: DriverDay) -> Result<bool, RosterFault>
    ensures new { IfOk result (λ is_new. is_new ≡ not (list_any (spec.same_key key) keys.old.keys)) }
    ensures noted { IfOk result (λ is_new. is_new ≡ true → keys.new.keys ≡ keys.old.keys ++ key ∷ []) }
    ensures memory { IfErr result (λ fault. fault ≡ RosterFault.Memory) }
{
    Ok(keys.insert(key)?)
}

/// The duty of a row, whose key is noted among those of the rows before, or the row's first fault.
fn read_row(
    alloc: Global,
    places: &Places,
    number: u32,
    row: &[Field],
    keys: &mut IndexSet<DriverDay>,
) -> Result<Turn, RosterFault>
    ensures turn { IfOk result (λ turn. turn ≡ spec.row_turn (spec.fields_at places.now row.now)) }
    ensures keys { OnOk result (keys.new.keys ≡ keys.old.keys ++ spec.key_of (spec.entry_of (spec.fields_at places.now row.now)) ∷ []) }
    ensures right { OnOk result (spec.row_fault number keys.old.keys (spec.fields_at places.now row.now) ≡ []) }
    ensures wrong { IfErr result (IsFirstOf (spec.row_fault number keys.old.keys (spec.fields_at places.now row.now))) }
{
    let entry = read_entry(alloc, places, number, row)?;
    if !note_key(keys, key_of(&entry))? {
        return Err(fault_of(alloc, TableKind::KeyTwice, "", number));
    }
    Ok(turn_of(&entry))
}

/// The duties of the rows, or the first fault of a value or a key.
fn read_rows(alloc: Global, places: &Places, rows: &[Seq<Field>]) -> Result<Vec<Turn>, RosterFault>
    requires { length rows.now < 2 ^ 32 }
    ensures value { IfOk result (λ turns. turns.items ≡ map spec.row_turn (map (spec.fields_at places.now) rows.now)) }
    ensures right { OnOk result (spec.row_faults 1 [] (map (spec.fields_at places.now) rows.now) ≡ []) }
    ensures wrong { IfErr result (IsFirstOf (spec.row_faults 1 [] (map (spec.fields_at places.now) rows.now))) }
{
    let mut keys = IndexSet::with_capacity(alloc, rows.len())?;
    let mut turns = Vec::with_capacity(alloc, rows.len())?;
    for (place, row) in rows.iter().enumerate() {
        let number = place as u32 + 1;
        turns.push(read_row(alloc, places, number, row.as_slice(), &mut keys)?)?;
    }
    Ok(turns)
}

/// The duties of the roster's table.
fn read_table(alloc: Global, table: &Table) -> Result<Vec<Turn>, RosterFault>
    requires { length table.now.rows < 2 ^ 32 }
    ensures value { IfOk result (λ turns. turns.items ≡ spec.turns_in (Some table.now)) }
    ensures right { OnOk result (spec.faults_in (Some table.now) ≡ []) }
    ensures wrong { IfErr result (IsFirstOf (spec.faults_in (Some table.now))) }
{
    let heads = table.columns.as_slice();
    if let Some(column) = missing_column(heads) {
        let name = column_name(column);
        return Err(fault_of(alloc, TableKind::NoColumn, name, 0));
    }
    let places = places_in(heads);
    read_rows(alloc, &places, table.rows.as_slice())
}

/// How many tables have the roster's name.
fn count_rosters(tables: &[Table]) -> usize
    ensures { result ≡ length (filter (has_name spec.roster_name) tables.now) }
{
    let name = roster_name().as_bytes();
    tables
        .iter()
        .filter(|table| table.name.as_slice() == name)
        .count()
}

/// The first table of the roster's name.
fn find_roster(tables: &[Table]) -> Option<&Table>
    requires { All (λ table. length table.rows < 2 ^ 32) tables.now }
    ensures first { option_copied result ≡ find (has_name spec.roster_name) tables.now }
    ensures few { IfSome result (λ table. length table.now.rows < 2 ^ 32) }
{
    let name = roster_name().as_bytes();
    for table in tables {
        if table.name.as_slice() == name {
            return Some(table);
        }
    }
    None
}

/// The duties of the roster's table over all tables, or the table's first fault.
fn read_turns(alloc: Global, tables: &[Table]) -> Result<Vec<Turn>, RosterFault>
    requires { All (λ table. length table.rows < 2 ^ 32) tables.now }
    ensures value { IfOk result (λ turns. turns.items ≡ spec.turns_of tables.now) }
    ensures right { OnOk result (spec.roster_faults tables.now ≡ []) }
    ensures wrong { IfErr result (IsFirstOf (spec.roster_faults tables.now)) }
{
    if count_rosters(tables) > 1 {
        return Err(fault_of(alloc, TableKind::TableTwice, "", 0));
    }
    match find_roster(tables) {
        Some(table) => read_table(alloc, table),
        None => Err(fault_of(alloc, TableKind::NoTable, "", 0)),
    }
}

/// Tests that the last day is at most 13 days after the first.
fn check_days(turns: &[Turn]) -> Result<(), RosterFault>
    requires { All IsTurn turns.now }
    ensures near { OnOk result (AllPairs AreNear turns.now) }
    ensures far { IfErr result (AreFarDays turns.now) }
{
    if turns.is_empty() {
        return Ok(());
    }
    let first = first_day(turns);
    let last = last_day(turns);
    if number_of(last) - number_of(first) >= 14 {
        return Err(RosterFault::Days { first, last });
    }
    Ok(())
}

/// The duties of the table X_EINSATZ, a duty for each row and in the order of the rows.
///
/// FAHRER_NR is from 0 to 4,294,967,295, BETRIEBSTAG a date of the calendar in a year from 1 to
/// 9998, BEGINN and ENDE from -172,800 to 345,600 with ENDE not below BEGINN, LENKZEIT from 0 to
/// 172,800, and DREI 0 or 1. FAHRER_NR and BETRIEBSTAG are the key. Tables and columns are found by
/// their names (VDV 451); other ones are passed over, and of two columns with one name the first
/// counts. A field that a row lacks is an empty one.
///
/// # Errors
///
/// `Table` with the first fault of the table: `TableTwice`, `NoTable`, `NoColumn` in the order
/// above, then row by row, from 1, first `NoValue` and `Range` column by column, then `KeyTwice`.
/// `Days` exactly where the table has no fault and its last day is 14 or more days after its first.
/// `Memory` where memory runs out.
pub fn read_roster(alloc: Global, tables: &[Table]) -> Result<Seq<Turn>, RosterFault>
    requires { All (λ table. length table.rows < 2 ^ 32) tables.now }
    ensures turns { IfOk result (λ turns. turns ≡ spec.turns_of tables.now) }
    ensures right { OnOk result (spec.roster_faults tables.now ≡ []) }
    ensures roster { IfOk result IsRoster }
    ensures few { IfOk result (λ turns. length turns < 2 ^ 32) }
    ensures wrong { IfErr result (IsFaultOf tables.now) }
{
    let turns = read_turns(alloc, tables)?;
    check_days(turns.as_slice())?;
    Ok(Seq::from_vec(turns))
}

/// Tables have one roster or one fault, running out of memory aside.
pub fn one_answer()
    ensures { (tables : List Table) (a b : Result (List Turn) RosterFault) → IsAnswer tables a → IsAnswer tables b → a ≢ Err RosterFault.Memory → b ≢ Err RosterFault.Memory → a ≡ b }
{}
