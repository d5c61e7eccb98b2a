//! The keys of a table's rows, noted in little room.

ghost use Rattle.std.specs.Prelude.{◌≡◌, ◌≤◌, ◌++◌, ◌∷◌, [], true, not, length, IfOk, IfErr};
ghost use Rattle.std.specs.List.{list_any};
ghost use Rattle.std.specs.Option.{option_map};
ghost use Rattle.vdv452_rows.specs.Cells.{same_cells};
ghost use Rattle.vdv452_rows.specs.RowKeys.{is_long as long_test, is_number as number_test, is_trip as trip_test, numbers_of as numbers_by, short};

use crate::cell::Cell;
use crate::fault::Refusal;
use crate::rows::{long_at, number_at};
use arrayvec::ArrayVec;
use indexmap::IndexSet;
use plan_core::{Memory, Seq};
use std::alloc::Global;
use std::marker::Model;

/// No key of a table has more columns.
const MOST_NUMBERS: usize = 7;

/// A row's key in little room: few numbers lie in the key itself, other cells elsewhere.
#[derive(PartialEq, Eq, Hash, Drop)]
pub(crate) enum RowKey {
    /// Numbers of 32 bits alone.
    Numbers(ArrayVec<u32, 7>),
    /// A version and the number of a trip.
    Trip(u32, u64),
    /// Any other key.
    Cells(Seq<Cell>),
}

/// The numbers of cells that are numbers of 32 bits alone.
fn numbers_of(cells: &[Cell]) -> Option<ArrayVec<u32, 7>>
    requires { length cells.now ≤ 7 }
    ensures { option_map (λ numbers. numbers.items) result ≡ numbers_by cells.now }
{
    let mut numbers = ArrayVec::new();
    for cell in cells {
        match cell {
            Cell::Number(number) => numbers.push(*number),
            Cell::Nothing | Cell::Long(_) | Cell::Word(_) => return None,
        }
    }
    Some(numbers)
}

fn is_number(cell: &Cell) -> bool
    ensures { result ≡ number_test cell.now }
{
    match cell {
        Cell::Number(_) => true,
        Cell::Nothing | Cell::Long(_) | Cell::Word(_) => false,
    }
}

fn is_long(cell: &Cell) -> bool
    ensures { result ≡ long_test cell.now }
{
    match cell {
        Cell::Long(_) => true,
        Cell::Nothing | Cell::Number(_) | Cell::Word(_) => false,
    }
}

/// Whether these are a version and the number of a trip.
fn is_trip(cells: &[Cell]) -> bool
    ensures { result ≡ trip_test cells.now }
{
    cells.len() == 2 && is_number(&cells[0]) && is_long(&cells[1])
}

/// The key with these cells.
fn short_key(cells: Seq<Cell>) -> RowKey
    ensures { result ≡ short cells }
{
    if is_trip(cells.as_slice()) {
        let version = number_at(cells.as_slice(), 0);
        let fid = long_at(cells.as_slice(), 1);
        return RowKey::Trip(version, fid);
    }
    if cells.len() > MOST_NUMBERS {
        return RowKey::Cells(cells);
    }
    match numbers_of(cells.as_slice()) {
        Some(numbers) => RowKey::Numbers(numbers),
        None => RowKey::Cells(cells),
    }
}

/// The keys of rows, each of them once.
#[derive(Drop)]
pub(crate) struct KeySet {
    keys: IndexSet<RowKey>,
}

impl Model for KeySet {
    ghost use Rattle.std.specs.Prelude.{List, All, map};
    ghost use Rattle.vdv452_rows.specs.declared.cell.Cell.{Cell};
    ghost use Rattle.vdv452_rows.specs.RowKeys.{IsShort, cells_of};

    ghost Value = { List (List Cell) };

    ghost view = { λ s. map cells_of s.keys.keys };

    ghost invariant = { λ s. All IsShort s.keys.keys };
}

impl KeySet {
    /// No keys, with room for so many.
    pub(crate) fn with_capacity(alloc: Global, count: usize) -> Result<KeySet, Memory>
        ensures { IfOk result (λ keys. keys ≡ []) }
    {
        Ok(KeySet {
            keys: IndexSet::with_capacity(alloc, count)?,
        })
    }

    /// Puts a key among the others. Answers whether none of these is the same.
    pub(crate) fn insert(&mut self, key: Seq<Cell>) -> Result<bool, Refusal>
        ensures new { IfOk result (λ is_new. is_new ≡ not (list_any (same_cells key) self.old)) }
        ensures noted { IfOk result (λ is_new. is_new ≡ true → self.new ≡ self.old ++ key ∷ []) }
        ensures memory { IfErr result (λ refusal. refusal ≡ Refusal.Memory) }
    {
        Ok(self.keys.insert(short_key(key))?)
    }
}
