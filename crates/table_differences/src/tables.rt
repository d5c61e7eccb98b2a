//! Tables compared with those that should be there.
#![tactic(auto)]

ghost use Rattle.std.specs.Prelude.{◌≡◌, ◌≤◌, ◌<◌, ◌+◌, IfSome, length};
ghost use Rattle.vdv452_rows.specs.Rows.{has_name as has_name_spec};
ghost use Rattle.table_differences.specs.Differences as spec;

use crate::difference::Difference;
use crate::rows::table_difference;
use number_tables::single_table;
use vdv451_text::Table;
use vdv452_tables::column_place;

/// A column that is left aside, whatever stands in it.
#[derive(Clone, Copy, Debug)]
pub struct Aside<'a> {
    /// The name of its table.
    pub table: &'a [u8],
    /// Its own name.
    pub column: &'a [u8],
}

/// Whether a table has a name.
fn has_name(table: &Table, name: &[u8]) -> bool
    ensures { result ≡ has_name_spec name.now table.now }
{
    table.name.as_slice() == name
}

/// The place of the column that is left aside, where it is one of this table.
fn aside_in(aside: &Aside<'_>, made: &Table) -> Option<usize>
    ensures { result ≡ spec.aside_in aside.now.table.now aside.now.column.now made.now }
{
    if has_name(made, aside.table) {
        column_place(made.columns.as_slice(), aside.column)
    } else {
        None
    }
}

/// The first row of the table of a name that is not the same, from 1, or 0 where the table as a whole is not.
fn difference_among(aside: &Aside<'_>, given: &[Table], made: &Table) -> Option<usize>
    ensures difference { result ≡ spec.difference_among aside.now.table.now aside.now.column.now given.now made.now }
    ensures within { IfSome result (λ row. row ≤ length made.now.rows + 1) }
{
    match single_table(given, made.name.as_slice()) {
        None => Some(0),
        Some(table) => table_difference(aside_in(aside, made), table, made),
    }
}

/// The first place where given tables are not the ones that should be there: these are gone over in their order, and each must stand once
/// among the given ones by its name, with the same columns (names and formats) and the same rows in the same order. Two fields are the
/// same where both are numbers, quoted texts, bare bytes or nothing, with one content. The column that is left aside may have any fields.
/// Other given tables are passed over. None where there is no difference.
///
/// It takes no memory, and time in the order of the bytes of the tables that should be there, and of the given tables' names for each.
pub fn first_difference(aside: &Aside<'_>, given: &[Table], made: &[Table]) -> Option<Difference>
    ensures difference { result ≡ spec.first_difference aside.now.table.now aside.now.column.now given.now made.now }
    ensures within { IfSome result (λ difference. difference.table < length made.now) }
{
    for (table, wanted) in made.iter().enumerate() {
        if let Some(row) = difference_among(aside, given, wanted) {
            return Some(Difference { table, row });
        }
    }
    None
}
