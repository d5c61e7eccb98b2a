//! A table that stands once among others.

ghost use Rattle.std.specs.Prelude.{◌≡◌, ◌<◌, ◌^◌, All, IfSome, count_by, find, length};
ghost use Rattle.std.specs.Option.{option_copied};
ghost use Rattle.number_tables.specs.Single.{single_in};
ghost use Rattle.vdv452_rows.specs.Rows.{has_name as has_name_spec};

use vdv451_text::Table;

/// Whether a table has a name.
fn has_name(table: &Table, name: &[u8]) -> bool
    ensures { result ≡ has_name_spec name.now table.now }
{
    table.name.as_slice() == name
}

/// How many tables of a name there are.
fn count_of(tables: &[Table], name: &[u8]) -> usize
    ensures { result ≡ count_by (has_name_spec name.now) tables.now }
{
    tables.iter().filter(|table| has_name(table, name)).count()
}

/// The first table of a name.
fn first_of<'t>(tables: &'t [Table], name: &[u8]) -> Option<&'t Table>
    ensures first { option_copied result ≡ find (has_name_spec name.now) tables.now }
    ensures sized { All (λ table. length table.rows < 2 ^ 32) tables.now → IfSome result (λ table. length table.now.rows < 2 ^ 32) }
{
    tables.iter().find(|table| has_name(table, name))
}

/// The table of a name, where it stands once. Where no table has 2^32 rows, neither has the one that is found.
pub fn single_table<'t>(tables: &'t [Table], name: &[u8]) -> Option<&'t Table>
    ensures once { option_copied result ≡ single_in name.now tables.now }
    ensures sized { All (λ table. length table.rows < 2 ^ 32) tables.now → IfSome result (λ table. length table.now.rows < 2 ^ 32) }
{
    if count_of(tables, name) == 1 {
        first_of(tables, name)
    } else {
        None
    }
}
