//! Running minima by the points at which trips begin: rows of numbers one behind another, a number for each point.

ghost use Rattle.std.specs.Prelude.{◌≡◌, ◌<◌, ◌≤◌, ◌+◌, ◌≤ℤ◌, ℤ, neg_ℤ, pos, length};
ghost use Rattle.cover_core.specs.Plans.{number_at};
ghost use Rattle.path_pricing.specs.Rows.{AreModerate, IsCellLowered, IsRowAdded, IsRowCopied};

/// The lower of two numbers.
pub(crate) fn lower(a: i64, b: i64) -> i64
    ensures first { result ≤ℤ a }
    ensures second { result ≤ℤ b }
    ensures least { (x : ℤ) → x ≤ℤ a → x ≤ℤ b → x ≤ℤ result }
{
    if a < b { a } else { b }
}

/// Copies the row at a place to the row behind it.
fn copy_row(cells: &mut Vec<i64>, base: usize, width: usize)
    requires { base + width + width ≤ length cells.old.items }
    ensures { IsRowCopied cells.old.items cells.new.items base width width }
{
    for place in 0..width {
        cells[base + width + place] = cells[base + place];
    }
}

/// Lowers the number at a place to another one, where it is above.
fn lower_at(cells: &mut Vec<i64>, place: usize, value: i64)
    requires { place < length cells.old.items }
    ensures { IsCellLowered cells.old.items cells.new.items place value }
{
    let least = lower(cells[place], value);
    cells[place] = least;
}

/// Puts a row behind the row at a place: its numbers are the same but for one, which is lowered to a value.
pub(crate) fn add_row(cells: &mut Vec<i64>, base: usize, width: usize, number: usize, value: i64)
    requires room { base + width + width ≤ length cells.old.items }
    requires number { number < width }
    ensures { IsRowAdded cells.old.items cells.new.items base width number value }
{
    copy_row(cells, base, width);
    lower_at(cells, base + width + number, value);
}

/// The number at a place.
pub(crate) fn cell(cells: &[i64], place: usize) -> i64
    requires { place < length cells.now }
    ensures { result ≡ number_at cells.now place }
{
    cells[place]
}
