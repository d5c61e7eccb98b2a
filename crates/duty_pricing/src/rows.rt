//! Rows of completion bounds: a number for each amount of driving that is left.

ghost use Rattle.std.specs.Prelude.{◌≡◌, ◌<◌, ◌≤◌, ◌≤ℤ◌, ◌-ℤ◌, ℕ, ℤ, neg_ℤ, pos, length};
ghost use Rattle.plan_core.specs.Limits.{most_price};
ghost use Rattle.cover_core.specs.Plans.{number_at};
ghost use Rattle.duty_pricing.specs.Bounds.{IsLifted, IsLowered, IsRaised, IsRowLowered, IsSettled, cell_at};

/// For each number of units of driving left what the rest of a list adds to its value at least, in thousandths of a cost unit.
pub(crate) type Row = [i64; 16];

/// The lower of two numbers.
fn lower(a: i64, b: i64) -> i64
    ensures first { result ≤ℤ a }
    ensures second { result ≤ℤ b }
    ensures least { (z : ℤ) → z ≤ℤ a → z ≤ℤ b → z ≤ℤ result }
{
    if a < b { a } else { b }
}

/// The greater of two numbers.
fn greater(a: i64, b: i64) -> i64
    ensures first { a ≤ℤ result }
    ensures second { b ≤ℤ result }
    ensures least { (z : ℤ) → a ≤ℤ z → b ≤ℤ z → result ≤ℤ z }
{
    if a < b { b } else { a }
}

/// Raises the number at a place to another one, where it is below.
fn raise_at(row: &mut Row, place: usize, value: i64)
    requires { place < 16 }
    ensures { IsLifted row.old row.new place value }
{
    let most = greater(row[place], value);
    row[place] = most;
}

/// Raises a row to another one, where it is lower.
pub(crate) fn raise(row: &mut Row, by: &Row)
    ensures { IsRaised row.old row.new by.now 16 }
{
    for place in 0..16usize {
        let value = by[place];
        raise_at(row, place, value);
    }
}

/// Lowers the number at a place to another one, where it is above.
fn lower_at(row: &mut Row, place: usize, value: i64)
    requires { place < 16 }
    ensures { IsLowered row.old row.new place value }
{
    let least = lower(row[place], value);
    row[place] = least;
}

/// A number less a price.
fn less(rest: i64, price: i64) -> i64
    requires rest_low { neg_ℤ (pos 100000000000000000) ≤ℤ rest }
    requires rest_high { rest ≤ℤ pos 100000000000000000 }
    requires price_low { neg_ℤ (pos most_price) ≤ℤ price }
    requires price_high { price ≤ℤ pos most_price }
    ensures { result ≡ rest -ℤ price }
{
    rest - price
}

/// Lowers a row to what going on with a piece adds: the row of that piece, so many units of driving further down, less its price.
pub(crate) fn lower_row(row: &mut Row, next: &Row, shift: u32, width: u32, price: i64)
    requires order { shift ≤ width }
    requires width { width ≤ 16 }
    requires low { (x : ℕ) → x < 16 → neg_ℤ (pos 100000000000000000) ≤ℤ number_at next.now x }
    requires high { (x : ℕ) → number_at next.now x ≤ℤ pos 100000000000000000 }
    requires price_low { neg_ℤ (pos most_price) ≤ℤ price }
    requires price_high { price ≤ℤ pos most_price }
    ensures { IsRowLowered row.old row.new next.now shift width price }
{
    for place in shift..width {
        let value = less(next[(place - shift) as usize], price);
        lower_at(row, place as usize, value);
    }
}

/// Makes a row fall: with more driving left there is no greater number.
pub(crate) fn settle(row: &mut Row)
    ensures { IsSettled row.old row.new 16 }
{
    for place in 1..16usize {
        let value = row[place - 1];
        lower_at(row, place, value);
    }
}

/// The number of a piece for so many units of driving left.
pub(crate) fn cell(rows: &[Row], item: u32, left: u32) -> i64
    requires item { item < length rows.now }
    requires left { left < 16 }
    ensures { result ≡ cell_at rows.now item left }
{
    rows[item as usize][left as usize]
}
