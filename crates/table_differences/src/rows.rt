//! The rows of two tables compared.
#![tactic(auto)]

ghost use Rattle.std.specs.Prelude.{◌≡◌, ◌≤◌, ◌<◌, ◌+◌, ◌^◌, IfSome, length};
ghost use Rattle.table_differences.specs.Differences as spec;

use crate::fields::{same_heads, same_row};
use plan_core::Seq;
use vdv451_text::{Field, Table};

/// Where the first pair of rows differs, from 0.
fn first_pair(aside: Option<usize>, given: &[Seq<Field>], made: &[Seq<Field>]) -> Option<usize>
    ensures place { result ≡ spec.first_pair aside given.now made.now }
    ensures within { IfSome result (λ place. place < length made.now) }
{
    given.iter().zip(made).position(|(row, other)| !same_row(
        aside,
        row.as_slice(),
        other.as_slice(),
    ))
}

/// The row, from 1, at which rows end where others go on.
fn end_difference(given: usize, made: usize) -> Option<usize>
    requires { made < 2 ^ 63 }
    ensures { result ≡ spec.end_difference given made }
{
    if given == made {
        None
    } else {
        Some(given.min(made) + 1)
    }
}

/// The first row, from 1, that is not the same.
fn row_difference(aside: Option<usize>, given: &[Seq<Field>], made: &[Seq<Field>]) -> Option<usize>
    ensures difference { result ≡ spec.row_difference aside given.now made.now }
    ensures within { IfSome result (λ row. row ≤ length made.now + 1) }
{
    match first_pair(aside, given, made) {
        Some(place) => Some(place + 1),
        None => end_difference(given.len(), made.len()),
    }
}

/// The first row of a table, from 1, that is not the same as in another one, or 0 where the columns are not.
pub(crate) fn table_difference(aside: Option<usize>, given: &Table, made: &Table) -> Option<usize>
    ensures difference { result ≡ spec.table_difference aside given.now made.now }
    ensures within { IfSome result (λ row. row ≤ length made.now.rows + 1) }
{
    if same_heads(given.columns.as_slice(), made.columns.as_slice()) {
        row_difference(aside, given.rows.as_slice(), made.rows.as_slice())
    } else {
        Some(0)
    }
}
