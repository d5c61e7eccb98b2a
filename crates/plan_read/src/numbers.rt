//! The numbers that the fields of a plan spell, each in its range.

ghost use Rattle.std.specs.Prelude.{◌≡◌, ◌<◌, ◌^◌, IfSome};
ghost use Rattle.umlauf_write.specs.Reading.{not_below as not_below_spec};
ghost use Rattle.plan_read.specs.Numbers as spec;

/// A number that is not below 0.
pub(crate) fn not_below(number: Option<i64>) -> Option<u64>
    ensures value { result ≡ not_below_spec number }
    ensures bound { IfSome result (λ n. n < 2 ^ 63) }
{
    let number = number?;
    if number < 0 {
        None
    } else {
        Some(number as u64)
    }
}

/// Whether a number is that of its row, which is counted from 0.
pub(crate) fn is_own(row: usize, number: Option<i64>) -> bool
    requires { row < 2 ^ 32 }
    ensures { result ≡ spec.is_own row number }
{
    match not_below(number) {
        Some(number) => number == row as u64 + 1,
        None => false,
    }
}
