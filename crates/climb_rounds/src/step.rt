//! The step in which costs go.

ghost use Rattle.std.specs.Prelude.{◌<◌};
ghost use Rattle.std.specs.Int.{IsGcd};

use cover_core::Column;

/// The greatest common divisor of two numbers, by Euclid's algorithm.
fn gcd(one: u64, other: u64) -> u64
    ensures { IsGcd one other result }
{
    let mut divisor = one;
    let mut number = other;
    while number != 0 {
        let rest = divisor % number;
        divisor = number;
        number = rest;
    }
    divisor
}

/// The greatest number that divides what each of the columns is worth, in cost units; 1 where none is worth anything. Plans of these
/// columns cost multiples of it.
pub(crate) fn cost_step(columns: &[Column]) -> u64
    ensures { 0 < result }
{
    let mut step = 0;
    for column in columns {
        step = gcd(step, column.worth);
    }
    step.max(1)
}
