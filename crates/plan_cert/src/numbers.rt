//! The numbers that the fields of a certificate spell, each in its range.

ghost use Rattle.std.specs.Prelude.{◌≡◌, ◌≤◌, ◌<◌, ◌==◌, IfSome, length, position};
ghost use Rattle.plan_cert.specs.Numbers as spec;

use crate::cert::Pass;
use number_tables::{word, word_up_to};

/// The greatest kept price, and minus the least, in thousandths of a cost unit.
const MOST_PRICE: i64 = 3_000_000_000_000_000;

/// A number from 1 to a greatest one, counted from 0.
pub(crate) fn place_of_number(most: u32, number: Option<i64>) -> Option<u32>
    ensures value { result ≡ spec.counted most number }
    ensures bound { IfSome result (λ n. n < most) }
{
    let number = word_up_to(most, number)?;
    if number == 0 { None } else { Some(number - 1) }
}

/// A truth value, spelled as 0 or 1.
pub(crate) fn truth(number: Option<i64>) -> Option<bool>
    ensures { result ≡ spec.truth number }
{
    let number = word_up_to(1, number)?;
    Some(number == 1)
}

/// A price that an item may have.
pub(crate) fn moderate(number: Option<i64>) -> Option<i64>
    ensures { result ≡ spec.moderate number }
{
    let number = number?;
    if number < -MOST_PRICE || number > MOST_PRICE {
        return None;
    }
    Some(number)
}

/// A number that is not below 0.
fn natural(number: i64) -> Option<u64>
    ensures { result ≡ spec.natural number }
{
    if number < 0 {
        None
    } else {
        Some(number as u64)
    }
}

/// Where a number first stands among others.
fn place_in(numbers: &[u32], number: u64) -> Option<usize>
    ensures place { result ≡ spec.place_in numbers.now number }
    ensures within { IfSome result (λ place. place < length numbers.now) }
{
    numbers.iter().position(|other| *other as u64 == number)
}

/// The class of a number.
pub(crate) fn class_among(numbers: &[u32], number: Option<i64>) -> Option<u32>
    requires { length numbers.now ≤ 32 }
    ensures value { result ≡ spec.class_among numbers.now number }
    ensures bound { IfSome result (λ class. class < length numbers.now) }
{
    let number = natural(number?)?;
    let place = place_in(numbers, number)?;
    Some(place as u32)
}

/// The pass of a number from 1 to 4.
fn pass_of(number: u32) -> Option<Pass>
    ensures { result ≡ spec.pass_of number }
{
    if number == 1 {
        Some(Pass::BlockNumber)
    } else if number == 2 {
        Some(Pass::BlockCost)
    } else if number == 3 {
        Some(Pass::DutyNumber)
    } else if number == 4 {
        Some(Pass::DutyCost)
    } else {
        None
    }
}

/// One of the four passes.
pub(crate) fn any_pass(number: Option<i64>) -> Option<Pass>
    ensures { result ≡ spec.any_pass number }
{
    let number = word(number)?;
    pass_of(number)
}
