//! The numbers of a price step: subgradient, direction, gap, step size and price.

ghost use Rattle.std.specs.Prelude.{◌≡◌, ◌≤◌, ◌<◌, ◌≤ℤ◌, ◌*◌, ◌*ℤ◌, pos, neg_ℤ, int_div, unsigned_abs};
ghost use Rattle.std.specs.Int.{int_max};
ghost use Rattle.plan_core.specs.Limits.{most_price};
ghost use Rattle.lagrangian_climb.specs.Numbers.{lack_of, direction_of, gap_of, unit_of, kept_within, moved_of};

/// How far an item is from being covered once, where so many chosen columns have it: its part of the subgradient. A fixed item has 0.
pub fn lack(fixed: bool, times: u32) -> i64
    requires { times ≤ 200000 }
    ensures value { result ≡ lack_of fixed times }
    ensures low { neg_ℤ (pos 200000) ≤ℤ result }
    ensures high { result ≤ℤ pos 200000 }
{
    if fixed { 0 } else { 1 - times as i64 }
}

/// The direction of a price after a price step, in eighths: six eighths of the one before and two of this price step (heavy ball).
pub fn direction(old: i64, lack: i64) -> i64
    requires old_low { neg_ℤ (pos 1600000) ≤ℤ old }
    requires old_high { old ≤ℤ pos 1600000 }
    requires low { neg_ℤ (pos 200000) ≤ℤ lack }
    requires high { lack ≤ℤ pos 200000 }
    ensures value { result ≡ direction_of old lack }
    ensures low { neg_ℤ (pos 1600000) ≤ℤ result }
    ensures high { result ≤ℤ pos 1600000 }
{
    (6 * old + 16 * lack) / 8
}

/// The square of a direction.
pub fn square(direction: i64) -> u64
    requires low { neg_ℤ (pos 1600000) ≤ℤ direction }
    requires high { direction ≤ℤ pos 1600000 }
    ensures value { result ≡ unsigned_abs direction * unsigned_abs direction }
    ensures high { result ≤ 2560000000000 }
{
    let size = direction.unsigned_abs();
    size * size
}

/// The distance of a Lagrangian to its aim: at least a small part of the aim, and at least 1.
pub fn gap(aim: i64, bound: i128) -> u128
    requires low { neg_ℤ (pos 10000000000000000000000) ≤ℤ bound }
    requires high { bound ≤ℤ pos 10000000000000000000000 }
    ensures value { pos result ≡ gap_of aim bound }
    ensures high { result ≤ 20000000000000000000000 }
{
    let part = aim / 2048;
    let far = aim as i128 - bound;
    if far < part as i128 {
        at_least_one(part as i128)
    } else {
        at_least_one(far)
    }
}

/// A number, or 1 where it is less.
fn at_least_one(number: i128) -> u128
    ensures value { pos result ≡ int_max number (pos 1) }
{
    if number < 1 { 1 } else { number as u128 }
}

/// The size of a price step, in 1,024ths: eight times pace and gap, divided by the sum of squares (Polyak's step), at most 10^12.
pub fn unit(pace: u32, gap: u128, square: u64) -> i64
    requires pace { pace ≤ 512 }
    requires gap { gap ≤ 20000000000000000000000 }
    requires square { 0 < square }
    ensures value { result ≡ pos (unit_of pace gap square) }
    ensures low { pos 0 ≤ℤ result }
    ensures high { result ≤ℤ pos 1000000000000 }
{
    let size = (8 * pace) as u128 * gap / square as u128;
    if size < 1000000000000 {
        size as i64
    } else {
        1000000000000
    }
}

/// By how much a price step moves a price, in 1,024ths.
fn way(unit: i64, direction: i64) -> i64
    requires unit_low { pos 0 ≤ℤ unit }
    requires unit_high { unit ≤ℤ pos 1000000000000 }
    requires low { neg_ℤ (pos 1600000) ≤ℤ direction }
    requires high { direction ≤ℤ pos 1600000 }
    ensures value { result ≡ unit *ℤ direction }
    ensures low { neg_ℤ (pos 1600000000000000000) ≤ℤ result }
    ensures high { result ≤ℤ pos 1600000000000000000 }
{
    unit * direction
}

/// By how much a price step moves a price.
fn step(unit: i64, direction: i64) -> i64
    requires unit_low { pos 0 ≤ℤ unit }
    requires unit_high { unit ≤ℤ pos 1000000000000 }
    requires low { neg_ℤ (pos 1600000) ≤ℤ direction }
    requires high { direction ≤ℤ pos 1600000 }
    ensures value { result ≡ int_div (unit *ℤ direction) (pos 1024) }
    ensures low { neg_ℤ (pos 1600000000000000000) ≤ℤ result }
    ensures high { result ≤ℤ pos 1600000000000000000 }
{
    way(unit, direction) / 1024
}

/// A number kept between two others.
fn keep(low: i64, high: i64, number: i64) -> i64
    requires { low ≤ℤ high }
    ensures value { result ≡ kept_within low high number }
    ensures low { low ≤ℤ result }
    ensures high { result ≤ℤ high }
{
    if number < low {
        low
    } else if high < number {
        high
    } else {
        number
    }
}

/// A price after a price step.
pub fn price_after_move(low: i64, high: i64, unit: i64, direction: i64, price: i64) -> i64
    requires limits { low ≤ℤ high }
    requires price_low { neg_ℤ (pos most_price) ≤ℤ price }
    requires price_high { price ≤ℤ pos most_price }
    requires unit_low { pos 0 ≤ℤ unit }
    requires unit_high { unit ≤ℤ pos 1000000000000 }
    requires direction_low { neg_ℤ (pos 1600000) ≤ℤ direction }
    requires direction_high { direction ≤ℤ pos 1600000 }
    ensures value { result ≡ moved_of low high unit direction price }
    ensures low { low ≤ℤ result }
    ensures high { result ≤ℤ high }
{
    keep(low, high, price + step(unit, direction))
}
