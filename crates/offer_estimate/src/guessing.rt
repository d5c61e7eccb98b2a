//! Guesses of the bounds of scaled prices.

ghost use Rattle.std.specs.Prelude.{◌≡◌, ◌<◌, ◌≤◌, ◌≤ℤ◌, ◌<ℤ◌, ◌-ℤ◌, ◌*ℤ◌, int_div, pos, neg_ℤ, length, slice_index};
ghost use Rattle.plan_core.specs.Limits.{most_places};
ghost use Rattle.cover_core.specs.Plans.{number_at};
ghost use Rattle.offer_estimate.specs.Scales.{AreLeasts, AreWorths, AreCaps, IsScale};
ghost use Rattle.offer_estimate.specs.Estimates.{IsFirstGreatest, guesses, estimate_of, proposed, scaled_least};

use crate::scales::Scale;

/// A guess.
#[derive(Clone, Copy)]
pub struct Estimate {
    /// The scale of the prices.
    pub scale: Scale,
    /// What they are guessed to bound, in thousandths of a cost unit.
    pub bound: i128,
}

/// What scaled prices pay for a list of the least value, times the whole.
fn payment(part: i64, least: i64) -> i128
    requires part_low { pos 1 ≤ℤ part }
    requires part_high { part ≤ℤ pos 4000000000000 }
    requires low { neg_ℤ (pos 30000000000000000) ≤ℤ least }
    requires high { least ≤ℤ pos 0 }
    ensures value { result ≡ part *ℤ least }
    ensures low { neg_ℤ (pos 120000000000000000000000000000) ≤ℤ result }
    ensures high { result ≤ℤ pos 120000000000000000000000000000 }
{
    part as i128 * least as i128
}

/// What a part leaves of the whole.
fn rest_of(part: i64, whole: i64) -> i128
    requires part_low { pos 1 ≤ℤ part }
    requires ordered { part ≤ℤ whole }
    requires whole { whole ≤ℤ pos 40000000000000000 }
    ensures value { result ≡ whole -ℤ part }
    ensures low { pos 0 ≤ℤ result }
    ensures high { result ≤ℤ pos 40000000000000000 }
{
    whole as i128 - part as i128
}

/// What scaling leaves of the worth of an item alone, times the whole.
fn left(worth: i64, rest: i128) -> i128
    requires rest_low { pos 0 ≤ℤ rest }
    requires rest_high { rest ≤ℤ pos 40000000000000000 }
    requires low { pos 1 ≤ℤ worth }
    requires high { worth ≤ℤ pos 4000000000000 }
    ensures value { result ≡ rest *ℤ worth }
    ensures low { neg_ℤ (pos 160000000000000000000000000000) ≤ℤ result }
    ensures high { result ≤ℤ pos 200000000000000000000000000000 }
{
    rest * worth as i128
}

/// A number divided by a whole, towards zero.
fn quotient(number: i128, whole: i64) -> i128
    requires low { neg_ℤ (pos 1000000000000000000000000000000) ≤ℤ number }
    requires high { number ≤ℤ pos 1000000000000000000000000000000 }
    requires whole { pos 1 ≤ℤ whole }
    ensures value { result ≡ int_div number whole }
    ensures low { neg_ℤ (pos 1000000000000000000000000000000) ≤ℤ result }
    ensures high { result ≤ℤ pos 1000000000000000000000000000000 }
{
    number / whole as i128
}

/// The least value of a class after scaling, where a list of it keeps the worth of the cheapest single item: 0 where that is not below 0.
fn scaled_value(part: i64, whole: i64, least: i64, worth: i64) -> i128
    requires part_low { pos 1 ≤ℤ part }
    requires part_high { part ≤ℤ pos 4000000000000 }
    requires ordered { part ≤ℤ whole }
    requires whole { whole ≤ℤ pos 40000000000000000 }
    requires least_low { neg_ℤ (pos 30000000000000000) ≤ℤ least }
    requires least_high { least ≤ℤ pos 0 }
    requires worth_low { pos 1 ≤ℤ worth }
    requires worth_high { worth ≤ℤ pos 4000000000000 }
    ensures value { result ≡ scaled_least part whole least worth }
    ensures low { neg_ℤ (pos 1000000000000000000000000000000) ≤ℤ result }
    ensures high { result ≤ℤ pos 0 }
{
    let rest = left(worth, rest_of(part, whole));
    let value = quotient(payment(part, least) + rest, whole);
    if value < 0 { value } else { 0 }
}

/// What a class takes off a guess: each of its places the scaled least value.
fn loss(cap: u32, value: i128) -> i128
    requires cap { cap ≤ most_places }
    requires low { neg_ℤ (pos 1000000000000000000000000000000) ≤ℤ value }
    requires high { value ≤ℤ pos 0 }
    ensures value { result ≡ pos cap *ℤ value }
    ensures low { neg_ℤ (pos 10000000000000000000000000000000000) ≤ℤ result }
    ensures high { result ≤ℤ pos 0 }
{
    cap as i128 * value
}

/// A sum times a part.
fn scaled_sum(part: i64, sum: i128) -> i128
    requires part_low { pos 1 ≤ℤ part }
    requires part_high { part ≤ℤ pos 4000000000000 }
    requires low { neg_ℤ (pos 30000000000000000) ≤ℤ sum }
    requires high { sum ≤ℤ pos 30000000000000000 }
    ensures value { result ≡ sum *ℤ part }
    ensures low { neg_ℤ (pos 120000000000000000000000000000) ≤ℤ result }
    ensures high { result ≤ℤ pos 120000000000000000000000000000 }
{
    sum * part as i128
}

/// The guess at a scale.
fn guess(sum: i128, least: &[i64], worths: &[i64], caps: &[u32], part: i64, whole: i64) -> i128
    requires sum_low { neg_ℤ (pos 30000000000000000) ≤ℤ sum }
    requires sum_high { sum ≤ℤ pos 30000000000000000 }
    requires classes { length caps.now ≤ 32 }
    requires caps { AreCaps caps.now }
    requires least { AreLeasts least.now }
    requires one_least { length least.now ≡ length caps.now }
    requires worths { AreWorths worths.now }
    requires one_worth { length worths.now ≡ length caps.now }
    requires part_low { pos 1 ≤ℤ part }
    requires part_high { part ≤ℤ pos 4000000000000 }
    requires ordered { part ≤ℤ whole }
    requires whole { whole ≤ℤ pos 40000000000000000 }
    ensures value { result ≡ estimate_of sum least.now worths.now caps.now part whole }
    ensures low { neg_ℤ (pos 1000000000000000000000000000000000000) ≤ℤ result }
    ensures high { result ≤ℤ pos 1000000000000000000000000000000 }
{
    let mut guess = quotient(scaled_sum(part, sum), whole);
    for class in 0..caps.len() {
        let value = scaled_value(part, whole, least_at(least, class), worth_at(worths, class));
        guess += loss(cap_at(caps, class), value);
    }
    guess
}

/// The least value of a class.
fn least_at(least: &[i64], class: usize) -> i64
    requires inside { class < length least.now }
    requires least { AreLeasts least.now }
    ensures value { result ≡ number_at least.now class }
    ensures low { neg_ℤ (pos 30000000000000000) ≤ℤ result }
    ensures high { result ≤ℤ pos 0 }
{
    least[class]
}

/// The least worth of an item alone in a class, in thousandths.
fn worth_at(worths: &[i64], class: usize) -> i64
    requires inside { class < length worths.now }
    requires worths { AreWorths worths.now }
    ensures value { result ≡ number_at worths.now class }
    ensures low { pos 1 ≤ℤ result }
    ensures high { result ≤ℤ pos 4000000000000 }
{
    worths[class]
}

/// The cap of a class.
fn cap_at(caps: &[u32], class: usize) -> u32
    requires inside { class < length caps.now }
    requires caps { AreCaps caps.now }
    ensures value { result ≡ slice_index caps.now class }
    ensures few { result ≤ most_places }
{
    caps[class]
}

/// The scale that a class proposes.
fn proposal(least: i64, worth: i64) -> Scale
    requires low { neg_ℤ (pos 30000000000000000) ≤ℤ least }
    requires high { least ≤ℤ pos 0 }
    requires worth_low { pos 1 ≤ℤ worth }
    requires worth_high { worth ≤ℤ pos 4000000000000 }
    ensures value { result ≡ proposed least worth }
    ensures scale { IsScale result }
{
    Scale {
        part: worth,
        whole: worth - least,
    }
}

/// The greatest guess of what prices bound when they are scaled, and the scale, the first one on ties: unscaled, and then, class by class,
/// at the scale that each class of a least value below 0 proposes.
///
/// A guess is the sum of the prices times part / whole, towards zero, less for each class and each of its places the scaled least value:
/// that of a list of the least value which is worth as much as the cheapest single item of the class, towards zero and at most 0.
///
/// `sum` is the sum of all prices, from -30,000,000,000,000,000 to 30,000,000,000,000,000. There are at most 32 classes, each with a least
/// value from -30,000,000,000,000,000 to 0, the least worth of an item alone from 1 to 4,000,000,000,000 in thousandths (1 where no item
/// has one), and a cap of at most 10,000. Time is in the order of the square of the number of classes. It cannot fail.
pub fn best_guess(sum: i128, least: &[i64], worths: &[i64], caps: &[u32]) -> Estimate
    requires sum_low { neg_ℤ (pos 30000000000000000) ≤ℤ sum }
    requires sum_high { sum ≤ℤ pos 30000000000000000 }
    requires classes { length caps.now ≤ 32 }
    requires caps { AreCaps caps.now }
    requires least { AreLeasts least.now }
    requires one_least { length least.now ≡ length caps.now }
    requires worths { AreWorths worths.now }
    requires one_worth { length worths.now ≡ length caps.now }
    ensures best { IsFirstGreatest (guesses sum least.now worths.now caps.now (length caps.now)) result }
    ensures scale { IsScale result.scale }
{
    let whole = Scale { part: 1, whole: 1 };
    let mut best = Estimate {
        scale: whole,
        bound: guess(sum, least, worths, caps, 1, 1),
    };
    for class in 0..caps.len() {
        let value = least_at(least, class);
        if value < 0 {
            let scale = proposal(value, worth_at(worths, class));
            let bound = guess(sum, least, worths, caps, scale.part, scale.whole);
            best = better(best, Estimate { scale, bound });
        }
    }
    best
}

/// The better of two guesses: the new one where it is greater.
fn better(old: Estimate, new: Estimate) -> Estimate
    requires old { IsScale old.scale }
    requires new { IsScale new.scale }
    ensures greater { old.bound <ℤ new.bound → result ≡ new }
    ensures no_greater { new.bound ≤ℤ old.bound → result ≡ old }
    ensures scale { IsScale result.scale }
{
    if old.bound < new.bound { new } else { old }
}
