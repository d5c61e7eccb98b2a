//! What stays the same of a problem while prices climb.

ghost use Rattle.std.specs.Prelude.{◌≡◌, ◌<◌, ◌≤◌, ◌≤ℤ◌, ◌∷◌, [], pos, neg_ℤ, length, IfOk, IfSome};
ghost use Rattle.plan_core.specs.Limits.{most_price, most_worth};
ghost use Rattle.plan_dive.specs.Grounds.{IsGround, IsRest};

use cover_core::Columns;
use lagrangian_climb::{Rest, Span};
use plan_core::{Memory, Seq};
use price_rounds::caps_of;
use std::alloc::Global;

/// The caps of a problem, and between which numbers the price of each item is kept. They stay the same while prices climb.
#[derive(Drop)]
pub struct Ground {
    /// The caps, by class.
    pub caps: Seq<u32>,
    /// By item: from minus 1,000 times the least worth of the item alone to 2,000 times the greatest; 0 where it has none.
    pub spans: Seq<Span>,
}

/// What items alone are worth.
#[derive(Clone, Copy)]
struct Alone {
    known: bool,
    least: u64,
    greatest: u64,
}

/// What an item alone is worth in a class, in cost units, where it has a worth.
pub fn worth_alone<C: Columns>(problem: &C, class: u32, item: u32) -> Option<u64>
    requires class { class < length (C.problem problem.now).caps }
    requires item { item < (C.problem problem.now).items }
    ensures value { result ≡ (C.problem problem.now).worth class (item ∷ []) }
    ensures bound { IfSome result (λ worth. worth ≤ most_worth) }
{
    problem.worth(class, [item].as_slice())
}

/// The least and the greatest worth so far and one worth more.
fn with_worth(so_far: Alone, worth: u64) -> Alone
    requires least { so_far.least ≤ most_worth }
    requires greatest { so_far.greatest ≤ most_worth }
    requires worth { worth ≤ most_worth }
    ensures least { result.least ≤ most_worth }
    ensures greatest { result.greatest ≤ most_worth }
{
    let least = if so_far.known && so_far.least < worth {
        so_far.least
    } else {
        worth
    };
    let greatest = if so_far.greatest < worth {
        worth
    } else {
        so_far.greatest
    };
    Alone {
        known: true,
        least,
        greatest,
    }
}

/// What an item alone is worth over all classes.
fn alone_in_all<C: Columns>(problem: &C, item: u32) -> Alone
    requires { item < (C.problem problem.now).items }
    ensures least { result.least ≤ most_worth }
    ensures greatest { result.greatest ≤ most_worth }
{
    let mut so_far = Alone {
        known: false,
        least: 0,
        greatest: 0,
    };
    for class in 0..problem.classes() {
        match worth_alone(problem, class, item) {
            Some(worth) => so_far = with_worth(so_far, worth),
            None => {}
        }
    }
    so_far
}

/// The span of worths.
fn span_between(least: u64, greatest: u64) -> Span
    requires least { least ≤ most_worth }
    requires greatest { greatest ≤ most_worth }
    ensures low { neg_ℤ (pos most_price) ≤ℤ result.low }
    ensures ordered { result.low ≤ℤ result.high }
    ensures high { result.high ≤ℤ pos most_price }
{
    Span {
        low: -(1000 * least as i64),
        high: 2000 * greatest as i64,
    }
}

/// The span of an item's price.
fn span_of<C: Columns>(problem: &C, item: u32) -> Span
    requires { item < (C.problem problem.now).items }
    ensures low { neg_ℤ (pos most_price) ≤ℤ result.low }
    ensures ordered { result.low ≤ℤ result.high }
    ensures high { result.high ≤ℤ pos most_price }
{
    let alone = alone_in_all(problem, item);
    span_between(alone.least, alone.greatest)
}

impl Ground {
    /// The caps and spans of a problem. `Memory` is the only error.
    pub fn new<C: Columns>(alloc: Global, problem: &C) -> Result<Ground, Memory>
        ensures { IfOk result (IsGround (C.problem problem.now)) }
    {
        let caps = caps_of(alloc, problem)?;
        let mut spans = Seq::new(alloc);
        for item in 0..problem.items() {
            spans.push(span_of(problem, item))?;
        }
        Ok(Ground { caps, spans })
    }
}

/// So many items, none of them fixed.
fn none_fixed(alloc: Global, items: u32) -> Result<Seq<bool>, Memory>
    ensures { IfOk result (λ fixed. length fixed ≡ items) }
{
    let mut fixed = Seq::new(alloc);
    for _item in 0..items {
        fixed.push(false)?;
    }
    Ok(fixed)
}

/// The whole problem as a rest: no item is fixed, and each class has all its places. The aim is in thousandths of a cost unit. `Memory`
/// is the only error.
pub fn open_rest<C: Columns>(
    alloc: Global,
    problem: &C,
    ground: &Ground,
    aim: i64,
) -> Result<Rest, Memory>
    requires { IsGround (C.problem problem.now) ground.now }
    ensures { IfOk result (IsRest (C.problem problem.now)) }
{
    let fixed = none_fixed(alloc, problem.items())?;
    let caps = ground.caps.with_items(ground.caps.as_slice())?;
    Ok(Rest { fixed, caps, aim })
}
