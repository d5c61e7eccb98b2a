//! The prices at the start.

ghost use Rattle.std.specs.Prelude.{◌∷◌, [], ◌≡◌, ◌<◌, ◌≤◌, ◌≤ℤ◌, pos, neg_ℤ, length, IfOk, OnOk};
ghost use Rattle.plan_core.specs.Limits.{most_price, most_worth};
ghost use Rattle.cover_core.specs.Cover.{AllBelow};
ghost use Rattle.cover_core.specs.FirstLeast.{AllWithin};
ghost use Rattle.lagrangian_climb.specs.Choices.{AreAsked};
ghost use Rattle.lagrangian_climb.specs.Climbs.{AreSpans};
ghost use Rattle.plan_dive.specs.Grounds.{IsCourse, IsGround};
ghost use Rattle.price_rounds.specs.Steps.{AreReady};
ghost use Rattle.worker_price.specs.Work.{ArePricesFor};
ghost use Rattle.climb_rounds.specs.Searches.{IsBest};
ghost use Rattle.climb_rounds.specs.Walks.{IsWalk};

use crate::best::{Best, ask_ready};
use crate::walk::{Walk, copy_of};
use cover_core::{Column, Columns, Prices};
use lagrangian_climb::Span;
use plan_core::{Memory, Price, Seq};
use plan_dive::{Course, Ground};
use std::alloc::Global;

/// A number kept within a span.
fn kept_in(span: Span, number: i64) -> i64
    requires ordered { span.low ≤ℤ span.high }
    ensures low { span.low ≤ℤ result }
    ensures high { result ≤ℤ span.high }
{
    if number < span.low {
        span.low
    } else if span.high < number {
        span.high
    } else {
        number
    }
}

/// The span of an item.
fn span_at(spans: &[Span], item: usize) -> Span
    requires inside { item < length spans.now }
    requires spans { AreSpans spans.now }
    ensures low { neg_ℤ (pos most_price) ≤ℤ result.low }
    ensures ordered { result.low ≤ℤ result.high }
    ensures high { result.high ≤ℤ pos most_price }
{
    spans[item]
}

/// A quarter of minus the low end of a span, kept in the span.
fn quarter_of(span: Span) -> i64
    requires low { neg_ℤ (pos most_price) ≤ℤ span.low }
    requires ordered { span.low ≤ℤ span.high }
    requires high { span.high ≤ℤ pos most_price }
    ensures low { neg_ℤ (pos most_price) ≤ℤ result }
    ensures high { result ≤ℤ pos most_price }
{
    kept_in(span, (-span.low) / 4)
}

/// The prices where there is no plan: a quarter of a thousand times the least worth of each item alone.
fn quarter_prices(alloc: Global, spans: &[Span]) -> Result<Seq<Price>, Memory>
    requires { AreSpans spans.now }
    ensures len { IfOk result (λ prices. length prices ≡ length spans.now) }
    ensures moderate { IfOk result (AllWithin most_price) }
{
    let mut prices = Seq::new(alloc);
    for item in 0..spans.len() {
        prices.push(Price(quarter_of(span_at(spans, item))))?;
    }
    Ok(prices)
}

/// The equal share of a column's worth for each of its items, in thousandths of a cost unit.
fn share_of(worth: u64, count: usize) -> i64
    requires worth { worth ≤ most_worth }
    ensures { count ≡ 0 → result ≡ pos 0 }
{
    if count == 0 {
        0
    } else {
        (1000 * worth / count as u64) as i64
    }
}

/// Gives an item a price, kept in its span.
fn set_price(prices: &mut Seq<Price>, spans: &[Span], item: usize, share: i64)
    requires spans { AreSpans spans.now }
    requires one_each { length spans.now ≡ length prices.old }
    requires inside { item < length prices.old }
    requires moderate { AllWithin most_price prices.old }
    ensures len { length prices.new ≡ length prices.old }
    ensures moderate { AllWithin most_price prices.new }
{
    let price = kept_in(span_at(spans, item), share);
    prices.set(item, Price(price));
}

/// Gives each item of a list a price, kept in its span.
fn set_prices(prices: &mut Seq<Price>, spans: &[Span], list: &[u32], share: i64)
    requires spans { AreSpans spans.now }
    requires one_each { length spans.now ≡ length prices.old }
    requires items { AllBelow (length prices.old) list.now }
    requires moderate { AllWithin most_price prices.old }
    ensures len { length prices.new ≡ length prices.old }
    ensures moderate { AllWithin most_price prices.new }
{
    for item in list {
        set_price(prices, spans, *item as usize, share);
    }
}

/// The prices at the start: each column of the plan shares its worth equally among its items.
fn start_prices<C: Columns>(
    alloc: Global,
    problem: &C,
    ground: &Ground,
    best: &Best,
) -> Result<Prices, Memory>
    requires ground { IsGround (C.problem problem.now) ground.now }
    requires best { IsBest (C.problem problem.now) best.now }
    ensures { IfOk result (λ prices. ArePricesFor (C.problem problem.now) prices.items) }
{
    let spans = ground.spans.as_slice();
    let mut items = quarter_prices(alloc, spans)?;
    match best {
        Best::Left { .. } => {}
        Best::Found { plan } => {
            ask_ready(problem, plan);
            share_all(problem, &mut items, spans, plan.columns.as_slice());
        }
    }
    Ok(Prices { items })
}

/// A column shares its worth equally among its items.
fn share_one<C: Columns>(_problem: &C, prices: &mut Seq<Price>, spans: &[Span], column: &Column)
    requires column { AreReady (C.problem _problem.now) (column.now ∷ []) }
    requires spans { AreSpans spans.now }
    requires one_each { length spans.now ≡ (C.problem _problem.now).items }
    requires prices { ArePricesFor (C.problem _problem.now) prices.old }
    ensures { ArePricesFor (C.problem _problem.now) prices.new }
{
    let list = column.items.as_slice();
    let share = share_of(column.worth, list.len());
    set_prices(prices, spans, list, share);
}

/// Each column shares its worth equally among its items.
fn share_all<C: Columns>(problem: &C, prices: &mut Seq<Price>, spans: &[Span], columns: &[Column])
    requires columns { AreReady (C.problem problem.now) columns.now }
    requires spans { AreSpans spans.now }
    requires one_each { length spans.now ≡ (C.problem problem.now).items }
    requires prices { ArePricesFor (C.problem problem.now) prices.old }
    ensures { ArePricesFor (C.problem problem.now) prices.new }
{
    for column in columns {
        share_one(problem, prices, spans, column);
    }
}

/// No class asks anything.
fn nothing_asked(alloc: Global, classes: u32) -> Result<Seq<i64>, Memory>
    ensures len { IfOk result (λ asked. length asked ≡ classes) }
    ensures asked { IfOk result AreAsked }
{
    let mut asked = Seq::new(alloc);
    for _class in 0..classes {
        asked.push(0)?;
    }
    Ok(asked)
}

/// The start of a walk, from the best plan.
pub(crate) fn first_walk<C: Columns>(
    alloc: Global,
    problem: &C,
    ground: &Ground,
    best: &Best,
) -> Result<Walk, Memory>
    requires ground { IsGround (C.problem problem.now) ground.now }
    requires best { IsBest (C.problem problem.now) best.now }
    ensures { IfOk result (IsWalk (C.problem problem.now)) }
{
    let prices = start_prices(alloc, problem, ground, best)?;
    let at = copy_of(alloc, &prices)?;
    let centre = copy_of(alloc, &prices)?;
    let scaled = copy_of(alloc, &prices)?;
    let course = Course {
        prices,
        asked: nothing_asked(alloc, problem.classes())?,
        counts: Seq::new(alloc),
        pace: 512,
        grew: false,
    };
    Ok(Walk {
        course,
        at,
        centre,
        scaled,
        guess: None,
        kept: None,
        over: false,
    })
}
