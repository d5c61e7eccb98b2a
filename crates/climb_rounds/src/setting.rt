//! What estimates need of a problem.

ghost use Rattle.std.specs.Prelude.{IfSome, ◌≡◌, ◌<◌, ◌≤◌, ◌≤ℤ◌, pos, length, IfOk};
ghost use Rattle.plan_core.specs.Limits.{most_worth};
ghost use Rattle.plan_dive.specs.Grounds.{IsGround};
ghost use Rattle.offer_estimate.specs.Scales.{AreCaps, AreWorths};
ghost use Rattle.climb_rounds.specs.Settings.{IsSetting};

use cover_core::Columns;
use plan_core::{Memory, Seq};
use plan_dive::{Ground, worth_alone};
use std::alloc::Global;

/// A problem's caps and spans, and by class the least worth of an item alone, in thousandths of a cost unit and at least 1.
#[derive(Drop)]
pub(crate) struct Setting {
    pub(crate) ground: Ground,
    pub(crate) caps: Seq<u32>,
    pub(crate) worths: Seq<i64>,
}

/// A thousand times a worth, at least 1.
fn thousandfold(worth: u64) -> i64
    requires { worth ≤ most_worth }
    ensures low { pos 1 ≤ℤ result }
    ensures high { result ≤ℤ pos 4000000000000 }
{
    if worth == 0 { 1 } else { 1000 * worth as i64 }
}

/// The least worth so far, and one worth more.
fn lesser(least: Option<u64>, worth: u64) -> u64
    requires least { IfSome least (λ worth. worth ≤ most_worth) }
    requires worth { worth ≤ most_worth }
    ensures { result ≤ most_worth }
{
    match least {
        None => worth,
        Some(least) => if least < worth { least } else { worth },
    }
}

/// The least worth of an item alone in a class, in thousandths of a cost unit and at least 1; 1 where none has a worth.
fn least_worth<C: Columns>(problem: &C, class: u32) -> i64
    requires { class < length (C.problem problem.now).caps }
    ensures low { pos 1 ≤ℤ result }
    ensures high { result ≤ℤ pos 4000000000000 }
{
    let mut least = None;
    for item in 0..problem.items() {
        match worth_alone(problem, class, item) {
            None => {}
            Some(worth) => least = Some(lesser(least, worth)),
        }
    }
    match least {
        None => 1,
        Some(worth) => thousandfold(worth),
    }
}

/// The least worths of all classes.
fn least_worths<C: Columns>(alloc: Global, problem: &C) -> Result<Seq<i64>, Memory>
    ensures len { IfOk result (λ worths. length worths ≡ length (C.problem problem.now).caps) }
    ensures worths { IfOk result AreWorths }
{
    let mut worths = Seq::new(alloc);
    for class in 0..problem.classes() {
        worths.push(least_worth(problem, class))?;
    }
    Ok(worths)
}

/// The caps of all classes, each at most 10,000.
fn moderate_caps<C: Columns>(alloc: Global, problem: &C) -> Result<Seq<u32>, Memory>
    ensures len { IfOk result (λ caps. length caps ≡ length (C.problem problem.now).caps) }
    ensures caps { IfOk result AreCaps }
{
    let mut caps = Seq::new(alloc);
    for class in 0..problem.classes() {
        caps.push(problem.cap(class))?;
    }
    Ok(caps)
}

impl Setting {
    /// The setting of a problem.
    pub(crate) fn new<C: Columns>(alloc: Global, problem: &C) -> Result<Setting, Memory>
        ensures { IfOk result (IsSetting (C.problem problem.now)) }
    {
        Ok(Setting {
            ground: Ground::new(alloc, problem)?,
            caps: moderate_caps(alloc, problem)?,
            worths: least_worths(alloc, problem)?,
        })
    }
}
