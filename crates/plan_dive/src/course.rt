//! Climbs over a stock.

ghost use Rattle.std.specs.Prelude.{◌≡◌, ◌≤◌, ◌∷◌, [], length, IfOk, OnOk};
ghost use Rattle.worker_price.specs.Work.{ArePricesFor};
ghost use Rattle.plan_dive.specs.Grounds.{IsGround, IsRest, IsStock, IsCourse};

use crate::ground::Ground;
use crate::stock::Stock;
use cover_core::{Columns, Prices};
use lagrangian_climb::{Climbed, Rest, climb};
use plan_core::{Memory, Seq};
use std::alloc::Global;

/// Prices that climbed, and how often the climb chose each column of the stock.
#[derive(Drop)]
pub struct Course {
    /// The prices of the greatest Lagrangian.
    pub prices: Prices,
    /// What each class asks for a place at these prices, in thousandths of a cost unit.
    pub asked: Seq<i64>,
    /// How often the columns were chosen, by their places; later columns were not.
    pub counts: Seq<u32>,
    /// The pace at which the prices were reached, in 1,024ths.
    pub pace: u32,
    /// Whether the climb led to new columns.
    pub grew: bool,
}

/// Climbs over the columns of a stock that are in play, from prices and at a pace of at most 512, weaves columns at the peak, and adds
/// them. `Memory` is the only error.
pub fn climb_once<C: Columns>(
    alloc: Global,
    problem: &C,
    ground: &Ground,
    stock: &mut Stock,
    rest: &Rest,
    prices: &Prices,
    pace: u32,
) -> Result<Course, Memory>
    requires ground { IsGround (C.problem problem.now) ground.now }
    requires stock { IsStock (C.problem problem.now) stock.old }
    requires rest { IsRest (C.problem problem.now) rest.now }
    requires prices { ArePricesFor (C.problem problem.now) prices.now.items }
    requires pace { pace ≤ 512 }
    ensures course { IfOk result (IsCourse (C.problem problem.now)) }
    ensures stock { OnOk result (IsStock (C.problem problem.now) stock.new) }
{
    let spans = ground.spans.as_slice();
    let climbed = climb(alloc, stock.pool.as_slice(), prices, rest, spans, pace)?;
    let Climbed { peak, counts } = climbed;
    let grew = stock.weave(alloc, problem, rest, &peak)?;
    Ok(Course {
        prices: peak.prices,
        asked: peak.class_prices,
        counts,
        pace: peak.pace,
        grew,
    })
}
