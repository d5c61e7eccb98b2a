//! Plans, prices and bounds that climbs find, worked by hand.

ghost use Rattle.std.specs.Prelude.{◌<◌, ◌≤◌};
ghost use Rattle.price_rounds.specs.Efforts.{IsEffort};

use crate::pair_pricer::Pair;
use crate::spelling::spell;
use climb_rounds::{ClimbFault, climb_count, climb_plan};
use plan_core::{Memory, NoGate};
use price_rounds::Effort;
use std::alloc::Global;
use std::test::Fail;
use std::thread::Threads;

/// So many workers.
fn effort(workers: u32) -> Effort
    requires { (0 < workers) × (workers ≤ 64) }
    ensures { IsEffort result }
{
    Effort {
        workers,
        rounds: 3,
        lower: 2,
        exchange: 20,
        climb: true,
    }
}

/// What climbing finds, as numbers: the columns of the plan, the kept prices and the bound; or 200, the item that is left, and the columns
/// beside which it is.
fn climb_as_numbers<R: Threads + Sync>(
    rt: &R,
    alloc: Global,
    given: &Pair,
    workers: u32,
) -> Result<Vec<u64>, Memory>
    requires { (0 < workers) × (workers ≤ 64) }
{
    let mut out = Vec::new(alloc);
    match climb_plan(rt, alloc, given, &effort(workers), &NoGate) {
        Ok(climbed) => {
            spell(&mut out, climbed.plan.columns.as_slice())?;
            for price in climbed.kept.prices.items.as_slice() {
                out.push(price.0.unsigned_abs())?;
            }
            out.push(climbed.kept.bound)?;
        }
        Err(ClimbFault::NotPlaced { item, partial }) => {
            out.push(200)?;
            out.push(item as u64)?;
            spell(&mut out, partial.columns.as_slice())?;
        }
        Err(ClimbFault::Memory) => return Err(Memory),
    }
    Ok(out)
}

/// The bound that climbing finds without a plan.
fn bound_of_climb<R: Threads + Sync>(
    rt: &R,
    alloc: Global,
    given: &Pair,
    workers: u32,
) -> Result<u64, Memory>
    requires { (0 < workers) × (workers ≤ 64) }
{
    Ok(climb_count(rt, alloc, given, &effort(workers), &NoGate)?.bound)
}

/// Two items that cost 2,500 each alone and 2,200 together: rounding puts them into one column, its worth is shared between them, and the
/// prices of 1,100,000 each are paid, so the first bound proves the plan.
#[test]
fn bounds_prove_plans(rt: HostRuntime) -> Result<(), Fail> {
    let costed = Pair {
        alone: 2500,
        both: Some(2200),
        places: 2,
    };
    for workers in [1, 2, 64] {
        let found = climb_as_numbers(&rt, rt.alloc(), &costed, workers)?;
        assert_eq!(rt;
            found.as_slice(),
            [2200, 0, 1, 99, 1100000, 1100000, 2200].as_slice()
        );
    }
    Ok(())
}

/// With each worth 1 the prices are 500 and the bound is 1.
#[test]
fn bounds_count_columns(rt: HostRuntime) -> Result<(), Fail> {
    let unit = Pair {
        alone: 1,
        both: Some(1),
        places: 2,
    };
    for workers in [1, 2, 64] {
        assert_eq!(rt; bound_of_climb(&rt, rt.alloc(), &unit, workers)?, 1);
    }
    Ok(())
}

/// Two items that are worth 1 each alone, in a class with one place: the second one is left beside the first, and no dive finds a plan. The
/// prices climb to 2,000 each, where their spans end; there the least value is -1,000, and 4,000 less 1,000 is a bound of 3 columns.
#[test]
fn items_are_left(rt: HostRuntime) -> Result<(), Fail> {
    let narrow = Pair {
        alone: 1,
        both: None,
        places: 1,
    };
    assert_eq!(rt; bound_of_climb(&rt, rt.alloc(), &narrow, 1)?, 3);
    let found = climb_as_numbers(&rt, rt.alloc(), &narrow, 1)?;
    assert_eq!(rt; found.as_slice(), [200, 1, 1, 0, 99].as_slice());
    Ok(())
}
