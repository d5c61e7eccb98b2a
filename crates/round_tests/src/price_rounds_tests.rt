//! Passes whose prices and bounds were worked by hand.

ghost use Rattle.std.specs.Prelude.{◌<◌, ◌≤◌};
ghost use Rattle.price_rounds.specs.Efforts.{IsEffort};

use crate::pair_pricer::Pair;
use crate::spelling::spell;
use plan_core::{Memory, NoGate};
use price_rounds::{Effort, pass};
use std::alloc::Global;
use std::test::Fail;
use std::thread::Threads;

/// So many rounds.
fn effort(workers: u32, rounds: u32, lower: u32) -> Effort
    requires workers { (0 < workers) × (workers ≤ 64) }
    requires rounds { (0 < rounds) × (rounds ≤ 200) }
    requires lower { (0 < lower) × (lower ≤ 50) }
    ensures { IsEffort result }
{
    Effort {
        workers,
        rounds,
        lower,
        exchange: 20,
        climb: false,
    }
}

/// What a pass finds, as numbers: the columns of the pool, the kept prices of the items and of the class, and the bound.
fn pass_as_numbers<R: Threads + Sync>(
    rt: &R,
    alloc: Global,
    given: &Pair,
    effort: &Effort,
) -> Result<Vec<u64>, Memory>
    requires { IsEffort effort.now }
{
    let (pool, kept) = pass(rt, alloc, given, effort, &NoGate)?;
    let mut out = Vec::new(alloc);
    spell(&mut out, pool.as_slice())?;
    for price in kept.prices.items.as_slice() {
        out.push(price.0.unsigned_abs())?;
    }
    for price in kept.class_prices.as_slice() {
        out.push(price.unsigned_abs())?;
    }
    out.push(kept.bound)?;
    Ok(out)
}

/// Two items that cost 2,500 each alone and 2,200 together: start prices of 2,500,000 are lowered by 1,400,000 each to 1,100,000.
#[test]
fn prices_are_lowered(rt: HostRuntime) -> Result<(), Fail> {
    let costed = Pair {
        alone: 2500,
        both: Some(2200),
        places: 2,
    };
    for workers in [1, 2, 64] {
        let found = pass_as_numbers(&rt, rt.alloc(), &costed, &effort(workers, 40, 20))?;
        assert_eq!(rt;
            found.as_slice(),
            [2200, 0, 1, 99, 1100000, 1100000, 0, 2200].as_slice()
        );
    }
    Ok(())
}

/// With each worth 1 they end at 500.
#[test]
fn prices_of_a_count(rt: HostRuntime) -> Result<(), Fail> {
    let counted = Pair {
        alone: 1,
        both: Some(1),
        places: 2,
    };
    for workers in [1, 2, 64] {
        let found = pass_as_numbers(&rt, rt.alloc(), &counted, &effort(workers, 40, 20))?;
        assert_eq!(rt; found.as_slice(), [1, 0, 1, 99, 500, 500, 0, 1].as_slice());
    }
    Ok(())
}

/// Two items that are worth 1 each alone, in a class with one place: prices of 1,000 rise by 16 times 500 to 9,000, the least value is
/// -8,000, and 18,000 less 8,000 is 10 cost units.
#[test]
fn bounds_exceed_caps(rt: HostRuntime) -> Result<(), Fail> {
    let counted = Pair {
        alone: 1,
        both: None,
        places: 1,
    };
    let found = pass_as_numbers(&rt, rt.alloc(), &counted, &effort(1, 1, 1))?;
    assert_eq!(rt; found.as_slice(), [9000, 9000, 8000, 10].as_slice());
    Ok(())
}
