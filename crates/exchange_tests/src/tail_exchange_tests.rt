//! Plans that steps better, worked by hand.

ghost use Rattle.cover_core.specs.Plans.{IsPlan};
ghost use Rattle.exchange_tests.specs.Five.{five};

use crate::five_items::{Five, spell};
use crate::given_plans::{
    crossed_example, dear_example, loose_example, mixed_example, settled_example, spread_example,
    tied_example,
};
use cover_core::Plan;
use plan_core::Memory;
use std::alloc::Global;
use std::test::Fail;
use std::thread::Threads;
use tail_exchange::{improve, steps_keep_plans};

/// How many steps are made of a plan, and the columns then, as numbers.
fn improvement<R: Threads + Sync>(
    rt: &R,
    alloc: Global,
    places: u8,
    plan: Plan,
    steps: u32,
) -> Result<Vec<u64>, Memory>
    requires { IsPlan (five places 0) plan.columns }
{
    let mut plan = plan;
    let made = improve(rt, alloc, &Five { places, bar: 0 }, &mut plan, steps)?;
    let mut out = Vec::new(alloc);
    out.push(made as u64)?;
    spell(&mut out, plan.columns.as_slice())?;
    Ok(out)
}

/// How many steps are made of a plan by as many calls, each of which begins a search from nothing, and the columns then, as numbers.
fn step_by_step<R: Threads + Sync>(
    rt: &R,
    alloc: Global,
    places: u8,
    plan: Plan,
    steps: u32,
) -> Result<Vec<u64>, Memory>
    requires { IsPlan (five places 0) plan.columns }
{
    let mut plan = plan;
    let mut made = 0;
    for _step in 0..steps {
        made += improve(rt, alloc, &Five { places, bar: 0 }, &mut plan, 1)? as u64;
    }
    let mut out = Vec::new(alloc);
    out.push(made)?;
    spell(&mut out, plan.columns.as_slice())?;
    Ok(out)
}

/// Whether so many steps of a plan in a row are those that searches from nothing find; the plan is given twice.
fn alike<R: Threads + Sync>(
    rt: &R,
    alloc: Global,
    plan: Plan,
    again: Plan,
    steps: u32,
) -> Result<bool, Memory>
    requires first { IsPlan (five 3 0) plan.columns }
    requires second { IsPlan (five 3 0) again.columns }
{
    let row = improvement(rt, alloc, 3, plan, steps)?;
    let single = step_by_step(rt, alloc, 3, again, steps)?;
    Ok(row.as_slice() == single.as_slice())
}

/// Whether each number of steps of `mixed_example` is as by searches from nothing.
fn mixed_alike<R: Threads + Sync>(rt: &R, alloc: Global) -> Result<bool, Memory> {
    for steps in 1..7 {
        let plan = mixed_example(alloc)?;
        let again = mixed_example(alloc)?;
        if !alike(rt, alloc, plan, again, steps)? {
            return Ok(false);
        }
    }
    Ok(true)
}

/// Whether each number of steps of `spread_example` is as by searches from nothing.
fn spread_alike<R: Threads + Sync>(rt: &R, alloc: Global) -> Result<bool, Memory> {
    for steps in 1..5 {
        let plan = spread_example(alloc)?;
        let again = spread_example(alloc)?;
        if !alike(rt, alloc, plan, again, steps)? {
            return Ok(false);
        }
    }
    Ok(true)
}

/// Two columns that no step betters stay as they are.
#[test]
fn settled_plan(rt: HostRuntime) -> Result<(), Fail> {
    steps_keep_plans::<Five>();
    let plan = settled_example(rt.alloc())?;
    assert_eq!(rt;
        improvement(&rt, rt.alloc(), 3, plan, 20)?.as_slice(),
        [0, 0, 11, 0, 1, 99, 0, 6, 2, 3, 4, 99].as_slice()
    );
    Ok(())
}

/// On a tie the swap comes before the cut, and the swap of earlier columns first.
#[test]
fn swap_before_cut(rt: HostRuntime) -> Result<(), Fail> {
    let plan = tied_example(rt.alloc())?;
    assert_eq!(rt;
        improvement(&rt, rt.alloc(), 3, plan, 20)?.as_slice(),
        [1, 0, 6, 1, 2, 3, 99, 1, 10, 0, 99, 0, 10, 4, 99].as_slice()
    );
    Ok(())
}

/// Four swaps and a cut; the columns that become empty vanish.
#[test]
fn swaps_and_a_cut(rt: HostRuntime) -> Result<(), Fail> {
    let plan = mixed_example(rt.alloc())?;
    assert_eq!(rt;
        improvement(&rt, rt.alloc(), 3, plan, 20)?.as_slice(),
        [5, 0, 6, 0, 1, 2, 99, 0, 11, 3, 4, 99].as_slice()
    );
    Ok(())
}

/// Of equal swaps of the same columns the one with fewer items in front comes first.
#[test]
fn first_of_equal_swaps(rt: HostRuntime) -> Result<(), Fail> {
    let plan = crossed_example(rt.alloc())?;
    assert_eq!(rt;
        improvement(&rt, rt.alloc(), 1, plan, 20)?.as_slice(),
        [1, 0, 9, 0, 1, 3, 99, 1, 15, 2, 4, 99].as_slice()
    );
    Ok(())
}

/// Five swaps turn four columns into two; columns that become empty vanish.
#[test]
fn five_swaps(rt: HostRuntime) -> Result<(), Fail> {
    let plan = loose_example(rt.alloc())?;
    assert_eq!(rt;
        improvement(&rt, rt.alloc(), 3, plan, 20)?.as_slice(),
        [5, 0, 6, 0, 1, 2, 99, 0, 11, 3, 4, 99].as_slice()
    );
    Ok(())
}

/// No more steps are made than are allowed.
#[test]
fn two_of_five_swaps(rt: HostRuntime) -> Result<(), Fail> {
    let plan = loose_example(rt.alloc())?;
    assert_eq!(rt;
        improvement(&rt, rt.alloc(), 3, plan, 2)?.as_slice(),
        [2, 0, 17, 0, 3, 99, 1, 10, 1, 2, 4, 99].as_slice()
    );
    Ok(())
}

/// A whole column is cut into a cheaper class that has a place left.
#[test]
fn cut_into_another_class(rt: HostRuntime) -> Result<(), Fail> {
    let plan = dear_example(rt.alloc())?;
    assert_eq!(rt;
        improvement(&rt, rt.alloc(), 3, plan, 20)?.as_slice(),
        [1, 0, 11, 0, 1, 99, 0, 6, 2, 3, 4, 99].as_slice()
    );
    Ok(())
}

/// Into a full class nothing is cut.
#[test]
fn no_cut_into_a_full_class(rt: HostRuntime) -> Result<(), Fail> {
    let plan = dear_example(rt.alloc())?;
    assert_eq!(rt;
        improvement(&rt, rt.alloc(), 1, plan, 20)?.as_slice(),
        [0, 0, 11, 0, 1, 99, 1, 7, 2, 3, 4, 99].as_slice()
    );
    Ok(())
}

/// After each kind of step the next one is that which a search from nothing finds.
#[test]
fn steps_in_a_row(rt: HostRuntime) -> Result<(), Fail> {
    assert!(rt; mixed_alike(&rt, rt.alloc())?);
    Ok(())
}

/// A column that stands by is looked at with those that have changed.
#[test]
fn steps_beside_a_column(rt: HostRuntime) -> Result<(), Fail> {
    assert!(rt; spread_alike(&rt, rt.alloc())?);
    Ok(())
}
