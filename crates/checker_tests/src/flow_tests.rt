//! The option `--flow` over the small network: the blocks of a day with one depot cost least, and their bound is their cost.

use crate::cert_tests::{Sets, is_checked};
use planner_runs::{
    Change, NO_CHANGE, ONE_FOR_BOTH, TOO_LONG, demo, has_part, is_plan_written, is_refused, text_on,
};
use std::alloc::Global;
use std::test::Fail;
use std::thread::Threads;

const POOL: &str = "rec; 1; 2; 9; 1; 2; 1000; 1; 0";

/// Vehicles cost nothing, stands cost, and there is one vehicle.
const ONE_CHEAP: &[Change] = &[(POOL, "rec; 1; 2; 9; 1; 1; 0; 1; 4")];

/// There are two of them.
const TWO_CHEAP: &[Change] = &[(POOL, "rec; 1; 2; 9; 1; 2; 0; 1; 4")];

/// There is a second pool of the same depot.
const TWO_POOLS: &[Change] = &[(
    "rec; 1; 2; 9; 1; 2; 1000; 1; 0\nend; 1\n",
    "rec; 1; 2; 9; 1; 2; 1000; 1; 0\nrec; 2; 2; 9; 1; 2; 1000; 1; 0\nend; 2\n",
)];

const FLOW: &[&str] = &["plan", "20260302", "--flow", "f"];

const PLAN: &[&str] = &["plan", "20260302", "f"];

/// With one price round and one lowering round.
const SHORT_FLOW: &[&str] = &[
    "plan", "--flow", "20260302", "--rounds", "1", "--lower", "1", "f",
];

/// Changes of the network, the cost of blocks that is its bound too, and the prices and the class price of the second pass.
type Row = (&'static [Change], &'static str, &'static str, &'static str);

const ROWS: [Row; 3] = [
    (
        NO_CHANGE,
        "rec; 2; 2200; 2200\r\n",
        "rec; 2; 1; 0\r\nrec; 2; 2; 2200000\r\n",
        "rec; 1; 1; 0\r\nrec; 2; 1; 0\r\n",
    ),
    (
        ONE_CHEAP,
        "rec; 2; 3600; 3600\r\n",
        "rec; 2; 1; 2400000\r\nrec; 2; 2; 2100000\r\n",
        "rec; 2; 1; 900000\r\n",
    ),
    (
        TWO_CHEAP,
        "rec; 2; 3000; 3000\r\n",
        "rec; 2; 1; 1500000\r\nrec; 2; 2; 1500000\r\n",
        "rec; 1; 1; 0\r\nrec; 2; 1; 0\r\n",
    ),
];

/// The network with some changes, its plan and its certificate.
fn sets_of<R: Threads + Sync>(rt: &R, alloc: Global, changes: &[Change]) -> Result<Sets, Fail> {
    Ok(Sets {
        planning: demo(alloc, changes)?,
        plan: text_on(rt, alloc, FLOW, changes)?,
        cert: text_on(rt, alloc, &["certify", "20260302", "f", "--flow"], changes)?,
    })
}

/// Whether the plan has this cost of blocks as its bound too, the certificate these prices and this class price of the second pass, and the
/// check says yes.
fn is_exact<R: Threads + Sync>(rt: &R, alloc: Global, row: Row) -> Result<bool, Fail> {
    let (changes, cost, prices, class_price) = row;
    let sets = sets_of(rt, alloc, changes)?;
    let is_told = has_part(sets.plan.as_slice(), cost)
        && (has_part(sets.cert.as_slice(), prices) && has_part(sets.cert.as_slice(), class_price));
    Ok(is_checked(rt, alloc, sets, "yes\n", "", [0; 5])? && is_told)
}

fn first_other<R: Threads + Sync>(
    rt: &R,
    alloc: Global,
    rows: &[Row],
) -> Result<Option<usize>, Fail> {
    for place in 0..rows.len() {
        if !is_exact(rt, alloc, rows[place])? {
            return Ok(Some(place));
        }
    }
    Ok(None)
}

/// Whether the blocks of one pool cost least, and are those of the plan that was worked out.
fn cost_least<R: Threads + Sync>(rt: &R, alloc: Global) -> Result<bool, Fail> {
    Ok(
        is_plan_written(rt, alloc, FLOW, NO_CHANGE)?
            && first_other(rt, alloc, ROWS.as_slice())?.is_none(),
    )
}

#[test]
fn blocks_of_one_pool_cost_least(rt: HostRuntime) -> Result<(), Fail> {
    assert!(rt; cost_least(&rt, rt.alloc())?);
    Ok(())
}

/// Whether two pools are planned alike with the flow and without.
fn are_alike<R: Threads + Sync>(rt: &R, alloc: Global) -> Result<bool, Fail> {
    let with = text_on(rt, alloc, FLOW, TWO_POOLS)?;
    Ok(text_on(rt, alloc, PLAN, TWO_POOLS)? == with)
}

fn changes_nothing<R: Threads + Sync>(rt: &R, alloc: Global) -> Result<bool, Fail> {
    let few = "no plan: vehicles bound 10 places 1\n";
    let left = "not placed: trip 1\n";
    Ok(
        are_alike(rt, alloc)?
            && is_refused(rt, alloc, SHORT_FLOW, ONE_FOR_BOTH, 5, few)?
            && is_refused(rt, alloc, SHORT_FLOW, TOO_LONG, 6, left)?,
    )
}

/// With two pools, without a plan of paths, and where a path is no block.
#[test]
fn elsewhere_the_flow_changes_nothing(rt: HostRuntime) -> Result<(), Fail> {
    assert!(rt; changes_nothing(&rt, rt.alloc())?);
    Ok(())
}
