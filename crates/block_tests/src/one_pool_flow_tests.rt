//! Small days with one pool, against plans that were found by going through all plans of paths.

use crate::days::rows_with;
use day_model::Day;
use one_pool_flow::{flow, flow_is_one, flow_plan_of_blocks, is_flow_day, plans_are_covers};
use plan_core::Memory;
use small_networks::{LineRows, Rows, line_day};
use std::alloc::Global;
use std::test::Fail;

/// On day 1 a trip back follows a trip from 1 to 2; on day 2 two trips go at the same time. Days 3 to 5 have six trips each. The depot is
/// 600 from 1 and 900 from 2.
const TRIPS: Rows = &[
    "1; 1; 28800; 1; 1; 1; 1; 1; ",
    "1; 2; 33000; 1; 1; 1; 1; 2; ",
    "1; 3; 28800; 1; 2; 1; 1; 1; ",
    "1; 4; 28800; 1; 2; 1; 1; 1; ",
    "1; 5; 29400; 1; 3; 1; 1; 2; ",
    "1; 6; 30600; 1; 3; 1; 1; 1; ",
    "1; 7; 31200; 1; 3; 1; 1; 2; ",
    "1; 8; 34800; 1; 3; 1; 1; 1; ",
    "1; 9; 38400; 1; 3; 1; 1; 2; ",
    "1; 10; 40800; 1; 3; 1; 1; 1; ",
    "1; 11; 31800; 1; 4; 1; 1; 2; ",
    "1; 12; 36000; 1; 4; 1; 1; 2; ",
    "1; 13; 36600; 1; 4; 1; 1; 2; ",
    "1; 14; 40200; 1; 4; 1; 1; 2; ",
    "1; 15; 40800; 1; 4; 1; 1; 1; ",
    "1; 16; 42000; 1; 4; 1; 1; 1; ",
    "1; 17; 34800; 1; 5; 1; 1; 1; ",
    "1; 18; 34800; 1; 5; 1; 1; 1; ",
    "1; 19; 38400; 1; 5; 1; 1; 1; ",
    "1; 20; 39000; 1; 5; 1; 1; 1; ",
    "1; 21; 41400; 1; 5; 1; 1; 2; ",
    "1; 22; 42600; 1; 5; 1; 1; 1; ",
];

/// The moves without passengers.
const MOVES: Rows = &[
    "1; 1; 1; 2; 9; 1; 1; 600",
    "1; 1; 1; 1; 1; 2; 9; 600",
    "1; 1; 1; 2; 9; 1; 2; 900",
    "1; 1; 1; 1; 2; 2; 9; 900",
    "1; 1; 1; 1; 1; 1; 2; 1200",
];

/// A flow plan as numbers: the trips of each path and -1, the prices of the trips and the class price. Only -2 where there is no plan, and
/// only -3 on a day that is no flow day.
fn spell(alloc: Global, day: &Day) -> Result<Vec<i64>, Memory> {
    let mut out = Vec::new(alloc);
    if !is_flow_day(day) {
        out.push(-3)?;
        return Ok(out);
    }
    match flow(alloc, day)? {
        None => out.push(-2)?,
        Some(plan) => {
            for path in plan.paths.as_slice() {
                for trip in path.as_slice() {
                    out.push(i64::from(*trip))?;
                }
                out.push(-1)?;
            }
            for price in plan.prices.items.as_slice() {
                out.push(price.0)?;
            }
            out.push(plan.class_price)?;
        }
    }
    Ok(out)
}

/// The day of a day type with these pools, and no drivers.
fn day_of(alloc: Global, pools: Rows, kind: u32) -> Result<Day, Fail> {
    let rows = LineRows {
        moves: MOVES,
        pools,
        drivers: &[],
        reliefs: &[],
        ..rows_with(TRIPS)
    };
    line_day(alloc, &rows, kind)
}

/// Pools, the day type, and its plan as numbers.
type Row = (Rows, u32, &'static [i64]);

fn have_plans(alloc: Global, rows: &[Row]) -> Result<bool, Fail> {
    for (pools, kind, plan) in rows {
        let day = day_of(alloc, *pools, *kind)?;
        if spell(alloc, &day)?.as_slice() != *plan {
            return Ok(false);
        }
    }
    Ok(true)
}

/// The trip back follows; one vehicle alone waits at point 2; with two vehicles none waits; two trips at the same time, and one vehicle;
/// two pools.
const PAIRS: [Row; 5] = [
    (
        &["1; 2; 9; 1; 2; 1000; 1; 0"],
        1,
        &[0, 1, -1, 0, 2_200_000, 0],
    ),
    (
        &["1; 2; 9; 1; 1; 0; 1; 4"],
        1,
        &[0, 1, -1, 2_400_000, 2_100_000, 900_000],
    ),
    (
        &["1; 2; 9; 1; 2; 0; 1; 4"],
        1,
        &[0, -1, 1, -1, 1_500_000, 1_500_000, 0],
    ),
    (&["1; 2; 9; 1; 1; 1000; 1; 0"], 2, &[-2]),
    (
        &["1; 2; 9; 1; 2; 1000; 1; 0", "2; 2; 9; 1; 2; 1000; 1; 0"],
        1,
        &[-3],
    ),
];

/// All vehicles are used, and of two plans of least cost the first one; one vehicle less; vehicles that are not used.
const USED: [Row; 3] = [
    (
        &["1; 2; 9; 1; 4; 0; 0; 1"],
        3,
        &[
            0, 3, -1, 1, 5, -1, 2, -1, 4, -1, 1_800_000, 1_800_000, 1_800_000, 1_800_000,
            1_800_000, 0, 1_800_000,
        ],
    ),
    (
        &["1; 2; 9; 1; 3; 0; 0; 1"],
        3,
        &[
            0, 3, -1, 1, 5, -1, 2, 4, -1, 1_800_000, 2_400_000, 2_400_000, 2_400_000, 2_400_000, 0,
            2_400_000,
        ],
    ),
    (
        &["1; 2; 9; 1; 6; 3000; 2; 0"],
        3,
        &[
            0, 3, -1, 1, 4, -1, 2, 5, -1, 600_000, 600_000, 3_600_000, 6_000_000, 4_800_000,
            3_000_000, 0,
        ],
    ),
];

/// Just enough vehicles; too few; nothing costs anything, so that the first plan of all is taken.
const ENOUGH: [Row; 3] = [
    (
        &["1; 2; 9; 1; 3; 500; 0; 1"],
        4,
        &[
            0, 3, -1, 1, 4, -1, 2, 5, -1, 3_600_000, 2_400_000, 1_800_000, 3_600_000, 2_400_000,
            3_600_000, 3_100_000,
        ],
    ),
    (&["1; 2; 9; 1; 2; 500; 0; 1"], 4, &[-2]),
    (
        &["1; 2; 9; 1; 6; 0; 0; 0"],
        4,
        &[0, 3, -1, 1, 4, -1, 2, 5, -1, 0, 0, 0, 0, 0, 0, 0],
    ),
];

/// Two trips at the same time, and another pair; one vehicle more.
const TWINS: [Row; 2] = [
    (
        &["1; 2; 9; 1; 4; 3000; 1; 4"],
        5,
        &[
            0, 4, -1, 1, 5, -1, 2, -1, 3, -1, 12_000_000, 12_000_000, 12_000_000, 12_000_000,
            11_700_000, 1_500_000, 7_500_000,
        ],
    ),
    (
        &["1; 2; 9; 1; 5; 3000; 1; 4"],
        5,
        &[
            0, 5, -1, 1, -1, 2, -1, 3, -1, 4, -1, 4_500_000, 4_500_000, 4_500_000, 4_500_000,
            4_500_000, 1_500_000, 0,
        ],
    ),
];

#[test]
fn finds_the_first_plan_of_least_cost(rt: HostRuntime) -> Result<(), Fail> {
    flow_is_one();
    flow_plan_of_blocks();
    plans_are_covers();
    assert!(rt; have_plans(rt.alloc(), &PAIRS)?);
    assert!(rt; have_plans(rt.alloc(), &USED)?);
    assert!(rt; have_plans(rt.alloc(), &ENOUGH)?);
    assert!(rt; have_plans(rt.alloc(), &TWINS)?);
    Ok(())
}
