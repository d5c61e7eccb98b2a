//! The blocks of least value of small days, against a search through all their lists.

use crate::days::day;
use cover_core::{Columns, Worth};
use depot_network::PoolNet;
use path_pricing::PathPricer;
use plan_core::Memory;
use std::alloc::Global;
use std::test::Fail;
use tried_lists::{agrees, best, searched};

/// The worth of a block, and how many trips it has.
type Block = Option<(u64, usize)>;

/// The best block of the one pool and group.
fn best_of(
    alloc: Global,
    pricer: &PathPricer<'_>,
    prices: [i32; 2],
    limit: i64,
) -> Result<Block, Memory> {
    match best(alloc, pricer, 0, &prices, limit)? {
        None => Ok(None),
        Some(column) => Ok(Some((column.worth, column.items.as_slice().len()))),
    }
}

/// The best block of a day under two limits.
fn bests(
    alloc: Global,
    kind: u32,
    worth: Worth,
    prices: [i32; 2],
    limits: [i64; 2],
) -> Result<[Block; 2], Fail> {
    let day = day(alloc, kind)?;
    let net = PoolNet::new(&day, worth);
    let pricer = PathPricer::new(&net);
    let first = best_of(alloc, &pricer, prices, limits[0])?;
    let second = best_of(alloc, &pricer, prices, limits[1])?;
    Ok([first, second])
}

#[test]
fn a_value_may_equal_the_limit(rt: HostRuntime) -> Result<(), Fail> {
    let limits = [-2_800_000, -2_800_001];
    let bests = bests(rt.alloc(), 1, Worth::Cost, [2_500_000, 2_500_000], limits)?;
    assert!(rt; bests == [Some((2_200, 2)), None]);
    Ok(())
}

#[test]
fn blocks_that_are_counted(rt: HostRuntime) -> Result<(), Fail> {
    let bests = bests(rt.alloc(), 1, Worth::Count, [1_000, 1_000], [0, -1_001])?;
    assert!(rt; bests == [Some((1, 2)), None]);
    Ok(())
}

#[test]
fn a_trip_that_needs_the_next_one(rt: HostRuntime) -> Result<(), Fail> {
    let bests = bests(rt.alloc(), 3, Worth::Cost, [0, 2_500_000], [0, -300_001])?;
    assert!(rt; bests == [Some((2_200, 2)), None]);
    Ok(())
}

#[test]
fn a_trip_that_is_too_long(rt: HostRuntime) -> Result<(), Fail> {
    let bests = bests(rt.alloc(), 4, Worth::Cost, [9_000_000, 2_500_000], [0, -1])?;
    assert!(rt; bests == [Some((2_500, 1)), None]);
    Ok(())
}

/// Whether the pricer finds what a search through all lists does, which is some block.
fn is_best(alloc: Global, kind: u32, worth: Worth, prices: [i32; 4]) -> Result<bool, Fail> {
    let day = day(alloc, kind)?;
    let net = PoolNet::new(&day, worth);
    let pricer = PathPricer::new(&net);
    Ok(searched(&pricer, 0, &prices).is_some() && agrees(alloc, &pricer, 0, &prices)?)
}

fn are_best(alloc: Global) -> Result<bool, Fail> {
    let cases: [(u32, Worth, [i32; 4]); 8] = [
        (5, Worth::Cost, [2_500_000; 4]),
        (5, Worth::Cost, [900_000, -100_000, 2_000_000, 300_000]),
        (5, Worth::Count, [0, 700, -50, 900]),
        (6, Worth::Cost, [0, 2_600_000, 2_600_000, 0]),
        (6, Worth::Cost, [-300_000, 2_600_000, 2_600_000, 100_000]),
        (6, Worth::Count, [-1, 1_000, 1_000, -2]),
        (7, Worth::Cost, [2_500_000; 4]),
        (7, Worth::Count, [500; 4]),
    ];
    for (kind, worth, prices) in cases {
        if !is_best(alloc, kind, worth, prices)? {
            return Ok(false);
        }
    }
    Ok(true)
}

#[test]
fn the_best_is_that_of_a_search_over_all_lists(rt: HostRuntime) -> Result<(), Fail> {
    assert!(rt; are_best(rt.alloc())?);
    Ok(())
}

/// Takes what may cross threads.
fn crosses<T: Send + Sync>(_value: &T) {}

fn pricer_crosses(alloc: Global) -> Result<(), Fail> {
    let day = day(alloc, 1)?;
    let net = PoolNet::new(&day, Worth::Cost);
    crosses(&PathPricer::new(&net));
    Ok(())
}

#[test]
fn pricers_cross_threads(rt: HostRuntime) -> Result<(), Fail> {
    pricer_crosses(rt.alloc())
}
