//! Searches of a rest beside an enumeration of all its lists, prices of a rest, and its best list.

use crate::labellings::{Hauls, Singles, Ways};
use crate::rest_searches::{Case, agree, by_all_lists, cases, found, heads};
use cover_core::Column;
use cover_rest::{bodies, rest_is_kept};
use plan_core::{Memory, Price};
use rest_labels::{
    RestLabels, best_of_rest, ended_heads, rest_is_tied, spread_prices, starting_items,
};
use std::alloc::Global;
use std::test::Fail;

fn has_haul(alloc: Global, case: &Case, seed: u8, room: u32) -> Result<bool, Memory> {
    let hauls = Hauls {
        count: 8,
        seed,
        room,
    };
    let best = by_all_lists(alloc, case, seed, Some(&hauls))?;
    agree(alloc, found(alloc, &hauls, case)?, best)
}

fn has_hauls(alloc: Global, case: &Case) -> Result<bool, Memory> {
    for seed in 0..11 {
        for room in [4, 9, 40] {
            if !has_haul(alloc, case, seed, room)? {
                return Ok(false);
            }
        }
    }
    Ok(true)
}

/// Hauls of the rest: each list that a room allows.
#[test]
fn hauls_of_a_rest(rt: HostRuntime) -> Result<(), Fail> {
    rest_is_kept::<Singles>();
    rest_is_tied::<Hauls>();
    for case in cases() {
        assert!(rt; has_hauls(rt.alloc(), &case)?);
    }
    Ok(())
}

fn has_ways(alloc: Global, case: &Case) -> Result<bool, Memory> {
    for seed in 0..11 {
        let ways = Ways { count: 8, seed };
        let best = by_all_lists(alloc, case, seed, None)?;
        if !agree(alloc, found(alloc, &ways, case)?, best)? {
            return Ok(false);
        }
    }
    Ok(true)
}

/// Ways of the rest: those that begin with item 0 and end with item 7, tested on the way by what they can close with.
#[test]
fn ways_of_a_rest(rt: HostRuntime) -> Result<(), Fail> {
    for case in cases() {
        assert!(rt; has_ways(rt.alloc(), &case)?);
    }
    Ok(())
}

/// Whether prices are these.
fn are_prices(prices: &[Price], wanted: &[i64]) -> bool {
    if prices.len() != wanted.len() {
        return false;
    }
    for place in 0..prices.len() {
        if prices[place].0 != wanted[place] {
            return false;
        }
    }
    true
}

/// A head's price is put on its first item, and its other items cost nothing.
fn prices_are_spread(alloc: Global) -> Result<bool, Memory> {
    let heads = heads(alloc, (0, 1), (false, true))?;
    let bodies = bodies(alloc, &heads, 8)?;
    let prices = [
        Price(10),
        Price(-20),
        Price(30),
        Price(40),
        Price(50),
        Price(60),
        Price(70),
    ];
    let spread = spread_prices(alloc, bodies.as_slice(), &prices, 8)?;
    Ok(are_prices(spread.as_slice(), &[10, 30, 0, -20, 40, 50, 60, 70]))
}

/// The marks of the finished heads, and of the items with which lists of class 1 may begin.
fn heads_are_marked(alloc: Global) -> Result<bool, Memory> {
    let heads = heads(alloc, (0, 1), (false, true))?;
    let ended = ended_heads(alloc, &heads)?;
    let starts = starting_items(alloc, &heads, 1, &[true, false, true])?;
    Ok(
        ended.as_slice() == [false, true].as_slice()
            && starts.as_slice() == [false, true, true].as_slice(),
    )
}

#[test]
fn prices_of_a_rest(rt: HostRuntime) -> Result<(), Fail> {
    assert!(rt; prices_are_spread(rt.alloc())?);
    assert!(rt; heads_are_marked(rt.alloc())?);
    Ok(())
}

/// The best list of one item within a limit, where nothing has begun, and no list may begin with the first of three items.
fn best_single(alloc: Global, limit: i64) -> Result<Option<Column>, Memory> {
    let singles = Singles { count: 3 };
    let bodies = bodies(alloc, &[], 3)?;
    let starts = [false, true, true];
    let ended = ended_heads(alloc, &[])?;
    let labels = RestLabels {
        labels: &singles,
        bodies: bodies.as_slice(),
        starts: &starts,
        ended: ended.as_slice(),
        group: 0,
    };
    best_of_rest(alloc, &singles, &labels, 0, &[], limit)
}

/// The first list, within the limit and above it.
fn best_is_first(alloc: Global) -> Result<bool, Memory> {
    if best_single(alloc, 999)?.is_some() {
        return Ok(false);
    }
    Ok(match best_single(alloc, 1000)? {
        None => false,
        Some(column) => {
            column.class == 0 && column.worth == 1 && column.items.as_slice() == [1].as_slice()
        }
    })
}

#[test]
fn best_of_a_rest(rt: HostRuntime) -> Result<(), Fail> {
    assert!(rt; best_is_first(rt.alloc())?);
    Ok(())
}
