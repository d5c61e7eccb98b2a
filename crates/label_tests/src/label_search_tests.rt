//! Answers beside those of an enumeration of all lists, and of tables; large cases end at once.

ghost use Rattle.std.specs.Prelude.{◌≤◌};

use crate::hauls::{Hauls, least, toll, weight};
use crate::singles::Singles;
use crate::ways::Ways;
use label_search::{Found, best_column, cover_pays, rest, rests, search};
use plan_core::{Memory, Price};
use std::alloc::Global;
use std::test::Fail;

/// What a set of items costs as a way, where it is one.
fn way_value(set: u32, count: u32, seed: u8) -> Option<i64>
    requires { count ≤ 8 }
{
    let mut value: i64 = 0;
    let mut last = None;
    for item in 0..count {
        if (set >> item) % 2 == 1 {
            match last {
                None => {
                    if item > 0 {
                        return None;
                    }
                }
                Some(from) => value = value.saturating_add(toll(seed, from, item)),
            }
            last = Some(item);
        }
    }
    match last {
        Some(item) if item as u64 + 1 == count as u64 => Some(value),
        _ => None,
    }
}

/// What a set of items costs as a haul, where it is one.
fn haul_value(set: u32, count: u32, seed: u8, room: u32) -> Option<i64>
    requires { count ≤ 8 }
{
    let mut value: i64 = 0;
    let mut load: u32 = 0;
    let mut last = None;
    for item in 0..count {
        if (set >> item) % 2 == 1 {
            let from = match last {
                None => item,
                Some(from) => from,
            };
            value = value.saturating_add(toll(seed, from, item));
            load = load.saturating_add(weight(item));
            last = Some(item);
        }
    }
    if load > 0 && load < room {
        Some(value)
    } else {
        None
    }
}

/// The items of a set.
fn items_of(alloc: Global, set: u32) -> Result<Vec<u32>, Memory> {
    let mut list = Vec::new(alloc);
    for item in 0..8 {
        if (set >> item) % 2 == 1 {
            list.push(item)?;
        }
    }
    Ok(list)
}

/// The least cost of the ways of few items that is at most the limit, and the first set of items with it: sets are looked at in the
/// order of their lists compared from the last items backwards, which is that of the sets as binary numbers.
fn slow_way(count: u32, seed: u8, limit: i64) -> Option<(u32, i64)>
    requires { count ≤ 8 }
{
    let mut best: Option<(u32, i64)> = None;
    for set in 1..256 {
        best = earlier(best, set, way_value(set, count, seed), limit);
    }
    best
}

/// The same of hauls.
fn slow_haul(count: u32, seed: u8, room: u32, limit: i64) -> Option<(u32, i64)>
    requires { count ≤ 8 }
{
    let mut best: Option<(u32, i64)> = None;
    for set in 1..256 {
        if set >> count == 0 {
            best = earlier(best, set, haul_value(set, count, seed, room), limit);
        }
    }
    best
}

/// A set in place of the best one so far, where it costs less and at most the limit.
fn earlier(
    best: Option<(u32, i64)>,
    set: u32,
    value: Option<i64>,
    limit: i64,
) -> Option<(u32, i64)> {
    match (best, value) {
        (_, None) => best,
        (None, Some(value)) => {
            if value <= limit {
                Some((set, value))
            } else {
                None
            }
        }
        (Some(old), Some(value)) => {
            if value < old.1 {
                Some((set, value))
            } else {
                best
            }
        }
    }
}

/// Whether a search found the set of items that costs least, or nothing where there is none.
fn is_first_least(
    alloc: Global,
    found: Option<Found>,
    slow: Option<(u32, i64)>,
) -> Result<bool, Memory> {
    match (found, slow) {
        (None, None) => Ok(true),
        (Some(found), Some((set, value))) => {
            let list = items_of(alloc, set)?;
            Ok(found.value == value && found.list.as_slice() == list.as_slice())
        }
        _ => Ok(false),
    }
}

/// Whether the first least of all ways is found within a limit, with and without limits that are tried first.
fn ways_are_found(alloc: Global, count: u32, seed: u8, limit: i64) -> Result<bool, Memory>
    requires { count ≤ 8 }
{
    let ways = Ways { count, seed };
    let slow = slow_way(count, seed, limit);
    let plain = search(alloc, &ways, [].as_slice(), limit)?;
    let tried = search(alloc, &ways, [-8, 0, 3].as_slice(), limit)?;
    Ok(is_first_least(alloc, plain, slow)? && is_first_least(alloc, tried, slow)?)
}

#[test]
fn small_ways(rt: HostRuntime) -> Result<(), Fail> {
    for count in 1..9 {
        for seed in 0..11 {
            for limit in [-40, -9, -1, 0, 1, 5, 40] {
                assert!(rt;
                    ways_are_found(rt.alloc(), count, seed, limit)?,
                    "{count}, {seed}, {limit}"
                );
            }
        }
    }
    Ok(())
}

/// Whether the first least of all hauls is found within a limit.
fn hauls_are_found(
    alloc: Global,
    count: u32,
    seed: u8,
    room: u32,
    limit: i64,
) -> Result<bool, Memory>
    requires { count ≤ 8 }
{
    let hauls = Hauls { count, seed, room };
    let slow = slow_haul(count, seed, room, limit);
    let found = search(alloc, &hauls, [].as_slice(), limit)?;
    is_first_least(alloc, found, slow)
}

#[test]
fn small_hauls(rt: HostRuntime) -> Result<(), Fail> {
    for count in 1..9 {
        for seed in 0..11 {
            for room in [1, 2, 6, 11, 40] {
                for limit in [-40, -7, 0, 5] {
                    assert!(rt;
                        hauls_are_found(rt.alloc(), count, seed, room, limit)?,
                        "{count}, {seed}, {room}, {limit}"
                    );
                }
            }
        }
    }
    Ok(())
}

/// The least cost of a way of sixty items, by a table.
fn way_by_table(seed: u8) -> i64 {
    let mut least: [i64; 60] = [0; 60];
    for item in 1..60u32 {
        let mut best: i64 = 1000;
        for from in 0..item {
            best = best.min(least[from as usize].saturating_add(toll(seed, from, item)));
        }
        least[item as usize] = best;
    }
    least[59]
}

/// Whether the least way of sixty items is found, with and without limits that are tried first, and none below it.
fn large_way_is_found(alloc: Global, seed: u8) -> Result<bool, Memory> {
    let ways = Ways { count: 60, seed };
    let value = way_by_table(seed);
    let plain = least(alloc, &ways, [].as_slice(), 1000)?;
    let tried = least(alloc, &ways, [-100, -40].as_slice(), 1000)?;
    let below = least(alloc, &ways, [].as_slice(), value.saturating_sub(1))?;
    Ok(plain == Some(value) && tried == Some(value) && below.is_none())
}

/// Sixty items, without a resource: 2^58 ways.
#[test]
fn large_ways(rt: HostRuntime) -> Result<(), Fail> {
    for seed in 0..11 {
        assert!(rt; large_way_is_found(rt.alloc(), seed)?, "{seed}");
    }
    Ok(())
}

/// The least cost of a haul of sixty items, by a table over last items and loads.
fn haul_by_table(seed: u8, room: u32) -> i64
    requires { room ≤ 500 }
{
    let mut least: [i64; 30000] = [1000; 30000];
    let mut best: i64 = 1000;
    for item in 0..60u32 {
        for load in 0..room {
            let weight = weight(item);
            let mut here: i64 = 1000;
            if load == weight {
                here = toll(seed, item, item);
            }
            if load > weight {
                for from in 0..item {
                    let before = least[(from * 500 + (load - weight)) as usize];
                    if before < 1000 {
                        here = here.min(before.saturating_add(toll(seed, from, item)));
                    }
                }
            }
            least[(item * 500 + load) as usize] = here;
            best = best.min(here);
        }
    }
    best
}

/// Sixty items under a load: with room for all of them 2^60 lists are open.
#[test]
fn large_hauls(rt: HostRuntime) -> Result<(), Fail> {
    for (seed, room) in [(0, 60), (3, 60), (7, 421), (10, 421)] {
        let hauls = Hauls {
            count: 60,
            seed,
            room,
        };
        let found = least(rt.alloc(), &hauls, [].as_slice(), 1000)?;
        assert_eq!(rt; found, Some(haul_by_table(seed, room)));
    }
    Ok(())
}

/// Whether the column of the first least list is found within the limit, and none above it.
fn column_is_found(alloc: Global) -> Result<bool, Memory> {
    cover_pays::<Singles>();
    let singles = Singles { count: 3 };
    let above = best_column(alloc, &singles, &singles, 0, [].as_slice(), 999)?;
    if above.is_some() {
        return Ok(false);
    }
    match best_column(alloc, &singles, &singles, 0, [].as_slice(), 1000)? {
        Some(column) => Ok(
            column.class == 0 && column.worth == 1 && column.items.as_slice() == [0].as_slice(),
        ),
        None => Ok(false),
    }
}

#[test]
fn columns_of_lists(rt: HostRuntime) -> Result<(), Fail> {
    assert!(rt; column_is_found(rt.alloc())?);
    Ok(())
}

/// Whether the rests are what the later items can take off.
fn rests_are_right(alloc: Global) -> Result<bool, Memory> {
    let prices = [Price(5), Price(-7), Price(11), Price(2)];
    let rests = rests(alloc, prices.as_slice())?;
    let rests = rests.as_slice();
    Ok(rests == [-13, -13, -2, 0].as_slice() && rest(rests, 1) == -13 && rest(rests, 4) == 0)
}

#[test]
fn rests_of_prices(rt: HostRuntime) -> Result<(), Fail> {
    assert!(rt; rests_are_right(rt.alloc())?);
    Ok(())
}
