//! Searches by value beside searches that know none, and values that are looked for alone.

use crate::hauls::Hauls;
use crate::singles::Singles;
use label_search::{Found, search};
use plan_core::Memory;
use std::alloc::Global;
use std::test::Fail;
use tie_search::{Closing, best_column_by_value, first_closing, search_by_value};

/// Whether two searches found the same list with the same value, or both none.
fn is_same(a: Option<Found>, b: Option<Found>) -> bool {
    match (a, b) {
        (None, None) => true,
        (Some(a), Some(b)) => a.value == b.value && a.list.as_slice() == b.list.as_slice(),
        _ => false,
    }
}

/// Whether searches by a value and by each end, right or wrong, find what one without them does.
fn ends_change_nothing(
    alloc: Global,
    hauls: &Hauls,
    value: i64,
    limit: i64,
) -> Result<bool, Memory> {
    for end in 0..10 {
        let closing = Closing { value, end };
        let found = search_by_value(alloc, hauls, hauls, closing, limit)?;
        if !is_same(found, search(alloc, hauls, [].as_slice(), limit)?) {
            return Ok(false);
        }
    }
    Ok(true)
}

#[test]
fn closings_change_no_answer(rt: HostRuntime) -> Result<(), Fail> {
    for seed in 0..11u8 {
        for (room, limit) in [(1, 9), (6, -4), (11, 9), (40, 9), (40, -9)] {
            let hauls = Hauls {
                count: 8,
                seed,
                room,
            };
            for value in [i64::MIN, -30, -12, -8, -5, -4, -3, 0, 9, i64::MAX] {
                assert!(rt;
                    ends_change_nothing(rt.alloc(), &hauls, value, limit)?,
                    "{seed}, {room}, {limit}, {value}"
                );
            }
        }
    }
    Ok(())
}

/// The least value of the lists within a limit, and the first item behind the first of the lists with it.
fn least_closing(alloc: Global, hauls: &Hauls, limit: i64) -> Result<Option<Closing>, Memory> {
    match search(alloc, hauls, [].as_slice(), limit)? {
        None => Ok(None),
        Some(found) => match found.list.as_slice() {
            [] => Ok(None),
            [.., last] => Ok(Some(Closing {
                value: found.value,
                end: last.saturating_add(1),
            })),
        },
    }
}

/// The first least list ends no later than another one with its value: so the value alone is found with the end of that list.
#[test]
fn values_are_found_with_their_first_ends(rt: HostRuntime) -> Result<(), Fail> {
    for seed in 0..11u8 {
        for room in [1, 6, 11, 40] {
            for limit in [-40, -7, 0, 5] {
                let hauls = Hauls {
                    count: 9,
                    seed,
                    room,
                };
                let wanted = least_closing(rt.alloc(), &hauls, limit)?;
                for likely in [[limit, limit], [-100, limit], [limit, 100]] {
                    let found = first_closing(rt.alloc(), &hauls, likely.as_slice(), limit)?;
                    assert!(rt; found == wanted, "{seed}, {room}, {limit}");
                }
            }
        }
    }
    Ok(())
}

#[test]
fn no_limit_finds_no_value(rt: HostRuntime) -> Result<(), Fail> {
    let hauls = Hauls {
        count: 9,
        seed: 3,
        room: 40,
    };
    assert!(rt; first_closing(rt.alloc(), &hauls, [].as_slice(), 100)?.is_none());
    assert!(rt; first_closing(rt.alloc(), &hauls, [101].as_slice(), 100)?.is_none());
    Ok(())
}

/// Whether the column of the first least list is found by its value within the limit, and none above it.
fn column_is_found(alloc: Global) -> Result<bool, Memory> {
    let singles = Singles { count: 3 };
    let closing = Closing {
        value: 1000,
        end: 1,
    };
    let above = best_column_by_value(alloc, &singles, &singles, &singles, 0, closing, 999)?;
    if above.is_some() {
        return Ok(false);
    }
    match best_column_by_value(alloc, &singles, &singles, &singles, 0, closing, 1000)? {
        Some(column) => Ok(
            column.class == 0 && column.worth == 1 && column.items.as_slice() == [0].as_slice(),
        ),
        None => Ok(false),
    }
}

#[test]
fn columns_of_lists_by_value(rt: HostRuntime) -> Result<(), Fail> {
    assert!(rt; column_is_found(rt.alloc())?);
    Ok(())
}
