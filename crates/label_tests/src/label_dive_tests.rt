//! Dives through the lists of a sample, beside the search for the least.

use crate::hauls::{Hauls, least};
use label_dive::{Guess, begins_within, dive_from_each, dive_from_least, likely};
use plan_core::Memory;
use std::alloc::Global;
use std::test::Fail;

/// The value of a guess.
fn value_of(guess: Option<Guess>) -> Option<i64> {
    match guess {
        None => None,
        Some(guess) => Some(guess.value),
    }
}

/// Whether a guess is there, and a value is from its floor to its own value, which is below 1,000.
fn holds(guess: Option<Guess>, value: i64) -> bool {
    match guess {
        None => false,
        Some(guess) => guess.floor <= value && value <= guess.value && guess.value < 1000,
    }
}

/// Whether dives find values of lists from the least on, and nothing that closes below it.
fn dives_hold(alloc: Global, hauls: &Hauls) -> Result<bool, Memory> {
    let Some(best) = least(alloc, hauls, [].as_slice(), 1000)? else {
        return Ok(false);
    };
    let low = best.saturating_sub(1);
    Ok(
        holds(dive_from_least(hauls, 1000), best)
            && holds(dive_from_each(hauls, 1000), best)
            && value_of(dive_from_each(hauls, low)) == Some(low),
    )
}

#[test]
fn dives_find_values_of_lists(rt: HostRuntime) -> Result<(), Fail> {
    for seed in 0..11u8 {
        for room in [3, 9, 20] {
            let hauls = Hauls {
                count: 8,
                seed,
                room,
            };
            assert!(rt; dives_hold(rt.alloc(), &hauls)?, "{seed}, {room}");
        }
    }
    Ok(())
}

#[test]
fn a_dive_from_each_list_is_at_least_as_low(rt: HostRuntime) -> Result<(), Fail> {
    let mut is_lower = false;
    for seed in 0..11u8 {
        let hauls = Hauls {
            count: 12,
            seed,
            room: 12,
        };
        let one = dive_from_least(&hauls, 1000);
        let each = dive_from_each(&hauls, 1000);
        assert!(rt; value_of(each) <= value_of(one), "{seed}");
        is_lower = is_lower || value_of(each) < value_of(one);
    }
    assert!(rt; is_lower);
    Ok(())
}

#[test]
fn no_guess_where_no_list_begins(rt: HostRuntime) -> Result<(), Fail> {
    let none = Hauls {
        count: 8,
        seed: 0,
        room: 0,
    };
    assert!(rt; !begins_within(&none, 1000) && dive_from_least(&none, 1000).is_none());
    let some = Hauls {
        count: 8,
        seed: 0,
        room: 9,
    };
    assert!(rt; begins_within(&some, 1000) && dive_from_each(&some, 1000).is_some());
    Ok(())
}

#[test]
fn limits_go_from_the_floor_to_the_value(rt: HostRuntime) -> Result<(), Fail> {
    let guess = Guess {
        floor: -100,
        value: 100,
    };
    assert!(rt; likely(Some(guess), 500, [0, 33]) == [-100, -34, 100]);
    assert!(rt; likely(Some(guess), 500, [60, 80]) == [20, 60, 100]);
    assert!(rt; likely(None, 500, [60, 80]) == [500; 3]);
    Ok(())
}
