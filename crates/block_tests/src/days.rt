//! Small days: trips between 1 and 2, and a depot at 9.

use day_model::Day;
use small_networks::{LineRows, Rows, SHUTTLE, line_day};
use std::alloc::Global;
use std::test::Fail;

/// An hour from each point to the other, where a trip is not slower.
const RUN_TIMES: Rows = &[
    "1; 1; 1; 1; 1; 1; 2; 3600",
    "1; 1; 1; 1; 2; 1; 1; 3600",
    "1; 1; 2; 1; 1; 1; 2; 15600",
    "1; 1; 3; 1; 1; 1; 2; 15601",
    "1; 1; 4; 1; 1; 1; 2; 7201",
    "1; 1; 4; 1; 2; 1; 1; 7201",
];

/// On day 1 a trip from 1 to 2 ends at 32,400, and the trip back begins at 33,000; on day 2 at 40,000. The depot is 600 from 1 and 900
/// from 2. On day 3 the first trip takes so long that its piece drives for 16,200 seconds where it ends with the trip; on day 4 it takes a
/// second more. On days 5 to 7 there are four trips: one after another; one after another, each so long that the second and the third are
/// no block; and two twins at a time, of which lists have equal values. On day 8 trips 0 and 1 go from 1 to 2 and end at 32,400 and 32,600;
/// trips 2 and 3 go back from 33,000 and 33,200 to 36,600 and 36,800.
const TRIPS: Rows = &[
    "1; 1; 28800; 1; 1; 1; 1; 1; ",
    "1; 2; 33000; 1; 1; 1; 1; 2; ",
    "1; 7; 28800; 1; 2; 1; 1; 1; ",
    "1; 8; 40000; 1; 2; 1; 1; 2; ",
    "1; 11; 28800; 1; 3; 1; 2; 1; ",
    "1; 12; 45000; 1; 3; 1; 1; 2; ",
    "1; 13; 28800; 1; 4; 1; 3; 1; ",
    "1; 14; 45001; 1; 4; 1; 1; 2; ",
    "1; 21; 28800; 1; 5; 1; 1; 1; ",
    "1; 22; 33000; 1; 5; 1; 1; 2; ",
    "1; 23; 37000; 1; 5; 1; 1; 1; ",
    "1; 24; 41000; 1; 5; 1; 1; 2; ",
    "1; 31; 20000; 1; 6; 1; 4; 1; ",
    "1; 32; 27600; 1; 6; 1; 4; 2; ",
    "1; 33; 35200; 1; 6; 1; 4; 1; ",
    "1; 34; 42800; 1; 6; 1; 4; 2; ",
    "1; 41; 28800; 1; 7; 1; 1; 1; ",
    "1; 42; 28800; 1; 7; 1; 1; 1; ",
    "1; 43; 33000; 1; 7; 1; 1; 2; ",
    "1; 44; 33000; 1; 7; 1; 1; 2; ",
    "1; 51; 28800; 1; 8; 1; 1; 1; ",
    "1; 52; 29000; 1; 8; 1; 1; 1; ",
    "1; 53; 33000; 1; 8; 1; 1; 2; ",
    "1; 54; 33200; 1; 8; 1; 1; 2; ",
];

/// The second pool has no fixed cost, and its standing costs 4 a second.
const TWO_POOLS: Rows = &["1; 2; 9; 1; 2; 1000; 1; 0", "2; 2; 9; 1; 2; 0; 1; 4"];

/// The rows with these trips.
pub fn rows_with(trips: Rows) -> LineRows {
    LineRows {
        run_times: RUN_TIMES,
        trips,
        ..SHUTTLE
    }
}

/// The day of a day type, with one pool of two vehicles.
pub fn day(alloc: Global, kind: u32) -> Result<Day, Fail> {
    line_day(alloc, &rows_with(TRIPS), kind)
}

/// Day 8, with two pools.
pub fn two_pool_day(alloc: Global) -> Result<Day, Fail> {
    let rows = LineRows {
        pools: TWO_POOLS,
        ..rows_with(TRIPS)
    };
    line_day(alloc, &rows, 8)
}
