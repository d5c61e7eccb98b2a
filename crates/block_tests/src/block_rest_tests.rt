//! Heads and rests of a small day: two trips from 1 to 2 and two back, and two pools at 9.

ghost use Rattle.std.specs.Prelude.{◌≡◌, ◌≤◌, ◌∷◌, [], Bool, IfOk, length};
ghost use Rattle.day_model.specs.Facts.{DayFacts};
ghost use Rattle.depot_network.specs.Network.{blocks_of};
ghost use Rattle.cover_rest.specs.Keeping.{AreHeads};
ghost use Rattle.block_rest.specs.Heads.{AreOfDay};
ghost use Rattle.block_rest.specs.Rest.{begun_of};

use crate::days::two_pool_day;
use block_rest::{BlockRest, Head, heads, heads_are_heads, kept_is_same_heads};
use cover_core::{Column, Columns, Items, Plan, Worth};
use cover_rest::rest_is_kept;
use day_model::Day;
use depot_network::PoolNet;
use plan_core::{Memory, Seq};
use std::alloc::Global;
use std::test::Fail;
use tried_lists::{agrees, worth_of};

/// A column.
fn column(alloc: Global, class: u32, worth: u64, items: &[u32]) -> Result<Column, Memory>
    ensures { IfOk result (λ column. column ≡ record { class = class; worth = worth; items = items.now }) }
{
    Ok(Column {
        class,
        worth,
        items: Items::from_slice(alloc, items)?,
    })
}

/// The plan before: the second block's first trip comes before the first one's.
fn earlier(alloc: Global, day: &Day) -> Result<Plan, Memory>
    requires pools { 2 ≤ length day.now.params.pools }
    requires trips { 4 ≤ length day.now.trips }
    ensures { IfOk result (λ plan. AreOfDay day.now plan.columns) }
{
    let mut columns = Seq::new(alloc);
    columns.push(column(alloc, 1, 0, &[1, 3])?)?;
    columns.push(column(alloc, 0, 0, &[0, 2])?)?;
    Ok(Plan { columns })
}

/// For each head its class, its trips, and 1 where it is finished.
fn heads_as_numbers(alloc: Global, heads: &[Head]) -> Result<Seq<u32>, Memory> {
    let mut numbers = Seq::new(alloc);
    for head in heads {
        numbers.push(head.class)?;
        for trip in head.trips.as_slice() {
            numbers.push(*trip)?;
        }
        numbers.push(u32::from(head.finished))?;
    }
    Ok(numbers)
}

fn has_heads(alloc: Global, day: &Day, moment: u32, expected: &[u32]) -> Result<bool, Memory> {
    if day.params().pools().len() < 2 || day.trips().len() < 4 {
        return Ok(false);
    }
    let earlier = earlier(alloc, day)?;
    let heads = heads(alloc, day, &earlier, moment)?;
    Ok(heads_as_numbers(alloc, heads.as_slice())?.as_slice() == expected)
}

fn has_all_heads(alloc: Global) -> Result<bool, Fail> {
    let day = two_pool_day(alloc)?;
    let rows: [(u32, &[u32]); 10] = [
        (28_200, &[]),
        (28_201, &[0, 0, 0]),
        (28_400, &[0, 0, 0]),
        (28_401, &[0, 0, 0, 1, 1, 0]),
        (32_400, &[0, 0, 0, 1, 1, 0]),
        (32_401, &[0, 0, 2, 0, 1, 1, 0]),
        (32_601, &[0, 0, 2, 0, 1, 1, 3, 0]),
        (36_600, &[0, 0, 2, 0, 1, 1, 3, 0]),
        (36_601, &[0, 0, 2, 1, 1, 1, 3, 0]),
        (36_801, &[0, 0, 2, 1, 1, 1, 3, 1]),
    ];
    for (moment, expected) in rows {
        if !has_heads(alloc, &day, moment, expected)? {
            return Ok(false);
        }
    }
    Ok(true)
}

#[test]
fn heads_are_what_has_begun(rt: HostRuntime) -> Result<(), Fail> {
    assert!(rt; has_all_heads(rt.alloc())?);
    Ok(())
}

fn head(alloc: Global, class: u32, trip: u32, finished: bool) -> Result<Head, Memory>
    ensures { IfOk result (λ head. head.trips ≡ trip ∷ []) }
{
    let mut trips = Seq::new(alloc);
    trips.push(trip)?;
    Ok(Head {
        class,
        trips,
        finished,
    })
}

/// A head of the first pool that goes on, and one of the second pool that may be finished.
fn two_heads(alloc: Global, finished: bool) -> Result<Seq<Head>, Memory>
    ensures { IfOk result (λ heads. (day : DayFacts) (counts : Bool) → 2 ≤ length day.trips → AreHeads (blocks_of day counts) (begun_of heads)) }
{
    let mut heads = Seq::new(alloc);
    heads.push(head(alloc, 0, 0, false)?)?;
    heads.push(head(alloc, 1, 1, finished)?)?;
    Ok(heads)
}

/// The rest of the day from a moment on, where the second head is finished or not.
fn rest_of<'d>(
    alloc: Global,
    day: &'d Day,
    finished: bool,
    moment: u32,
    worth: Worth,
) -> Result<Option<BlockRest<'d>>, Memory> {
    if day.trips().len() < 2 {
        return Ok(None);
    }
    let heads = two_heads(alloc, finished)?;
    Ok(Some(BlockRest::new(alloc, day, heads, moment, worth)?))
}

/// A class, a list, and what it is worth.
type Row = (u32, &'static [u32], Option<u64>);

fn has_worths(rest: &Option<BlockRest<'_>>, rows: &[Row]) -> bool {
    match rest {
        None => false,
        Some(rest) => {
            for (class, list, worth) in rows {
                if worth_of(rest, *class, list) != *worth {
                    return false;
                }
            }
            true
        }
    }
}

/// The items are the heads, and then trips 2 and 3.
fn lists_have_worths(alloc: Global) -> Result<bool, Fail> {
    let day = two_pool_day(alloc)?;
    let rest = rest_of(alloc, &day, true, 30_000, Worth::Cost)?;
    Ok(has_worths(
        &rest,
        &[
            (0, &[0], Some(2_500)),
            (0, &[0, 2], Some(2_200)),
            (1, &[0], None),
            (0, &[0, 1], None),
            (0, &[2, 0], None),
            (0, &[], None),
            (1, &[1], Some(1_500)),
            (1, &[1, 3], None),
            (0, &[2], Some(2_500)),
            (1, &[2], Some(1_500)),
            (1, &[3], Some(1_500)),
            (1, &[2, 3], None),
        ],
    ))
}

#[test]
fn lists_of_the_rest_have_worths(rt: HostRuntime) -> Result<(), Fail> {
    assert!(rt; lists_have_worths(rt.alloc())?);
    Ok(())
}

/// The pull-out to trip 2 leaves at 32,100.
fn late_lists_have_worths(alloc: Global) -> Result<bool, Fail> {
    let day = two_pool_day(alloc)?;
    let at = rest_of(alloc, &day, false, 32_100, Worth::Cost)?;
    let late = rest_of(alloc, &day, false, 32_101, Worth::Cost)?;
    let counted = rest_of(alloc, &day, false, 32_101, Worth::Count)?;
    Ok(
        has_worths(&at, &[(1, &[2], Some(1_500))])
            && has_worths(
                &late,
                &[
                    (1, &[2], None),
                    (1, &[3], Some(1_500)),
                    (0, &[0, 2], Some(2_200)),
                    (1, &[1, 3], Some(3_600)),
                ],
            )
            && has_worths(&counted, &[(1, &[1, 3], Some(1)), (1, &[2], None)]),
    )
}

#[test]
fn other_lists_leave_at_the_moment_or_later(rt: HostRuntime) -> Result<(), Fail> {
    assert!(rt; late_lists_have_worths(rt.alloc())?);
    Ok(())
}

/// One head of two trips, so that the items are this head, trip 1 and trip 3.
fn long_head(alloc: Global) -> Result<Seq<Head>, Memory>
    ensures { IfOk result (λ heads. (day : DayFacts) (counts : Bool) → 3 ≤ length day.trips → AreHeads (blocks_of day counts) (begun_of heads)) }
{
    let mut trips = Seq::new(alloc);
    trips.push(0)?;
    trips.push(2)?;
    let mut heads = Seq::new(alloc);
    heads.push(Head {
        class: 0,
        trips,
        finished: false,
    })?;
    Ok(heads)
}

/// The moment of a rest, how many trips the day has, the classes of the heads, and for each item the trips that it stands for.
fn stands_for(alloc: Global, rest: &BlockRest<'_>) -> Result<Seq<u32>, Memory> {
    let mut numbers = Seq::new(alloc);
    numbers.push(rest.moment())?;
    numbers.push(rest.day().trips().len() as u32)?;
    for head in rest.heads() {
        numbers.push(head.class)?;
    }
    for item in 0..rest.items() {
        for trip in rest.trips_of(item) {
            numbers.push(*trip)?;
        }
    }
    Ok(numbers)
}

/// The class and the trips of each column.
fn all_trips(alloc: Global, columns: &[Column]) -> Result<Seq<u32>, Memory> {
    let mut numbers = Seq::new(alloc);
    for column in columns {
        numbers.push(column.class)?;
        for trip in column.items.as_slice() {
            numbers.push(*trip)?;
        }
    }
    Ok(numbers)
}

/// The class and the trips of a column of the rest, written out, if its list has a worth.
fn column_as_numbers(
    alloc: Global,
    rest: &BlockRest<'_>,
    class: u32,
    list: &[u32],
) -> Result<Seq<u32>, Memory> {
    match worth_of(rest, class, list) {
        None => Ok(Seq::new(alloc)),
        Some(worth) => {
            let mut columns = Seq::new(alloc);
            columns.push(column(alloc, class, worth, list)?)?;
            let written = rest.expand(alloc, &Plan { columns })?;
            all_trips(alloc, written.columns.as_slice())
        }
    }
}

fn has_columns(alloc: Global, rest: &BlockRest<'_>) -> Result<bool, Memory> {
    let rows: [(u32, &[u32], &[u32]); 5] = [
        (0, &[0], &[0, 0, 2]),
        (1, &[1, 2], &[1, 1, 3]),
        (1, &[2], &[1, 3]),
        (1, &[0], &[]),
        (0, &[0, 1], &[]),
    ];
    for (class, list, trips) in rows {
        if column_as_numbers(alloc, rest, class, list)?.as_slice() != trips {
            return Ok(false);
        }
    }
    Ok(true)
}

fn has_items(alloc: Global, rest: &BlockRest<'_>) -> Result<bool, Memory> {
    let numbers = stands_for(alloc, rest)?;
    Ok(numbers.as_slice() == [28_400, 4, 0, 0, 2, 1, 3].as_slice())
}

/// The pull-out to trip 1 leaves at 28,400.
fn has_rest(alloc: Global) -> Result<bool, Fail> {
    let day = two_pool_day(alloc)?;
    if day.trips().len() < 3 {
        return Ok(false);
    }
    let rest = BlockRest::new(alloc, &day, long_head(alloc)?, 28_400, Worth::Cost)?;
    Ok(has_items(alloc, &rest)? && has_columns(alloc, &rest)?)
}

#[test]
fn items_stand_for_trips(rt: HostRuntime) -> Result<(), Fail> {
    assert!(rt; has_rest(rt.alloc())?);
    heads_are_heads();
    kept_is_same_heads();
    rest_is_kept::<PoolNet<'static>>();
    Ok(())
}

/// A rest of four items in a class, with the prices of these.
#[derive(Clone, Copy)]
struct Case {
    finished: bool,
    moment: u32,
    worth: Worth,
    class: u32,
    prices: [i32; 4],
}

const fn make_case(
    finished: bool,
    moment: u32,
    worth: Worth,
    class: u32,
    prices: [i32; 4],
) -> Case {
    Case {
        finished,
        moment,
        worth,
        class,
        prices,
    }
}

fn is_priced(alloc: Global, day: &Day, case: &Case) -> Result<bool, Memory> {
    match rest_of(alloc, day, case.finished, case.moment, case.worth)? {
        None => Ok(false),
        Some(rest) => agrees(alloc, &rest, case.class, &case.prices),
    }
}

fn are_priced(alloc: Global) -> Result<bool, Fail> {
    let day = two_pool_day(alloc)?;
    let cases = [
        make_case(false, 30_000, Worth::Cost, 0, [2_500_000; 4]),
        make_case(false, 30_000, Worth::Cost, 1, [2_500_000; 4]),
        make_case(true, 30_000, Worth::Cost, 1, [2_500_000; 4]),
        make_case(false, 32_101, Worth::Cost, 1, [0, -100_000, 2_000_000, 0]),
        make_case(false, 33_000, Worth::Cost, 0, [0, 0, 9_000_000, 9_000_000]),
        make_case(true, 33_000, Worth::Cost, 1, [0, 0, 9_000_000, 9_000_000]),
        make_case(false, 30_000, Worth::Count, 0, [0, 700, -50, 900]),
        make_case(true, 30_000, Worth::Count, 1, [500; 4]),
    ];
    for case in cases {
        if !is_priced(alloc, &day, &case)? {
            return Ok(false);
        }
    }
    Ok(true)
}

#[test]
fn the_best_is_that_of_a_search_over_all_lists(rt: HostRuntime) -> Result<(), Fail> {
    assert!(rt; are_priced(rt.alloc())?);
    Ok(())
}
