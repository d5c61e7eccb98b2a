//! Covers of the blocks of small days: trips from 1 to 2 and back, and a depot at 9.

ghost use Rattle.std.specs.Prelude.{◌≡◌, IfOk, true};
ghost use Rattle.plan_core.specs.Limits.{most_kept_price};
ghost use Rattle.cover_core.specs.FirstLeast.{AllWithin};
ghost use Rattle.mark_cover.specs.Searches.{AreThere};
ghost use Rattle.depot_network.specs.BlockMarks.{block_marking};

use crate::days::day;
use block_cover::{block_cover_is_paid, first_block_gap, make_block_cover};
use cover_core::{BlockCover, BlockMark, Columns, CoverFault, Gap, Prices, Worth};
use depot_network::PoolNet;
use plan_core::{Memory, Price, Seq};
use std::alloc::Global;
use std::test::Fail;

/// The prices of two trips.
fn two_prices(alloc: Global, first: i32, second: i32) -> Result<Prices, Memory>
    ensures { IfOk result (λ prices. AllWithin most_kept_price prices.items) }
{
    Ok(Prices {
        items: Seq::from_vec(vec![in alloc; Price(i64::from(first)), Price(i64::from(second))]?),
    })
}

/// What is made: marks, each with its trip, driving and value, or an unpaid block with its worth and its number of trips.
#[derive(Clone, Copy, PartialEq, Eq)]
enum Made {
    /// How many marks there are, and the first two.
    Marks(usize, [Option<BlockMark>; 2]),
    /// The worth of the block, and how many trips it has.
    Unpaid(u64, usize),
    /// Out of memory.
    Memory,
}

/// The first two marks.
fn front(marks: &[BlockMark]) -> [Option<BlockMark>; 2] {
    match marks {
        [] => [None, None],
        [first] => [Some(*first), None],
        [first, second, ..] => [Some(*first), Some(*second)],
    }
}

/// A mark of class 0.
const fn mark(trip: u32, driving: u32, value: i64) -> BlockMark {
    BlockMark {
        class: 0,
        trip,
        driving,
        value,
    }
}

const fn two_marks(first: BlockMark, second: BlockMark) -> Made {
    Made::Marks(2, [Some(first), Some(second)])
}

/// A day with the prices of its two trips, and a class price.
#[derive(Clone, Copy)]
struct Case {
    kind: u32,
    worth: Worth,
    prices: (i32, i32),
    class_price: i64,
}

const fn make_case(kind: u32, worth: Worth, prices: (i32, i32), class_price: i64) -> Case {
    Case {
        kind,
        worth,
        prices,
        class_price,
    }
}

/// What an answer tells.
fn outcome_of(answer: Result<BlockCover, CoverFault>) -> Made {
    match answer {
        Ok(cover) => Made::Marks(cover.marks.len(), front(cover.marks.as_slice())),
        Err(CoverFault::Unpaid { column }) => Made::Unpaid(
            column.worth,
            column.items.as_slice().len(),
        ),
        Err(CoverFault::Memory) => Made::Memory,
    }
}

/// What is made of a day's blocks.
fn what_is_made(alloc: Global, case: &Case) -> Result<Made, Fail> {
    let prices = two_prices(alloc, case.prices.0, case.prices.1)?;
    let day = day(alloc, case.kind)?;
    let net = PoolNet::new(&day, case.worth);
    Ok(outcome_of(make_block_cover(alloc, &net, &prices, &[case.class_price])))
}

/// Whether this is made of days' blocks.
fn are_made(alloc: Global, rows: &[(Case, Made)]) -> Result<bool, Fail> {
    for (case, wanted) in rows {
        if what_is_made(alloc, case)? != *wanted {
            return Ok(false);
        }
    }
    Ok(true)
}

fn covers_are_least(alloc: Global) -> Result<bool, Fail> {
    let count = |kind: u32| make_case(kind, Worth::Count, (500, 500), 0);
    are_made(
        alloc,
        &[
            (count(1), two_marks(mark(0, 4_200, 500), mark(1, 3_600, 0))),
            (
                make_case(1, Worth::Cost, (1_100_000, 1_100_000), 0),
                two_marks(mark(0, 4_200, 500_000), mark(1, 3_600, -600_000)),
            ),
            (count(3), two_marks(mark(0, 16_200, 500), mark(1, 3_600, 0))),
            (count(4), Made::Marks(1, [Some(mark(1, 4_500, 500)), None])),
        ],
    )
}

#[test]
fn least_covers(rt: HostRuntime) -> Result<(), Fail> {
    block_cover_is_paid();
    assert!(rt; covers_are_least(rt.alloc())?);
    Ok(())
}

fn blocks_are_unpaid(alloc: Global) -> Result<bool, Fail> {
    let high = |class_price: i64| make_case(1, Worth::Cost, (1_101_000, 1_100_000), class_price);
    let paid = two_marks(mark(0, 4_200, 499_000), mark(1, 3_600, -601_000));
    are_made(
        alloc,
        &[
            (high(0), Made::Unpaid(2_200, 2)),
            (high(1_000), paid),
            (high(i64::MAX), paid),
            (
                make_case(1, Worth::Cost, (0, 0), i64::MIN),
                Made::Unpaid(2_200, 2),
            ),
        ],
    )
}

#[test]
fn unpaid_blocks(rt: HostRuntime) -> Result<(), Fail> {
    assert!(rt; blocks_are_unpaid(rt.alloc())?);
    Ok(())
}

/// Whether the classes and trips of marks are there.
fn are_there(net: &PoolNet<'_>, prices: &Prices, marks: &[BlockMark]) -> bool
    ensures { result ≡ true → AreThere (block_marking net.now.day net.now.counts prices.now.items) marks.now }
{
    for place in 0..marks.len() {
        if marks[place].class >= net.classes() || marks[place].trip >= net.items() {
            return false;
        }
    }
    true
}

/// The first gap of a cover, if there is one, where the classes and trips of its marks are there.
fn gap_in(cover: &BlockCover, net: &PoolNet<'_>, prices: &Prices) -> Option<Option<Gap>>
    requires { AllWithin most_kept_price prices.now.items }
{
    let marks = cover.marks.as_slice();
    if marks.len() < 4_294_967_296 && are_there(net, prices, marks) {
        Some(first_block_gap(cover, net, prices, &[0]))
    } else {
        None
    }
}

/// That of marks on day 1 at half a price a trip.
fn gap_of(alloc: Global, worth: Worth, marks: &[BlockMark]) -> Result<Option<Option<Gap>>, Fail> {
    let cover = BlockCover {
        marks: Seq::from_vec(Vec::from_slice(alloc, marks)?),
    };
    let prices = two_prices(alloc, 500, 500)?;
    let day = day(alloc, 1)?;
    Ok(gap_in(&cover, &PoolNet::new(&day, worth), &prices))
}

fn has_gap(
    alloc: Global,
    worth: Worth,
    marks: &[BlockMark],
    gap: Option<Gap>,
) -> Result<bool, Fail> {
    Ok(gap_of(alloc, worth, marks)? == Some(gap))
}

fn gaps_are_found(alloc: Global) -> Result<bool, Fail> {
    let first = mark(0, 4_200, 500);
    let start = Some(Gap::First { class: 0, piece: 1 });
    let next = Some(Gap::Next { place: 0, piece: 1 });
    let close = Some(Gap::Close { place: 1 });
    let wild = [mark(0, 4_294_967_295, i64::MIN), first, mark(1, 3_600, 0)];
    Ok(
        has_gap(alloc, Worth::Count, &[first, mark(1, 3_600, 0)], None)?
            && has_gap(alloc, Worth::Count, &[first], start)?
            && has_gap(alloc, Worth::Count, &[first, mark(1, 3_600, 1)], next)?
            && has_gap(alloc, Worth::Count, &[first, mark(1, 3_600, -1)], close)?
            && has_gap(alloc, Worth::Cost, &wild, None)?
            && gap_of(alloc, Worth::Count, &[mark(2, 0, 0)])? == None,
    )
}

#[test]
fn gaps(rt: HostRuntime) -> Result<(), Fail> {
    assert!(rt; gaps_are_found(rt.alloc())?);
    Ok(())
}
