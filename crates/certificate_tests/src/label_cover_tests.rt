//! Covers of duties of small days: worked numbers, marks from outside, and a comparison with the marks of all open lists.

ghost use Rattle.std.specs.Prelude.{◌≡◌, ◌<◌, length, true};
ghost use Rattle.plan_core.specs.Limits.{most_kept_price};
ghost use Rattle.cover_core.specs.FirstLeast.{AllWithin};
ghost use Rattle.mark_cover.specs.Searches.{AreThere};
ghost use Rattle.plan_params.specs.Limits.{HaveRanges};
ghost use Rattle.label_cover.specs.Marked.{duty_marking};

use crate::duty_settings::{demonstration, net_of, pieces, prices_of, settings, two_prices};
use crate::list_marks::{all_marks, best_marks, mark};
use cover_core::{Column, Cover, CoverFault, Gap, Mark, Prices, Worth};
use duty_network::DutyNet;
use label_cover::{duty_cover_is_paid, first_gap, make_cover};
use plan_core::{Memory, Seq};
use plan_params::Params;
use std::alloc::Global;
use std::test::Fail;

/// Whether the classes and pieces of marks are there, and the marks are few.
fn are_there(net: &DutyNet<'_>, prices: &Prices, marks: &[Mark]) -> bool
    ensures there { result ≡ true → AreThere (duty_marking net.now prices.now.items) marks.now }
    ensures few { result ≡ true → length marks.now < 4294967296 }
{
    let _prices = prices;
    for place in 0..marks.len() {
        if marks[place].class as usize >= net.groups().len()
            || marks[place].piece as usize >= net.pieces().len()
        {
            return false;
        }
    }
    marks.len() < 4294967296
}

/// The first gap of marks, where their classes and pieces are there.
fn gap_of(
    net: &DutyNet<'_>,
    prices: &Prices,
    class_price: i64,
    marks: Vec<Mark>,
) -> Option<Option<Gap>>
    requires { AllWithin most_kept_price prices.now.items }
{
    let cover = Cover {
        marks: Seq::from_vec(marks),
    };
    if are_there(net, prices, cover.marks.as_slice()) {
        Some(first_gap(&cover, net, prices, &[class_price]))
    } else {
        None
    }
}

/// The marks of the open lists of two pieces that are counted, each of price 500: of the first piece, of both, and of the second.
fn counted_marks() -> [Mark; 3] {
    [
        mark(0, 27_600, 4_200, false, 4_200, false, 500),
        mark(1, 27_600, 8_400, false, 8_400, false, 0),
        mark(1, 31_200, 4_200, false, 4_200, false, 500),
    ]
}

/// These marks without the one at a place, with another one behind them.
fn marks_with_change(
    alloc: Global,
    marks: [Mark; 3],
    without: Option<usize>,
    with: Option<Mark>,
) -> Result<Vec<Mark>, Memory> {
    let mut left = Vec::new(alloc);
    for place in 0..3 {
        if without != Some(place) {
            left.push(marks[place])?;
        }
    }
    if let Some(mark) = with {
        left.push(mark)?;
    }
    Ok(left)
}

/// A mark of the first piece, as good as can be, with this sign-on and driving.
fn outside(start: i64, driving: u32) -> Mark {
    mark(0, start, driving, false, driving, false, i64::MIN)
}

/// A change of a cover, and its first gap then.
struct Change {
    class_price: i64,
    without: Option<usize>,
    with: Option<Mark>,
    gap: Option<Gap>,
}

/// The cover as it is, where a mark is missing, and where the class price is below 0.
fn fewer(place: usize) -> Change {
    let (class_price, without, gap) = match place {
        0 => (0, None, None),
        1 => (0, Some(0), Some(Gap::First { class: 0, piece: 0 })),
        2 => (0, Some(1), Some(Gap::Next { place: 0, piece: 1 })),
        3 => (0, Some(2), Some(Gap::First { class: 0, piece: 1 })),
        _ => (-1, None, Some(Gap::Close { place: 1 })),
    };
    Change {
        class_price,
        without,
        with: None,
        gap,
    }
}

/// The cover with a mark from outside with numbers at the ends of their ranges. A sign-on far in the past opens and closes nothing; one far
/// in the future does, since its spread is below 0.
fn more(place: usize) -> Change {
    let (with, gap) = match place {
        0 => (outside(i64::MIN, 0), None),
        1 => (outside(27_600, u32::MAX), None),
        _ => (outside(i64::MAX, 0), Some(Gap::Next { place: 3, piece: 1 })),
    };
    Change {
        class_price: 0,
        without: None,
        with: Some(with),
        gap,
    }
}

/// Whether a change has its gap.
fn has_gap(
    alloc: Global,
    net: &DutyNet<'_>,
    prices: &Prices,
    change: Change,
) -> Result<bool, Memory>
    requires { AllWithin most_kept_price prices.now.items }
{
    let Change {
        class_price,
        without,
        with,
        gap,
    } = change;
    let marks = marks_with_change(alloc, counted_marks(), without, with)?;
    Ok(gap_of(net, prices, class_price, marks) == Some(gap))
}

/// The first of the changes of the demonstration's cover that has another gap, the fewer marks before the more.
fn first_other(alloc: Global, net: &DutyNet<'_>, prices: &Prices) -> Result<Option<usize>, Fail>
    requires { AllWithin most_kept_price prices.now.items }
{
    for place in 0..8 {
        let change = if place < 5 {
            fewer(place)
        } else {
            more(place - 5)
        };
        if !has_gap(alloc, net, prices, change)? {
            return Ok(Some(place));
        }
    }
    Ok(None)
}

/// The same, with settings.
fn first_other_of(alloc: Global, params: &Params) -> Result<Option<usize>, Fail>
    requires { HaveRanges params.now }
{
    match net_of(alloc, demonstration(alloc)?, params, Worth::Count)? {
        Some(net) => first_other(alloc, &net, &two_prices(alloc, 500, 500)?),
        None => Ok(Some(8)),
    }
}

/// The same, with the settings of all tests.
fn first_other_change(alloc: Global) -> Result<Option<usize>, Fail> {
    let params = settings(alloc)?;
    first_other_of(alloc, &params)
}

/// What a cover without a gap shows, away from what is tried.
fn law() {
    duty_cover_is_paid();
}

#[test]
fn covers_and_gaps(rt: HostRuntime) -> Result<(), Fail> {
    law();
    assert_eq!(rt; first_other_change(rt.alloc())?, None);
    Ok(())
}

/// The marks of the cover, or the unpaid duty that there is.
fn cover_or_duty(
    alloc: Global,
    net: &DutyNet<'_>,
    prices: &Prices,
    class_price: i64,
) -> Result<Result<Vec<Mark>, Column>, Memory>
    requires { AllWithin most_kept_price prices.now.items }
{
    match make_cover(alloc, net, prices, &[class_price]) {
        Ok(cover) => {
            let Cover { marks } = cover;
            Ok(Ok(marks.into_vec()))
        }
        Err(CoverFault::Unpaid { column }) => Ok(Err(column)),
        Err(CoverFault::Memory) => Err(Memory),
    }
}

/// The unpaid duty, where there is one.
fn unpaid_of(alloc: Global, net: &DutyNet<'_>, prices: &Prices) -> Result<Option<Column>, Memory>
    requires { AllWithin most_kept_price prices.now.items }
{
    match cover_or_duty(alloc, net, prices, 0)? {
        Ok(_) => Ok(None),
        Err(column) => Ok(Some(column)),
    }
}

/// The unpaid duty of the demonstration, whose first piece has this price and the second one 5,200,000.
fn unpaid_at(alloc: Global, params: &Params, first: u32) -> Result<Option<Column>, Fail>
    requires { HaveRanges params.now }
{
    match net_of(alloc, demonstration(alloc)?, params, Worth::Cost)? {
        Some(net) => {
            let prices = two_prices(alloc, first, 5_200_000)?;
            Ok(unpaid_of(alloc, &net, &prices)?)
        }
        None => Err(Fail::new("these are no pieces")),
    }
}

/// Whether this is the duty over both pieces.
fn is_over_both(duty: &Option<Column>) -> bool {
    match duty {
        Some(column) => {
            column.class == 0
                && column.worth == 10_400
                && column.items.as_slice() == [0, 1].as_slice()
        }
        None => false,
    }
}

/// Whether all duties are paid with this price of the first piece.
fn are_paid_at(alloc: Global, params: &Params, first: u32) -> Result<bool, Fail>
    requires { HaveRanges params.now }
{
    let duty = unpaid_at(alloc, params, first)?;
    Ok(duty.is_none())
}

/// Whether the duty over both pieces is unpaid with this price of the first piece.
fn is_both_unpaid_at(alloc: Global, params: &Params, first: u32) -> Result<bool, Fail>
    requires { HaveRanges params.now }
{
    let duty = unpaid_at(alloc, params, first)?;
    Ok(is_over_both(&duty))
}

/// Whether the prices of the duty over both pieces may be as high as its cost of 10,400, and no higher.
fn is_found_under(alloc: Global, params: &Params) -> Result<bool, Fail>
    requires { HaveRanges params.now }
{
    Ok(are_paid_at(alloc, params, 5_200_000)? && is_both_unpaid_at(alloc, params, 5_200_001)?)
}

fn is_found(alloc: Global) -> Result<bool, Fail> {
    let params = settings(alloc)?;
    is_found_under(alloc, &params)
}

#[test]
fn unpaid_duties_are_found(rt: HostRuntime) -> Result<(), Fail> {
    assert!(rt; is_found(rt.alloc())?);
    Ok(())
}

/// A pause, how duties are worth, the prices of the three pieces, and how many marks the cover has.
#[derive(Clone, Copy)]
struct Case {
    pause: u16,
    worth: Worth,
    prices: [u32; 3],
    count: usize,
}

/// Pauses of some minutes, of a quarter of an hour, of a full break and of three hours.
fn case_at(place: usize) -> Case {
    let (pause, worth, prices, count) = match place {
        0 => (600, Worth::Count, [500; 3], 5),
        1 => (600, Worth::Cost, [0; 3], 3),
        2 => (1_300, Worth::Count, [500; 3], 5),
        3 => (1_300, Worth::Cost, [0; 3], 5),
        4 => (3_000, Worth::Cost, [0; 3], 3),
        5 => (3_000, Worth::Cost, [9_000_000; 3], 5),
        _ => (12_000, Worth::Cost, [0; 3], 5),
    };
    Case {
        pause,
        worth,
        prices,
        count,
    }
}

/// A class price that makes every duty paid.
const CLASS_PRICE: i64 = 1_000_000_000_000_000;

/// Whether these are the best of the marks of all lists, and so many.
fn are_best(
    alloc: Global,
    net: &DutyNet<'_>,
    prices: &Prices,
    marks: &[Mark],
    count: usize,
) -> Result<bool, Memory> {
    let all = all_marks(alloc, net, prices)?;
    let best = best_marks(alloc, all.as_slice())?;
    Ok(best.len() == count && marks == best.as_slice())
}

/// Whether the cover has the best of all marks, and no gap.
fn agrees_in(
    alloc: Global,
    net: &DutyNet<'_>,
    prices: &Prices,
    count: usize,
) -> Result<bool, Memory>
    requires { AllWithin most_kept_price prices.now.items }
{
    match cover_or_duty(alloc, net, prices, CLASS_PRICE)? {
        Ok(marks) => {
            let same = are_best(alloc, net, prices, marks.as_slice(), count)?;
            Ok(same && gap_of(net, prices, CLASS_PRICE, marks) == Some(None))
        }
        Err(_) => Ok(false),
    }
}

/// The same, for a case under settings.
fn agrees(alloc: Global, params: &Params, case: &Case) -> Result<bool, Memory>
    requires { HaveRanges params.now }
{
    match net_of(alloc, pieces(alloc, case.pause)?, params, case.worth)? {
        Some(net) => {
            let prices = prices_of(alloc, case.prices)?;
            agrees_in(alloc, &net, &prices, case.count)
        }
        None => Ok(false),
    }
}

/// The first case in which the cover does not agree, where there is one.
fn first_unlike_of(alloc: Global, params: &Params) -> Result<Option<usize>, Fail>
    requires { HaveRanges params.now }
{
    for place in 0..7 {
        let case = case_at(place);
        if !agrees(alloc, params, &case)? {
            return Ok(Some(place));
        }
    }
    Ok(None)
}

fn first_unlike(alloc: Global) -> Result<Option<usize>, Fail> {
    let params = settings(alloc)?;
    first_unlike_of(alloc, &params)
}

#[test]
fn marks_are_the_best_of_all(rt: HostRuntime) -> Result<(), Fail> {
    assert_eq!(rt; first_unlike(rt.alloc())?, None);
    Ok(())
}
