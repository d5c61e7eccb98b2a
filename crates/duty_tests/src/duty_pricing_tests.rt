//! The duties of least value of a small day, against a search through all its lists.

ghost use Rattle.plan_params.specs.Limits.{HaveRanges};

use crate::duty_nets::{GROUPS, net_of, round};
use cover_core::Worth;
use duty_network::DutyNet;
use duty_pricing::{DutyLabels, DutyPricer};
use label_search::{Found, search};
use plan_core::{Memory, Piece};
use plan_params::Params;
use small_networks::{STOP, driver_settings};
use std::alloc::Global;
use std::marker::{Send, Sync};
use std::test::Fail;
use tried_lists::{agrees, best, prices_of, searched};

/// A piece from the depot to the stop, one of another block from there to the depot, and the next one of the first block, where the later
/// two are put off.
fn pieces(alloc: Global, put_off: u16) -> Result<Vec<Piece>, Memory> {
    let later = u32::from(put_off);
    Ok(vec![in alloc;
        Piece {
            to: STOP,
            ..round(1, 1, 28_200, 32_400, 4_200)
        },
        Piece {
            from: STOP,
            ..round(2, 1, 32_900 + later, 36_500 + later, 3_600)
        },
        Piece {
            from: STOP,
            ..round(1, 2, 33_000 + later, 37_200 + later, 4_200)
        },
    ]?)
}

/// A day with its prices, and its least duty with the value.
#[derive(Clone, Copy)]
struct Case {
    put_off: u16,
    worth: Worth,
    prices: [i32; 3],
    value: i64,
    list: &'static [u32],
}

const fn make_case(
    put_off: u16,
    worth: Worth,
    prices: [i32; 3],
    value: i64,
    list: &'static [u32],
) -> Case {
    Case {
        put_off,
        worth,
        prices,
        value,
        list,
    }
}

fn crosses<T: Send + Sync>(_value: &T) {}

/// Whether the least duty is as it should be, and is the pricer's best exactly under the limits that its value is not above.
fn has_best(alloc: Global, net: &DutyNet<'_>, case: &Case) -> Result<bool, Fail> {
    let pricer = DutyPricer::new(net);
    crosses(&pricer);
    match searched(&pricer, 0, &case.prices) {
        None => Ok(false),
        Some(found) => Ok(
            found.value == case.value
                && found.list == case.list
                && agrees(alloc, &pricer, 0, &case.prices)?,
        ),
    }
}

/// Whether it is so under some settings.
fn has_best_under(alloc: Global, params: &Params, case: &Case) -> Result<bool, Fail>
    requires { HaveRanges params.now }
{
    let net = net_of(alloc, pieces(alloc, case.put_off)?, params, case.worth)?;
    has_best(alloc, &net, case)
}

fn is_right(alloc: Global, case: &Case) -> Result<bool, Fail> {
    let params = driver_settings(alloc, GROUPS)?;
    has_best_under(alloc, &params, case)
}

/// Where the later two pieces are in the evening, a duty over the first and one of them is lawful by its long pause alone.
fn are_right(alloc: Global) -> Result<bool, Fail> {
    let cases = [
        make_case(0, Worth::Cost, [5_200_001, 0, 5_200_000], -1, &[0, 2]),
        make_case(
            0,
            Worth::Cost,
            [5_000_000, 5_000_000, 5_700_000],
            -300_000,
            &[0, 1],
        ),
        make_case(0, Worth::Count, [600, 500, 500], -100, &[0, 1]),
        make_case(42_000, Worth::Count, [600, 500, 500], -100, &[0, 1]),
        make_case(0, Worth::Count, [0, 1_001, 0], -1, &[1]),
    ];
    for case in cases {
        if !is_right(alloc, &case)? {
            return Ok(false);
        }
    }
    Ok(true)
}

#[test]
fn the_best_duty_is_the_first_least(rt: HostRuntime) -> Result<(), Fail> {
    assert!(rt; are_right(rt.alloc())?);
    Ok(())
}

/// The first least of the lists of value 0 at most whose first piece is one from a first one on and before an end.
fn first_between(
    alloc: Global,
    net: &DutyNet<'_>,
    first: u32,
    end: u32,
) -> Result<Option<Found>, Memory> {
    let prices = prices_of(alloc, &[0, 1_001, 0])?;
    if net.pieces().len() != prices.items.len() || net.groups().is_empty() {
        return Ok(None);
    }
    let prices = prices.items.as_slice();
    let labels = DutyLabels::new(alloc, net, 0, prices, first, end, true)?;
    search(alloc, &labels, &[], 0)
}

/// Whether what was found is this list where there is one, else nothing.
fn is_list(found: &Option<Found>, list: Option<&[u32]>) -> bool {
    match (found, list) {
        (None, None) => true,
        (Some(found), Some(list)) => found.list.as_slice() == list,
        _ => false,
    }
}

/// Whether the first least of the lists that begin in a range is this one, if there is one.
fn has_first(
    alloc: Global,
    net: &DutyNet<'_>,
    first: u32,
    end: u32,
    list: Option<&[u32]>,
) -> Result<bool, Memory> {
    let found = first_between(alloc, net, first, end)?;
    Ok(net.pieces().len() == 3 && is_list(&found, list))
}

fn have_firsts_over(alloc: Global, net: &DutyNet<'_>) -> Result<bool, Fail> {
    Ok(
        has_first(alloc, net, 0, 1, Some(&[0, 1]))?
            && has_first(alloc, net, 1, 2, Some(&[1]))?
            && has_first(alloc, net, 2, 3, None)?
            && has_first(alloc, net, 0, 3, Some(&[1]))?,
    )
}

fn have_firsts_under(alloc: Global, params: &Params) -> Result<bool, Fail>
    requires { HaveRanges params.now }
{
    let net = net_of(alloc, pieces(alloc, 0)?, params, Worth::Count)?;
    have_firsts_over(alloc, &net)
}

fn have_firsts(alloc: Global) -> Result<bool, Fail> {
    let params = driver_settings(alloc, GROUPS)?;
    have_firsts_under(alloc, &params)
}

#[test]
fn lists_begin_in_their_range(rt: HostRuntime) -> Result<(), Fail> {
    assert!(rt; have_firsts(rt.alloc())?);
    Ok(())
}

/// Sixty pieces of one block, each of five minutes and ten minutes after the one before. Every list of them is a lawful duty.
fn sixty_pieces(alloc: Global) -> Result<Vec<Piece>, Memory> {
    let mut pieces = Vec::new(alloc);
    for index in 0..60 {
        let begin = 20_000 + 600 * index;
        pieces.push(round(1, index + 1, begin, begin + 300, 0))?;
    }
    Ok(pieces)
}

/// Whether a list has all sixty numbers from 0 on.
fn has_all(list: &[u32]) -> bool {
    for (place, item) in list.iter().enumerate() {
        if *item as usize != place {
            return false;
        }
    }
    list.len() == 60
}

/// Whether the best duty has all sixty pieces: each that is left out spares at most 600 and gives up a price of 1,000. A search through all
/// lists, one by one, would not end.
fn takes_all(alloc: Global, net: &DutyNet<'_>) -> Result<bool, Fail> {
    match best(alloc, &DutyPricer::new(net), 0, &[1_000_000; 60], -1)? {
        None => Ok(false),
        Some(duty) => Ok(duty.worth == 37_100 && has_all(duty.items.as_slice())),
    }
}

fn takes_all_under(alloc: Global, params: &Params) -> Result<bool, Fail>
    requires { HaveRanges params.now }
{
    let net = net_of(alloc, sixty_pieces(alloc)?, params, Worth::Cost)?;
    takes_all(alloc, &net)
}

fn are_all_taken(alloc: Global) -> Result<bool, Fail> {
    let params = driver_settings(alloc, GROUPS)?;
    takes_all_under(alloc, &params)
}

#[test]
fn worse_lists_are_left_behind(rt: HostRuntime) -> Result<(), Fail> {
    assert!(rt; are_all_taken(rt.alloc())?);
    Ok(())
}
