//! Worked duties: their verdicts, sign-on and sign-off, worths, and what is left between pieces.

ghost use Rattle.plan_params.specs.Limits.{HaveRanges};

use crate::duty_nets::{GROUPS, net_of, round};
use cover_core::{Columns, Worth};
use duty_network::DutyNet;
use eu561_rules::Verdict;
use plan_core::{Memory, Piece, Point, Sec};
use plan_params::Params;
use small_networks::{DEPOT, STOP, driver_settings};
use std::alloc::Global;
use std::marker::{Send, Sync};
use std::test::Fail;
use tried_lists::{are_there, worth_of};

/// A point from which drivers have no way.
const FAR: Point = Point { typ: 1, nr: 1 };

/// A piece that is all driving: its block and index, when it begins, how long it drives, from where and to where.
type Driven = (u32, u32, u16, u16, Point, Point);

fn piece(driven: Driven) -> Piece {
    let (block, index, begin, driving, from, to) = driven;
    let (begin, driving) = (u32::from(begin), u32::from(driving));
    Piece {
        from,
        to,
        ..round(block, index, begin, begin + driving, driving)
    }
}

/// A block that is cut once at the stop, one that is cut four times at the depot, and one that is cut twice there; a piece that begins
/// at the stop, and one that begins where drivers have no way.
fn pieces(alloc: Global) -> Result<Vec<Piece>, Memory> {
    let rows: [Driven; 12] = [
        (4, 1, 10_000, 16_200, DEPOT, DEPOT),
        (2, 1, 20_000, 3_600, DEPOT, DEPOT),
        (1, 1, 28_200, 4_200, DEPOT, STOP),
        (4, 2, 28_900, 16_200, DEPOT, DEPOT),
        (2, 2, 31_375, 3_600, DEPOT, DEPOT),
        (5, 1, 32_900, 3_600, STOP, DEPOT),
        (1, 2, 33_000, 4_200, STOP, DEPOT),
        (3, 1, 40_000, 3_600, FAR, DEPOT),
        (2, 3, 42_750, 3_600, DEPOT, DEPOT),
        (4, 3, 47_800, 3_600, DEPOT, DEPOT),
        (2, 4, 54_125, 3_600, DEPOT, DEPOT),
        (2, 5, 65_500, 3_600, DEPOT, DEPOT),
    ];
    let mut pieces = Vec::new(alloc);
    for row in rows {
        pieces.push(piece(row))?;
    }
    Ok(pieces)
}

/// The verdict on a list, and its sign-on and sign-off.
type Judged = (Option<Verdict>, Option<(Sec, Sec)>);

const NONE: Judged = (None, None);

fn lawful(on: i64, off: i64) -> Judged {
    (Some(Verdict::Lawful), Some((Sec(on), Sec(off))))
}

/// Fourteen hours less 400 seconds from sign-on to sign-off are too long without a reduced rest.
fn long_spread() -> Judged {
    let times = (Sec(19_400), Sec(69_400));
    (Some(Verdict::Art8 { spread: 50_000 }), Some(times))
}

/// Ten hours of driving are too much without an allowance.
fn driving() -> Judged {
    let times = (Sec(9_400), Sec(51_700));
    (Some(Verdict::Art6 { driving: 36_000 }), Some(times))
}

fn is_judged(net: &DutyNet<'_>, class: u32, list: &[u32], judged: Judged) -> bool {
    class < net.classes()
        && are_there(net, list)
        && net.verdict(class, list) == judged.0
        && net.span(class, list) == judged.1
}

/// Lists of the first group, which has no allowances, and of the others, which have.
fn has_verdicts(net: &DutyNet<'_>) -> bool {
    let rows: [(u32, &[u32], Judged); 11] = [
        (0, &[2, 6], lawful(27_600, 37_500)),
        (0, &[2], lawful(27_600, 33_900)),
        (0, &[6], lawful(31_200, 37_500)),
        (0, &[1, 4, 8, 10, 11], long_spread()),
        (0, &[0, 3, 9], driving()),
        (0, &[6, 2], NONE),
        (0, &[7], NONE),
        (0, &[], NONE),
        (2, &[1, 4, 8, 10, 11], lawful(19_400, 69_400)),
        (1, &[0, 3, 9], lawful(9_400, 51_700)),
        (2, &[0, 3, 9], driving()),
    ];
    for (class, list, judged) in rows {
        if !is_judged(net, class, list, judged) {
            return false;
        }
    }
    true
}

fn has_pauses(net: &DutyNet<'_>) -> bool {
    if net.pieces().len() != 12 {
        return false;
    }
    net.pause(2, 6) == Some(600)
        && net.pause(2, 5) == Some(200)
        && net.pause(1, 6) == Some(7_900)
        && net.pause(1, 7).is_none()
        && net.pause(6, 5).is_none()
}

fn has_worths(net: &DutyNet<'_>) -> bool {
    worth_of(net, 0, &[2, 6]) == Some(10_400)
        && worth_of(net, 0, &[0, 3, 9]).is_none()
        && worth_of(net, 1, &[0, 3, 9]) == Some(42_800)
}

fn crosses<T: Send + Sync>(_value: &T) {}

/// Whether the net answers as it should.
fn answers(net: &DutyNet<'_>) -> bool {
    crosses(net);
    net.groups().len() == 3 && has_verdicts(net) && has_pauses(net) && has_worths(net)
}

/// Whether the net over the pieces does under some settings.
fn answers_under(alloc: Global, params: &Params) -> Result<bool, Fail>
    requires { HaveRanges params.now }
{
    let net = net_of(alloc, pieces(alloc)?, params, Worth::Cost)?;
    Ok(answers(&net))
}

fn is_right(alloc: Global) -> Result<bool, Fail> {
    let params = driver_settings(alloc, GROUPS)?;
    answers_under(alloc, &params)
}

#[test]
fn worked_duties_are_judged(rt: HostRuntime) -> Result<(), Fail> {
    assert!(rt; is_right(rt.alloc())?);
    Ok(())
}
