//! Heads and rests of a small day: four pieces from the depot to the depot, and two groups of drivers at home there.

ghost use Rattle.std.specs.Prelude.{◌≡◌, ◌≤◌, ◌∷◌, [], IfOk, length};
ghost use Rattle.duty_network.specs.Duties.{DutyFacts, duties};
ghost use Rattle.plan_params.specs.Limits.{HaveRanges};
ghost use Rattle.cover_rest.specs.Keeping.{AreHeads};
ghost use Rattle.duty_rest.specs.Rest.{begun_of};

use crate::duty_nets::{net_of, round};
use cover_core::{Column, Columns, Items, Plan, Worth};
use cover_rest::rest_is_kept;
use duty_network::DutyNet;
use duty_rest::{DutyHead, DutyRest, duty_heads, heads_are_heads, kept_leaves_none_begun};
use plan_core::{Memory, Piece, Seq};
use plan_params::Params;
use small_networks::{Rows, driver_settings};
use std::alloc::Global;
use std::test::Fail;
use tried_lists::{agrees, worth_of};
use umlauf_write::{DutyRow, PlanText};

/// Two groups of drivers, 7 and 8, sign on for 60 seconds and off for 100. A duty costs 500 and 1 a second.
const PAIR: Rows = &[
    "7; 2; 9; 2; 500; 1; 60; 100; 0; 0",
    "8; 2; 9; 2; 500; 1; 60; 100; 0; 0",
];

fn pieces(alloc: Global) -> Result<Vec<Piece>, Memory> {
    Ok(vec![in alloc;
        round(2, 1, 1_000, 2_000, 100),
        round(3, 1, 1_200, 1_300, 100),
        round(1, 1, 1_500, 3_000, 100),
        round(2, 2, 2_500, 4_000, 100),
    ]?)
}

fn block(alloc: Global, trips: &[u32]) -> Result<Column, Memory> {
    Ok(Column {
        class: 0,
        worth: 0,
        items: Items::from_slice(alloc, trips)?,
    })
}

/// Blocks with these trips.
fn blocks(alloc: Global, lists: &[&[u32]]) -> Result<Plan, Memory> {
    let mut columns = Seq::new(alloc);
    for list in lists {
        columns.push(block(alloc, *list)?)?;
    }
    Ok(Plan { columns })
}

/// A duty of a group with these parts.
fn row(alloc: Global, group: u32, parts: &[(u32, u32)]) -> Result<DutyRow, Memory> {
    let parts = Seq::from_vec(Vec::from_slice(alloc, parts)?);
    Ok(DutyRow { group, parts })
}

/// The plan before: its first block is now the second, and its second one the first. A group of the last duty is not there.
fn earlier(alloc: Global) -> Result<PlanText, Memory> {
    let mut duties = Seq::new(alloc);
    duties.push(row(alloc, 8, &[(2, 1)])?)?;
    duties.push(row(alloc, 7, &[(1, 1), (1, 2)])?)?;
    duties.push(row(alloc, 9, &[(1, 1)])?)?;
    Ok(PlanText {
        blocks: blocks(alloc, &[&[0, 3, 2], &[1]])?,
        duties,
        bounds: Seq::new(alloc),
    })
}

/// For each head its class, its pieces, and 1 where it is finished.
fn heads_as_numbers(alloc: Global, heads: &[DutyHead]) -> Result<Seq<u32>, Memory> {
    let mut numbers = Seq::new(alloc);
    for head in heads {
        numbers.push(head.class)?;
        for piece in head.pieces.as_slice() {
            numbers.push(*piece)?;
        }
        numbers.push(u32::from(head.finished))?;
    }
    Ok(numbers)
}

fn has_heads(alloc: Global, net: &DutyNet<'_>) -> Result<bool, Memory> {
    let blocks = blocks(alloc, &[&[1], &[0, 2], &[4]])?;
    let earlier = earlier(alloc)?;
    let rows: [(u32, &[u32]); 8] = [
        (1_000, &[]),
        (1_001, &[0, 0, 0]),
        (1_500, &[0, 0, 0]),
        (1_501, &[0, 0, 0, 1, 2, 0]),
        (2_500, &[0, 0, 0, 1, 2, 0]),
        (3_100, &[0, 0, 3, 0, 1, 2, 0]),
        (3_101, &[0, 0, 3, 0, 1, 2, 1]),
        (4_101, &[0, 0, 3, 1, 1, 2, 1]),
    ];
    let mut right = true;
    for (moment, expected) in rows {
        let heads = duty_heads(alloc, net, &blocks, &earlier, moment)?;
        right = right && heads_as_numbers(alloc, heads.as_slice())?.as_slice() == expected;
    }
    Ok(right)
}

fn head(alloc: Global, class: u32, piece: u32, finished: bool) -> Result<DutyHead, Memory>
    ensures { IfOk result (λ head. head.pieces ≡ piece ∷ []) }
{
    let mut pieces = Seq::new(alloc);
    pieces.push(piece)?;
    Ok(DutyHead {
        class,
        pieces,
        finished,
    })
}

/// A head of the first group that goes on, and one of the second group that is finished.
fn two_heads(alloc: Global) -> Result<Seq<DutyHead>, Memory>
    ensures { IfOk result (λ heads. (d : DutyFacts) → 3 ≤ length d.pieces → AreHeads (duties d) (begun_of heads)) }
{
    let mut heads = Seq::new(alloc);
    heads.push(head(alloc, 0, 0, false)?)?;
    heads.push(head(alloc, 1, 2, true)?)?;
    Ok(heads)
}

/// The items are the heads of pieces 0 and 2, and then pieces 1 and 3.
fn has_worths(rest: &DutyRest<'_>) -> bool {
    let rows: [(u32, &[u32], Option<u64>); 9] = [
        (0, &[0], Some(1_660)),
        (0, &[0, 3], Some(3_660)),
        (1, &[1], Some(2_160)),
        (1, &[2], Some(760)),
        (1, &[1, 3], None),
        (1, &[0], None),
        (0, &[0, 1], None),
        (0, &[3, 0], None),
        (0, &[], None),
    ];
    for (class, list, worth) in rows {
        if worth_of(rest, class, list) != worth {
            return false;
        }
    }
    true
}

/// The moment of a rest, how many pieces the day has, the classes of the heads, and for each item the pieces that it stands for.
fn stands_for(alloc: Global, rest: &DutyRest<'_>) -> Result<Seq<u32>, Memory> {
    let mut numbers = Seq::new(alloc);
    numbers.push(rest.moment())?;
    numbers.push(rest.net().pieces().len() as u32)?;
    for head in rest.heads() {
        numbers.push(head.class)?;
    }
    for item in 0..rest.items() {
        for piece in rest.pieces_of(item) {
            numbers.push(*piece)?;
        }
    }
    Ok(numbers)
}

/// The class, the worth and the pieces of each column.
fn numbers_of(alloc: Global, columns: &[Column]) -> Result<Seq<u64>, Memory> {
    let mut numbers = Seq::new(alloc);
    for column in columns {
        numbers.push(u64::from(column.class))?;
        numbers.push(column.worth)?;
        for piece in column.items.as_slice() {
            numbers.push(u64::from(*piece))?;
        }
    }
    Ok(numbers)
}

/// A column of the rest, written out, if its list has a worth.
fn column_as_numbers(
    alloc: Global,
    rest: &DutyRest<'_>,
    class: u32,
    list: &[u32],
) -> Result<Seq<u64>, Memory> {
    match worth_of(rest, class, list) {
        None => Ok(Seq::new(alloc)),
        Some(worth) => {
            let items = Items::from_slice(alloc, list)?;
            let mut columns = Seq::new(alloc);
            columns.push(Column {
                class,
                worth,
                items,
            })?;
            let written = rest.expand(alloc, &Plan { columns })?;
            numbers_of(alloc, written.columns.as_slice())
        }
    }
}

/// Whether the best lists of the rest are those of a search through all lists.
fn has_bests(alloc: Global, rest: &DutyRest<'_>) -> Result<bool, Memory> {
    let cases: [(u32, [i32; 4]); 5] = [
        (0, [2_000_000; 4]),
        (1, [3_000_000; 4]),
        (0, [0, 0, 0, 9_000_000]),
        (1, [9_000_000, -1, 800_000, 3_000_000]),
        (1, [0, 0, 9_000_000, 9_000_000]),
    ];
    for (class, prices) in cases {
        if !agrees(alloc, rest, class, &prices)? {
            return Ok(false);
        }
    }
    Ok(true)
}

fn is_right(alloc: Global, rest: &DutyRest<'_>) -> Result<bool, Memory> {
    let items = stands_for(alloc, rest)?;
    let written = column_as_numbers(alloc, rest, 0, &[0, 3])?;
    Ok(
        has_worths(rest)
            && has_bests(alloc, rest)?
            && items.as_slice() == [2_100, 4, 0, 1, 0, 2, 1, 3].as_slice()
            && written.as_slice() == [0, 3_660, 0, 3].as_slice(),
    )
}

fn has_rest(alloc: Global, net: &DutyNet<'_>) -> Result<bool, Memory> {
    if net.pieces().len() != 4 {
        return Ok(false);
    }
    let rest = DutyRest::new(alloc, net, two_heads(alloc)?, 2_100)?;
    is_right(alloc, &rest)
}

/// Whether the heads and the rest of the day are as they should be.
fn are_right_over(alloc: Global, net: &DutyNet<'_>) -> Result<bool, Fail> {
    Ok(has_heads(alloc, net)? && has_rest(alloc, net)?)
}

/// The same under some settings.
fn are_right_under(alloc: Global, params: &Params) -> Result<bool, Fail>
    requires { HaveRanges params.now }
{
    let net = net_of(alloc, pieces(alloc)?, params, Worth::Cost)?;
    are_right_over(alloc, &net)
}

fn are_right(alloc: Global) -> Result<bool, Fail> {
    let params = driver_settings(alloc, PAIR)?;
    are_right_under(alloc, &params)
}

#[test]
fn begun_duties_stay(rt: HostRuntime) -> Result<(), Fail> {
    assert!(rt; are_right(rt.alloc())?);
    heads_are_heads();
    kept_leaves_none_begun();
    rest_is_kept::<DutyNet<'static>>();
    Ok(())
}
