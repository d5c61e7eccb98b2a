//! The duties of a plan as its tables say them: whether they are a plan over the pieces of its blocks.
#![tactic(auto)]

ghost use Rattle.std.specs.Prelude.{◌≡◌, ◌≤◌, ◌<◌, ◌+◌, ◌^◌, All, false, IfErr, IfOk, Some, length, map, slice_get, slice_index};
ghost use Rattle.plan_core.specs.Limits.{most_items};
ghost use Rattle.cover_core.specs.FirstLeast.{AreCheap};
ghost use Rattle.cover_core.specs.Plans.{IsPlan, all_items};
ghost use Rattle.block_cut.specs.Cuts.{IsShift};
ghost use Rattle.plan_params.specs.Limits.{HaveRanges};
ghost use Rattle.duty_network.specs.Duties.{is_count};
ghost use Rattle.cert_check.specs.Judging as judging;
ghost use Rattle.cert_check.specs.Judging.{blocks_in, pieces_in};
ghost use Rattle.cert_check.specs.Reasons.{HasBlocks, HasDuties};
ghost use Rattle.cert_check.specs.Steps.{IsCase, IsStop};

use crate::case::Case;
use crate::reason::Reason;
use crate::stop::Stop;
use block_cut::cut;
use cover_core::{Column, Items, Plan, Worth};
use duty_network::DutyNet;
use plan_check::{PlanVerdict, check_plan};
use plan_core::{Memory, Piece, Seq};
use plan_params::{Group, Params};
use std::alloc::{AllocError, Global};
use umlauf_write::{DutyRow, PlanText};

/// The pieces of the blocks of a plan.
pub(crate) fn block_pieces(
    alloc: Global,
    case: &Case<'_>,
    blocks: &Plan,
) -> Result<Seq<Piece>, Memory>
    requires { IsPlan (blocks_in case.now false) blocks.now.columns }
    ensures pieces { IfOk result (λ pieces. pieces ≡ pieces_in case.now blocks.now.columns) }
    ensures shifts { IfOk result (λ pieces. All IsShift pieces) }
    ensures few { IfOk result (λ pieces. length pieces ≤ most_items) }
{
    // The trips of a day are few: it says so.
    let _ = case.day.trips();
    cut(alloc, case.day, blocks)
}

/// The duties over pieces, each worth its cost or 1.
pub(crate) fn net_of<'p>(
    alloc: Global,
    pieces: &Seq<Piece>,
    params: &'p Params,
    worth: Worth,
) -> Result<DutyNet<'p>, Memory>
    requires few { length pieces.now ≤ most_items }
    requires shifts { All IsShift pieces.now }
    requires params { HaveRanges params.now }
    ensures { IfOk result (λ net. net ≡ record { pieces = pieces.now; params = params.now; counts = is_count worth }) }
{
    let pieces = pieces.with_items(pieces.as_slice())?;
    DutyNet::new(alloc, pieces, params, worth)
}

/// The number of the piece of a block and index; as many as there are pieces where there is none.
pub(crate) fn piece_number(pieces: &[Piece], block: u32, index: u32) -> u32
    requires { length pieces.now ≤ most_items }
    ensures number { result ≡ judging.piece_number pieces.now block index }
{
    match pieces
        .iter()
        .position(|piece| piece.block == block && piece.index == index)
    {
        Some(place) => place as u32,
        None => pieces.len() as u32,
    }
}

/// The numbers of pieces that are named by block and index.
fn numbers_of(alloc: Global, pieces: &[Piece], parts: &[(u32, u32)]) -> Result<Vec<u32>, AllocError>
    requires { length pieces.now ≤ most_items }
    ensures { IfOk result (λ numbers. numbers.items ≡ map (judging.part_number pieces.now) parts.now) }
{
    parts
        .iter()
        .map(|part| piece_number(pieces, part.0, part.1))
        .collect(alloc)
}

/// The class of the group of a number, the first of several; 0 where there is none.
fn group_class(groups: &[Group], number: u32) -> u32
    requires { length groups.now ≤ 32 }
    ensures { result ≡ judging.class_of_group groups.now number }
{
    match groups.iter().position(|group| group.number == number) {
        Some(place) => place as u32,
        None => 0,
    }
}

/// A duty that the tables say, as a list of pieces.
fn duty_list(
    alloc: Global,
    groups: &[Group],
    pieces: &[Piece],
    duty: &DutyRow,
) -> Result<Column, Memory>
    requires groups { length groups.now ≤ 32 }
    requires pieces { length pieces.now ≤ most_items }
    ensures { IfOk result (λ list. list ≡ judging.duty_list groups.now pieces.now duty.now) }
{
    let numbers = numbers_of(alloc, pieces, duty.parts.as_slice())?;
    Ok(Column {
        class: group_class(groups, duty.group),
        worth: 0,
        items: Items::from_slice(alloc, numbers.as_slice())?,
    })
}

/// The duties that the tables say, as lists of pieces.
pub(crate) fn duty_lists(
    alloc: Global,
    groups: &[Group],
    pieces: &[Piece],
    duties: &[DutyRow],
) -> Result<Seq<Column>, Memory>
    requires groups { length groups.now ≤ 32 }
    requires pieces { length pieces.now ≤ most_items }
    ensures { IfOk result (λ lists. lists ≡ map (judging.duty_list groups.now pieces.now) duties.now) }
{
    let mut lists = Seq::new(alloc);
    for duty in duties {
        lists.push(duty_list(alloc, groups, pieces, duty)?)?;
    }
    Ok(lists)
}

/// The duties that the tables say, with their costs, or why they are no plan over the pieces of the blocks: a piece, a duty or a group.
pub(crate) fn lawful_duties(
    alloc: Global,
    case: &Case<'_>,
    text: &PlanText,
    blocks: &Plan,
    pieces: &Seq<Piece>,
) -> Result<Plan, Stop>
    requires case { IsCase case.now }
    requires blocks { HasBlocks case.now text.now blocks.now }
    requires pieces { pieces.now ≡ pieces_in case.now blocks.now.columns }
    requires shifts { All IsShift pieces.now }
    requires few { length pieces.now ≤ most_items }
    ensures duties { IfOk result (λ duties. HasDuties case.now text.now blocks.now duties) }
    ensures few { IfOk result (λ duties. length duties.columns ≤ most_items) }
    ensures cheap { IfOk result (λ duties. AreCheap duties.columns) }
    ensures stop { IfErr result (IsStop case.now) }
{
    let params = case.day.params();
    let net = net_of(alloc, pieces, params, Worth::Cost)?;
    let lists = duty_lists(
        alloc,
        params.groups(),
        pieces.as_slice(),
        text.duties.as_slice(),
    )?;
    match check_plan(alloc, &net, lists.as_slice())? {
        PlanVerdict::Lawful(duties) => Ok(duties),
        PlanVerdict::Times { item, count } => {
            let piece = pieces.as_slice()[item as usize];
            Err(Stop::Against(Reason::PieceTimes {
                block: piece.block,
                index: piece.index,
                times: count,
            }))
        }
        PlanVerdict::Unlawful { place } => {
            Err(Stop::Against(Reason::DutyUnlawful { duty: place + 1 }))
        }
        PlanVerdict::Over { class, used } => {
            let group = &params.groups()[class as usize];
            Err(Stop::Against(Reason::GroupOver {
                group: group.number,
                used,
                cap: group.cap,
            }))
        }
    }
}
