//! The blocks and duties of a plan in printed order, and their tables compared with the plan's.
#![tactic(auto)]

ghost use Rattle.std.specs.Prelude.{◌≡◌, ◌≤◌, ◌<◌, ◌+◌, ◌^◌, ◌⊎◌, All, false, IfErr, IfOk, IfSome, Some, None, codes, true, length, map};
ghost use Rattle.std.specs.List.{position_from};
ghost use Rattle.plan_core.specs.Limits.{most_items};
ghost use Rattle.cover_core.specs.FirstLeast.{AreCheap};
ghost use Rattle.cover_core.specs.Plans.{IsPlan, all_items};
ghost use Rattle.block_cut.specs.Cuts.{IsShift};
ghost use Rattle.block_cut.specs.Legs.{HasWorth, block_legs as legs_of_block};
ghost use Rattle.umlauf_write.specs.Printed.{printed};
ghost use Rattle.cert_check.specs.Judging as judging;
ghost use Rattle.cert_check.specs.Judging.{answer_in, blocks_in, duties_in, pieces_in};
ghost use Rattle.cert_check.specs.Reasons.{ArePlanAgain, HasDuties, HasTables, difference_in, duties_again, printed_pieces, tables_in};
ghost use Rattle.cert_check.specs.Steps.{IsCase, IsDifference, IsStop};

use crate::case::Case;
use crate::duties::{block_pieces, net_of, piece_number};
use crate::reason::Reason;
use crate::stop::Stop;
use block_cut::legs;
use cover_core::{Column, Items, Plan, Worth};
use day_model::Day;
use plan_check::{PlanVerdict, check_plan};
use plan_core::{Bytes, Leg, Memory, Piece, Seq};
use std::alloc::{AllocError, Global};
use table_differences::{Aside, Difference, first_difference};
use umlauf_write::{Answer, PlanText, in_printed_order, plan_tables};
use vdv451_text::Table;

/// A column once more.
fn copied_column(alloc: Global, column: &Column) -> Result<Column, Memory>
    ensures { IfOk result (λ copy. copy ≡ column.now) }
{
    Ok(Column {
        class: column.class,
        worth: column.worth,
        items: Items::from_slice(alloc, column.items.as_slice())?,
    })
}

/// A plan once more.
fn copied_plan(alloc: Global, plan: &Plan) -> Result<Plan, Memory>
    ensures { IfOk result (λ copy. copy ≡ plan.now) }
{
    let mut columns = Seq::new(alloc);
    for column in plan.columns.as_slice() {
        columns.push(copied_column(alloc, column)?)?;
    }
    Ok(Plan { columns })
}

/// The first trip of the block of a number, or 0 where there is none. Blocks are numbered from 1.
fn first_of_block(blocks: &[Column], number: u32) -> u32
    ensures { result ≡ judging.first_of_block blocks.now number }
{
    match blocks.get(number.saturating_sub(1) as usize) {
        None => 0,
        Some(block) => match block.items.as_slice() {
            [] => 0,
            [first, ..] => *first,
        },
    }
}

/// Whether a block begins with a trip; one without trips begins with 0.
fn begins_with(block: &Column, trip: u32) -> bool
    ensures { result ≡ judging.begins_with trip block.now }
{
    match block.items.as_slice() {
        [] => 0 == trip,
        [first, ..] => *first == trip,
    }
}

/// The place of the first block that begins with a trip, from 0, where there is one.
fn first_place(blocks: &[Column], trip: u32) -> Option<usize>
    ensures place { result ≡ position_from (judging.begins_with trip) 0 blocks.now }
    ensures within { IfSome result (λ place. place < length blocks.now) }
{
    blocks.iter().position(|block| begins_with(block, trip))
}

/// The place of the first block that begins with a trip, from 0; as many as there are blocks where none does.
fn place_of_first(blocks: &[Column], trip: u32) -> u32
    requires { length blocks.now ≤ most_items }
    ensures place { result ≡ judging.place_of_first blocks.now trip }
    ensures within { result ≤ most_items }
{
    match first_place(blocks, trip) {
        Some(place) => place as u32,
        None => blocks.len() as u32,
    }
}

/// The number that a piece has after the blocks are put in printed order and cut anew.
fn new_piece(
    blocks: &[Column],
    sorted: &[Column],
    pieces: &[Piece],
    anew: &[Piece],
    item: u32,
) -> u32
    requires sorted { sorted.now ≡ printed blocks.now }
    requires few { length sorted.now ≤ most_items }
    requires few_pieces { length anew.now ≤ most_items }
    requires item { item < length pieces.now }
    ensures { result ≡ judging.new_piece blocks.now pieces.now anew.now item }
{
    let piece = pieces[item as usize];
    let first = first_of_block(blocks, piece.block);
    let block = place_of_first(sorted, first) + 1;
    piece_number(anew, block, piece.index)
}

/// The numbers that pieces have after the blocks are put in printed order and cut anew.
fn new_pieces(
    alloc: Global,
    blocks: &[Column],
    sorted: &[Column],
    pieces: &[Piece],
    anew: &[Piece],
    items: &[u32],
) -> Result<Vec<u32>, AllocError>
    requires sorted { sorted.now ≡ printed blocks.now }
    requires few { length sorted.now ≤ most_items }
    requires few_pieces { length anew.now ≤ most_items }
    requires items { All (λ item. item < length pieces.now) items.now }
    ensures { IfOk result (λ numbers. numbers.items ≡ map (judging.new_piece blocks.now pieces.now anew.now) items.now) }
{
    let mut numbers = Vec::new(alloc);
    for item in items {
        numbers.push(new_piece(blocks, sorted, pieces, anew, *item))?;
    }
    Ok(numbers)
}

/// A duty over the pieces of the blocks in printed order.
fn printed_duty(
    alloc: Global,
    blocks: &[Column],
    sorted: &[Column],
    pieces: &[Piece],
    anew: &[Piece],
    duty: &Column,
) -> Result<Column, Memory>
    requires sorted { sorted.now ≡ printed blocks.now }
    requires few { length sorted.now ≤ most_items }
    requires few_pieces { length anew.now ≤ most_items }
    requires items { All (λ item. item < length pieces.now) duty.now.items }
    ensures { IfOk result (λ made. made ≡ judging.renumbered blocks.now pieces.now anew.now duty.now) }
{
    let numbers = new_pieces(alloc, blocks, sorted, pieces, anew, duty.items.as_slice())?;
    Ok(Column {
        class: duty.class,
        worth: duty.worth,
        items: Items::from_slice(alloc, numbers.as_slice())?,
    })
}

/// Duties over the pieces of the blocks in printed order.
fn renumbered_all(
    alloc: Global,
    blocks: &[Column],
    sorted: &[Column],
    pieces: &[Piece],
    anew: &[Piece],
    duties: &[Column],
) -> Result<Seq<Column>, Memory>
    requires sorted { sorted.now ≡ printed blocks.now }
    requires few { length sorted.now ≤ most_items }
    requires few_pieces { length anew.now ≤ most_items }
    requires items { All (λ duty. All (λ item. item < length pieces.now) duty.items) duties.now }
    ensures { IfOk result (λ made. made ≡ map (judging.renumbered blocks.now pieces.now anew.now) duties.now) }
{
    let mut made = Seq::new(alloc);
    for duty in duties {
        made.push(printed_duty(alloc, blocks, sorted, pieces, anew, duty)?)?;
    }
    Ok(made)
}

/// The legs of each of some blocks.
fn block_legs(alloc: Global, day: &Day, blocks: &[Column]) -> Result<Seq<Seq<Leg>>, Memory>
    requires { All (HasWorth day.now) blocks.now }
    ensures { IfOk result (λ all. all ≡ map (legs_of_block day.now) blocks.now) }
{
    let mut all = Seq::new(alloc);
    for block in blocks {
        all.push(legs(alloc, day, block)?)?;
    }
    Ok(all)
}

/// What is printed of blocks and duties: both in printed order, the blocks with their legs and pieces, and the bounds as the tables say
/// them.
fn printed_answer(
    alloc: Global,
    case: &Case<'_>,
    text: &PlanText,
    blocks: &Plan,
    pieces: &[Piece],
    duties: &Plan,
) -> Result<Answer, Memory>
    requires plan { IsPlan (blocks_in case.now false) blocks.now.columns }
    requires pieces { pieces.now ≡ pieces_in case.now blocks.now.columns }
    requires duties { IsPlan (duties_in case.now pieces.now false) duties.now.columns }
    requires few_blocks { length blocks.now.columns ≤ most_items }
    ensures answer { IfOk result (λ answer. answer ≡ answer_in case.now (printed blocks.now.columns) (duties_again case.now blocks.now duties.now) text.now.bounds) }
    ensures shifts { IfOk result (λ answer. All IsShift answer.pieces) }
    ensures few { IfOk result (λ answer. length answer.pieces ≤ most_items) }
{
    let sorted = in_printed_order(copied_plan(alloc, blocks)?)?;
    let anew = block_pieces(alloc, case, &sorted)?;
    let again = renumbered_all(
        alloc,
        blocks.columns.as_slice(),
        sorted.columns.as_slice(),
        pieces,
        anew.as_slice(),
        duties.columns.as_slice(),
    )?;
    let legs = block_legs(alloc, case.day, sorted.columns.as_slice())?;
    let bounds = text.bounds.with_items(text.bounds.as_slice())?;
    Ok(Answer {
        blocks: sorted,
        legs,
        pieces: anew,
        duties: in_printed_order(Plan { columns: again })?,
        bounds,
    })
}

/// The reason that tables differ at a place.
fn difference_reason(made: &[Table], difference: Difference) -> Result<Reason, Memory>
    requires table { difference.table < length made.now }
    ensures { IfOk result (λ reason. IsDifference made.now difference reason) }
{
    Ok(Reason::PlanDiffers {
        table: made[difference.table].name.clone()?,
        row: difference.row.min(4294967295) as u32,
    })
}

/// Compares the plan's tables with those that its blocks and duties make in printed order.
fn same_tables(
    alloc: Global,
    case: &Case<'_>,
    text: &PlanText,
    blocks: &Plan,
    duties: &Plan,
    answer: &Answer,
) -> Result<(), Stop>
    requires case { IsCase case.now }
    requires has { HasDuties case.now text.now blocks.now duties.now }
    requires answer { answer.now ≡ answer_in case.now (printed blocks.now.columns) (duties_again case.now blocks.now duties.now) text.now.bounds }
    requires shifts { All IsShift answer.now.pieces }
    requires few_pieces { length (pieces_in case.now blocks.now.columns) ≤ most_items }
    requires few_blocks { length blocks.now.columns ≤ most_items }
    requires cheap_blocks { AreCheap blocks.now.columns }
    requires cheap_duties { AreCheap duties.now.columns }
    requires bounds { All (λ bound. bound < 2 ^ 63) text.now.bounds }
    ensures same { IfOk result (λ _. difference_in case.now text.now blocks.now duties.now ≡ None) }
    ensures stop { IfErr result (IsStop case.now) }
{
    let made = plan_tables(alloc, case.day, case.rec_frt, answer)?;
    let aside = Aside {
        table: b"X_SCHRANKE",
        column: b"SCHRANKE",
    };
    match first_difference(&aside, case.plan, made.as_slice()) {
        None => Ok(()),
        Some(difference) => Err(Stop::Against(difference_reason(made.as_slice(), difference)?)),
    }
}

/// Whether columns have these worths, each at its place.
fn have_worths(columns: &[Column], found: &[Column]) -> bool
    ensures { result ≡ judging.same_worths columns.now found.now }
{
    columns
        .iter()
        .zip(found)
        .all(|(column, other)| column.worth == other.worth)
}

/// Whether duties are a plan over pieces, with the costs that they have.
fn are_plan(
    alloc: Global,
    case: &Case<'_>,
    pieces: &Seq<Piece>,
    duties: &Plan,
) -> Result<bool, Memory>
    requires shifts { All IsShift pieces.now }
    requires few { length pieces.now ≤ most_items }
    requires lists { length duties.now.columns < 2 ^ 32 }
    requires items { length (all_items duties.now.columns) < 2 ^ 32 }
    ensures yes { IfOk result (λ yes. yes ≡ true → IsPlan (duties_in case.now pieces.now false) duties.now.columns) }
    ensures no { IfOk result (λ yes. yes ≡ false → IsPlan (duties_in case.now pieces.now false) duties.now.columns → ⊥) }
{
    let net = net_of(alloc, pieces, case.day.params(), Worth::Cost)?;
    match check_plan(alloc, &net, duties.columns.as_slice())? {
        PlanVerdict::Lawful(found) => Ok(have_worths(
            duties.columns.as_slice(),
            found.columns.as_slice(),
        )),
        _ => Ok(false),
    }
}

/// The name of the table of duties.
fn duty_name(alloc: Global) -> Result<Bytes, Memory>
    ensures { IfOk result (λ name. name ≡ codes "X_DIENST") }
{
    Ok(Bytes::from_vec(Vec::from_slice(alloc, b"X_DIENST")?))
}

/// The pieces of the blocks in printed order, where the plan's tables are those of its blocks and duties in printed order, or the first
/// place where they are not.
pub(crate) fn printed_plan(
    alloc: Global,
    case: &Case<'_>,
    text: &PlanText,
    blocks: &Plan,
    pieces: &[Piece],
    duties: &Plan,
) -> Result<Seq<Piece>, Stop>
    requires case { IsCase case.now }
    requires has { HasDuties case.now text.now blocks.now duties.now }
    requires pieces { pieces.now ≡ pieces_in case.now blocks.now.columns }
    requires few { length pieces.now ≤ most_items }
    requires few_blocks { length blocks.now.columns ≤ most_items }
    requires cheap_blocks { AreCheap blocks.now.columns }
    requires cheap_duties { AreCheap duties.now.columns }
    requires bounds { All (λ bound. bound < 2 ^ 63) text.now.bounds }
    ensures tables { IfOk result (λ _. HasTables case.now text.now blocks.now duties.now) }
    ensures pieces { IfOk result (λ anew. anew ≡ printed_pieces case.now blocks.now) }
    ensures shifts { IfOk result (λ anew. All IsShift anew) }
    ensures few { IfOk result (λ anew. length anew ≤ most_items) }
    ensures stop { IfErr result (IsStop case.now) }
{
    // The settings of a day have their ranges: it says so.
    let _ = case.day.params();
    let answer = printed_answer(alloc, case, text, blocks, pieces, duties)?;
    same_tables(alloc, case, text, blocks, duties, &answer)?;
    if are_plan(alloc, case, &answer.pieces, &answer.duties)? {
        Ok(answer.pieces)
    } else {
        Err(Stop::Against(Reason::PlanDiffers {
            table: duty_name(alloc)?,
            row: 0,
        }))
    }
}
