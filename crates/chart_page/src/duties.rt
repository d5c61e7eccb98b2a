//! The chart of the duties: from sign-on to sign-off with their pieces and pauses as bars, by group.
#![tactic(auto, using(crate::proofs::PageLemmas::page_steps))]

ghost use Rattle.std.specs.Prelude.{◌≡◌, ◌++◌, OnOk, IfOk, None, map};
ghost use Rattle.std.specs.List.{enumerate_from};
ghost use Rattle.chart_page.specs.Duties as spec;
ghost use Rattle.chart_page.specs.Layout.{lanes_by};
ghost use Rattle.chart_page.specs.Parts.{written};

use crate::frame::{length_of, push_ends, push_frame, push_label_open, push_scale, push_share};
use crate::layout::{Hours, Lane, lane_at, lanes_of};
use crate::marks::Mark;
use crate::parts::{Bar, BarKind, Part, push_parts};
use plan_core::{Memory, Seq};
use plan_rows::{DutyRow, DutySheet, PieceRow, Span};
use std::alloc::{AllocError, Global};
use vdv451_text::Table;

/// A pause of at least so many seconds is a full break.
const FULL_BREAK: u32 = 2_700;

/// The bar of a duty: from its sign-on to its sign-off.
fn duty_bar(duty: &DutyRow, lane: Lane) -> Bar
    ensures { result ≡ spec.duty_bar duty.now lane }
{
    Bar {
        kind: BarKind::Duty,
        left: duty.span.begin,
        right: duty.span.end,
        lane: lane.place,
    }
}

/// A duty as a bar with its words.
#[tactic(auto, unfolding(crate::specs::Duties::duty_parts))]
fn push_duty(out: &mut Vec<u8>, table: &Table, duty: &DutyRow, lane: Lane) -> Result<(), Memory>
    ensures { OnOk result (out.new.items ≡ out.old.items ++ written table.now (spec.duty_parts duty.now lane)) }
{
    push_parts(
        out,
        table,
        &[
            Part::Shape(duty_bar(duty, lane)),
            Part::Own(Mark::DutyTitle),
            Part::Number(duty.number as u64),
            Part::Own(Mark::OfGroup),
            Part::Number(duty.group as u64),
            Part::Own(Mark::SignOn),
            Part::Clock(duty.span.begin),
            Part::Own(Mark::SignOff),
            Part::Clock(duty.span.end),
            Part::Own(Mark::Spread),
            Part::Lasting(length_of(duty.span)),
            Part::Own(Mark::Driving),
            Part::Lasting(duty.driving),
            Part::Own(Mark::Cost),
            Part::Number(duty.cost),
            Part::Own(Mark::TitleClose),
        ],
    )
}

fn push_duties(
    out: &mut Vec<u8>,
    table: &Table,
    lanes: &[Lane],
    duties: &[DutyRow],
) -> Result<(), Memory>
    ensures { OnOk result (out.new.items ≡ out.old.items ++ spec.duties_text table.now lanes.now duties.now) }
{
    for (place, duty) in duties.iter().enumerate() {
        push_duty(out, table, duty, lane_at(lanes, place))?;
    }
    Ok(())
}

fn pause_kind(seconds: u32) -> BarKind
    ensures { result ≡ spec.pause_kind seconds }
{
    if seconds < FULL_BREAK {
        BarKind::Pause
    } else {
        BarKind::Break
    }
}

/// The bar of a pause: from the end of a piece to the start of the next.
fn pause_bar(span: Span, lane: usize) -> Bar
    ensures { result ≡ spec.pause_bar span lane }
{
    Bar {
        kind: pause_kind(length_of(span)),
        left: span.begin,
        right: span.end,
        lane,
    }
}

/// The time between a piece and the next row, where that is of the same duty and begins later.
fn pause_between(before: &PieceRow, piece: &PieceRow) -> Option<Span>
    ensures { result ≡ spec.pause_between before.now piece.now }
{
    if before.duty.place == piece.duty.place && before.ends.span.end < piece.ends.span.begin {
        Some(Span {
            begin: before.ends.span.end,
            end: piece.ends.span.begin,
        })
    } else {
        None
    }
}

/// A pause as a bar with its words.
fn push_span(out: &mut Vec<u8>, table: &Table, span: Span, lane: usize) -> Result<(), Memory>
    ensures { OnOk result (out.new.items ≡ out.old.items ++ written table.now (spec.span_parts span lane)) }
{
    push_parts(
        out,
        table,
        &[
            Part::Shape(pause_bar(span, lane)),
            Part::Own(Mark::PauseTitle),
            Part::Lasting(length_of(span)),
            Part::Own(Mark::Colon),
            Part::Clock(span.begin),
            Part::Own(Mark::To),
            Part::Clock(span.end),
            Part::Own(Mark::TitleClose),
        ],
    )
}

/// The pause between a piece and the next row, if there is one.
fn push_pause(
    out: &mut Vec<u8>,
    table: &Table,
    lanes: &[Lane],
    before: &PieceRow,
    piece: &PieceRow,
) -> Result<(), Memory>
    ensures { OnOk result (out.new.items ≡ out.old.items ++ written table.now (spec.pause_parts lanes.now before.now piece.now)) }
{
    match pause_between(before, piece) {
        Some(span) => push_span(out, table, span, lane_at(lanes, piece.duty.place).place),
        None => push_parts(out, table, &[]),
    }
}

/// The pauses before some pieces, of which this one is the first.
fn push_pauses(
    out: &mut Vec<u8>,
    table: &Table,
    lanes: &[Lane],
    first: &PieceRow,
    pieces: &[PieceRow],
) -> Result<(), Memory>
    ensures { OnOk result (out.new.items ≡ out.old.items ++ spec.pauses_text table.now lanes.now first.now pieces.now) }
{
    let mut before = *first;
    for piece in pieces {
        push_pause(out, table, lanes, &before, piece)?;
        before = *piece;
    }
    Ok(())
}

fn push_all_pauses(
    out: &mut Vec<u8>,
    table: &Table,
    lanes: &[Lane],
    pieces: &[PieceRow],
) -> Result<(), Memory>
    ensures { OnOk result (out.new.items ≡ out.old.items ++ written table.now (spec.all_pauses lanes.now pieces.now)) }
{
    match pieces {
        [] => push_parts(out, table, &[]),
        [first, rest @ ..] => push_pauses(out, table, lanes, first, rest),
    }
}

/// The bar of a piece: from its start to its end, in the lane of its duty.
fn piece_bar(lanes: &[Lane], piece: &PieceRow) -> Bar
    ensures { result ≡ spec.piece_bar lanes.now piece.now }
{
    Bar {
        kind: BarKind::Piece,
        left: piece.ends.span.begin,
        right: piece.ends.span.end,
        lane: lane_at(lanes, piece.duty.place).place,
    }
}

/// The bar of a piece, and what names it.
fn push_piece_name(
    out: &mut Vec<u8>,
    table: &Table,
    lanes: &[Lane],
    piece: &PieceRow,
) -> Result<(), Memory>
    ensures { OnOk result (out.new.items ≡ out.old.items ++ written table.now (spec.piece_name lanes.now piece.now)) }
{
    push_parts(
        out,
        table,
        &[
            Part::Shape(piece_bar(lanes, piece)),
            Part::Own(Mark::PieceTitle),
            Part::Number(piece.numbers.index as u64),
            Part::Own(Mark::OfBlock),
            Part::Number(piece.numbers.block as u64),
            Part::Own(Mark::OfDuty),
            Part::Number(piece.duty.number as u64),
            Part::Own(Mark::Colon),
        ],
    )
}

fn push_piece_driving(out: &mut Vec<u8>, table: &Table, piece: &PieceRow) -> Result<(), Memory>
    ensures { OnOk result (out.new.items ≡ out.old.items ++ written table.now (spec.piece_driving piece.now)) }
{
    push_parts(
        out,
        table,
        &[
            Part::Own(Mark::Driving),
            Part::Lasting(piece.numbers.driving),
            Part::Own(Mark::TitleClose),
        ],
    )
}

/// The numbers within the bar of a piece.
fn push_piece_label(out: &mut Vec<u8>, table: &Table, piece: &PieceRow) -> Result<(), Memory>
    ensures { OnOk result (out.new.items ≡ out.old.items ++ written table.now (spec.piece_label piece.now)) }
{
    push_parts(
        out,
        table,
        &[
            Part::Number(piece.numbers.block as u64),
            Part::Own(Mark::Slash),
            Part::Number(piece.numbers.index as u64),
            Part::Own(Mark::LabelClose),
        ],
    )
}

/// A piece as a bar with its words.
fn push_piece(
    out: &mut Vec<u8>,
    table: &Table,
    lanes: &[Lane],
    piece: &PieceRow,
) -> Result<(), Memory>
    ensures { OnOk result (out.new.items ≡ out.old.items ++ written table.now (spec.piece_parts lanes.now piece.now)) }
{
    push_piece_name(out, table, lanes, piece)?;
    push_ends(out, table, piece.ends)?;
    push_piece_driving(out, table, piece)?;
    push_label_open(
        out,
        table,
        piece.ends.span,
        lane_at(lanes, piece.duty.place).place,
    )?;
    push_piece_label(out, table, piece)
}

fn push_pieces(
    out: &mut Vec<u8>,
    table: &Table,
    lanes: &[Lane],
    pieces: &[PieceRow],
) -> Result<(), Memory>
    ensures { OnOk result (out.new.items ≡ out.old.items ++ spec.pieces_text table.now lanes.now pieces.now) }
{
    for piece in pieces {
        push_piece(out, table, lanes, piece)?;
    }
    Ok(())
}

/// The name of a duty beside its lane, with its spread and driving.
fn push_duty_name(
    out: &mut Vec<u8>,
    table: &Table,
    duty: &DutyRow,
    lane: Lane,
) -> Result<(), Memory>
    ensures { OnOk result (out.new.items ≡ out.old.items ++ written table.now (spec.duty_name duty.now lane)) }
{
    push_parts(
        out,
        table,
        &[
            Part::Own(Mark::NameOpen),
            Part::Number(lane.place as u64),
            Part::Own(Mark::DutyName),
            Part::Number(duty.number as u64),
            Part::Own(Mark::TextClose),
            Part::Own(Mark::NameOpen),
            Part::Number(lane.place as u64),
            Part::Own(Mark::SpreadName),
            Part::Lasting(length_of(duty.span)),
            Part::Own(Mark::Driving),
            Part::Lasting(duty.driving),
            Part::Own(Mark::TextClose),
        ],
    )
}

fn push_lane_name(
    out: &mut Vec<u8>,
    table: &Table,
    duty: &DutyRow,
    lane: Lane,
) -> Result<(), Memory>
    ensures { OnOk result (out.new.items ≡ out.old.items ++ written table.now (spec.lane_name duty.now lane)) }
{
    push_share(out, table, Mark::GroupBegin, duty.group, lane)?;
    push_duty_name(out, table, duty, lane)
}

fn push_lane_names(
    out: &mut Vec<u8>,
    table: &Table,
    lanes: &[Lane],
    duties: &[DutyRow],
) -> Result<(), Memory>
    ensures { OnOk result (out.new.items ≡ out.old.items ++ spec.names_text table.now lanes.now duties.now) }
{
    for (place, duty) in duties.iter().enumerate() {
        push_lane_name(out, table, duty, lane_at(lanes, place))?;
    }
    Ok(())
}

fn groups_of(alloc: Global, duties: &[DutyRow]) -> Result<Vec<u32>, AllocError>
    ensures { IfOk result (λ groups. groups.items ≡ spec.groups_of duties.now) }
{
    duties.iter().map(|duty| duty.group).collect(alloc)
}

/// The lanes of the duties, by group.
fn duty_lanes(alloc: Global, sheet: &DutySheet) -> Result<Seq<Lane>, Memory>
    ensures { IfOk result (λ lanes. lanes ≡ lanes_by (spec.groups_of sheet.now.duties)) }
{
    let groups = groups_of(alloc, sheet.duties.as_slice())?;
    lanes_of(alloc, groups.as_slice())
}

/// The bars of the duties, the pauses and the pieces.
fn push_bars(
    out: &mut Vec<u8>,
    table: &Table,
    sheet: &DutySheet,
    lanes: &[Lane],
) -> Result<(), Memory>
    ensures { OnOk result (out.new.items ≡ out.old.items ++ written table.now (spec.bar_parts sheet.now lanes.now)) }
{
    let pieces = sheet.pieces.as_slice();
    push_duties(out, table, lanes, sheet.duties.as_slice())?;
    push_all_pauses(out, table, lanes, pieces)?;
    push_pieces(out, table, lanes, pieces)
}

/// The bars and the names of the duties, in lanes.
fn push_lanes(
    out: &mut Vec<u8>,
    table: &Table,
    sheet: &DutySheet,
    lanes: &[Lane],
    hours: Hours,
    starts: &[u32],
) -> Result<(), Memory>
    ensures { OnOk result (out.new.items ≡ out.old.items ++ written table.now (spec.inner_parts sheet.now lanes.now hours starts.now)) }
{
    push_bars(out, table, sheet, lanes)?;
    push_scale(out, table, hours, starts, sheet.duties.len())?;
    push_lane_names(out, table, lanes, sheet.duties.as_slice())
}

/// The chart of the duties.
pub(crate) fn push_duty_chart(
    alloc: Global,
    out: &mut Vec<u8>,
    table: &Table,
    sheet: &DutySheet,
    hours: Hours,
    starts: &[u32],
) -> Result<(), Memory>
    ensures { OnOk result (out.new.items ≡ out.old.items ++ written table.now (spec.chart_parts sheet.now hours starts.now)) }
{
    let lanes = duty_lanes(alloc, sheet)?;
    push_frame(out, table, hours, starts, sheet.duties.len())?;
    push_lanes(out, table, sheet, lanes.as_slice(), hours, starts)?;
    push_parts(out, table, &[Part::Own(Mark::ChartClose)])
}
