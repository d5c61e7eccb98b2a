//! What the two charts share: their frame, their hours, and the words for ends, labels, pools and groups.
#![tactic(auto, using(crate::proofs::PageLemmas::page_steps))]

ghost use Rattle.std.specs.Prelude.{◌≡◌, ◌≤◌, ◌++◌, OnOk};
ghost use Rattle.std.specs.List.{range_with_len};
ghost use Rattle.chart_page.specs.Frame as spec;
ghost use Rattle.chart_page.specs.Parts.{written};

use crate::layout::{Hours, Lane};
use crate::marks::Mark;
use crate::parts::{Part, push_parts};
use plan_core::Memory;
use plan_rows::{Ends, Span};
use vdv451_text::Table;

/// The most lanes for which a chart has room.
const MOST_LANES: u64 = 3_000;

/// How long a span lasts, in seconds.
pub(crate) fn length_of(span: Span) -> u32
    ensures { result ≡ spec.length_of span }
{
    span.end.saturating_sub(span.begin)
}

/// The lanes for which a chart of so many rows has room.
fn room_of(rows: usize) -> u64
    ensures { result ≡ spec.room_of rows }
{
    (rows as u64).min(MOST_LANES)
}

fn wide_of(hours: Hours) -> u64
    ensures { result ≡ spec.wide_of hours }
{
    90 * hours.count as u64
}

/// The head of a chart.
fn push_open(out: &mut Vec<u8>, table: &Table, hours: Hours, rows: usize) -> Result<(), Memory>
    ensures { OnOk result (out.new.items ≡ out.old.items ++ written table.now (spec.open_parts hours rows)) }
{
    let room = room_of(rows);
    let width = 240 + wide_of(hours);
    let height = 30 + 26 * room;
    push_parts(
        out,
        table,
        &[
            Part::Own(Mark::ChartOpen),
            Part::Number(width),
            Part::Own(Mark::Blank),
            Part::Number(height),
            Part::Own(Mark::WidthIs),
            Part::Number(width),
            Part::Own(Mark::HeightIs),
            Part::Number(height),
        ],
    )
}

/// The field of the bars, a unit along for a second and a unit down for a lane.
fn push_lanes(out: &mut Vec<u8>, table: &Table, hours: Hours, rows: usize) -> Result<(), Memory>
    ensures { OnOk result (out.new.items ≡ out.old.items ++ written table.now (spec.lanes_parts hours rows)) }
{
    let room = room_of(rows);
    let wide = wide_of(hours);
    push_parts(
        out,
        table,
        &[
            Part::Own(Mark::LanesOpen),
            Part::Number(wide),
            Part::Own(Mark::HeightIs),
            Part::Number(26 * room),
            Part::Own(Mark::ViewIs),
            Part::Number(3_600 * hours.first as u64),
            Part::Own(Mark::ZeroTop),
            Part::Number(3_600 * hours.count as u64),
            Part::Own(Mark::Blank),
            Part::Number(room),
            Part::Own(Mark::LanesBegin),
        ],
    )
}

/// A line at the start of an hour.
fn push_grid_line(out: &mut Vec<u8>, table: &Table, rows: usize, hour: u32) -> Result<(), Memory>
    ensures { OnOk result (out.new.items ≡ out.old.items ++ written table.now (spec.grid_line rows hour)) }
{
    push_parts(
        out,
        table,
        &[
            Part::Own(Mark::GridOpen),
            Part::Number(3_600 * hour as u64),
            Part::Own(Mark::GridTo),
            Part::Number(room_of(rows)),
            Part::Own(Mark::ShapeClose),
        ],
    )
}

fn push_grid(out: &mut Vec<u8>, table: &Table, hours: &[u32], rows: usize) -> Result<(), Memory>
    ensures { OnOk result (out.new.items ≡ out.old.items ++ spec.grid_text table.now hours.now rows) }
{
    for hour in hours {
        push_grid_line(out, table, rows, *hour)?;
    }
    Ok(())
}

/// The name of an hour.
fn push_hour(out: &mut Vec<u8>, table: &Table, first: u32, hour: u32) -> Result<(), Memory>
    ensures { OnOk result (out.new.items ≡ out.old.items ++ written table.now (spec.hour_name first hour)) }
{
    let at = 240 + 90 * hour.saturating_sub(first) as u64;
    let moment = hour.min(1_000_000) * 3_600;
    push_parts(
        out,
        table,
        &[
            Part::Own(Mark::HourOpen),
            Part::Number(at),
            Part::Own(Mark::HourBegin),
            Part::Clock(moment),
            Part::Own(Mark::TextClose),
        ],
    )
}

fn push_hours(out: &mut Vec<u8>, table: &Table, hours: &[u32], first: u32) -> Result<(), Memory>
    ensures { OnOk result (out.new.items ≡ out.old.items ++ spec.hours_text table.now hours.now first) }
{
    for hour in hours {
        push_hour(out, table, first, *hour)?;
    }
    Ok(())
}

/// What stands before the names of the hours.
fn push_hours_open(out: &mut Vec<u8>, table: &Table, hours: Hours) -> Result<(), Memory>
    ensures { OnOk result (out.new.items ≡ out.old.items ++ written table.now (spec.hours_open hours)) }
{
    push_parts(
        out,
        table,
        &[
            Part::Own(Mark::HoursOpen),
            Part::Number(240 + wide_of(hours)),
            Part::Own(Mark::HoursBegin),
        ],
    )
}

/// What stands before the names of the lanes.
fn push_names_open(out: &mut Vec<u8>, table: &Table, rows: usize) -> Result<(), Memory>
    ensures { OnOk result (out.new.items ≡ out.old.items ++ written table.now (spec.names_open rows)) }
{
    let room = room_of(rows);
    push_parts(
        out,
        table,
        &[
            Part::Own(Mark::NamesOpen),
            Part::Number(30 + 26 * room),
            Part::Own(Mark::NamesLanes),
            Part::Number(26 * room),
            Part::Own(Mark::NamesView),
            Part::Number(room),
            Part::Own(Mark::LanesBegin),
        ],
    )
}

/// From when to when and from where to where.
pub(crate) fn push_ends(out: &mut Vec<u8>, table: &Table, ends: Ends) -> Result<(), Memory>
    ensures { OnOk result (out.new.items ≡ out.old.items ++ written table.now (spec.ends_parts ends)) }
{
    push_parts(
        out,
        table,
        &[
            Part::Clock(ends.span.begin),
            Part::Own(Mark::To),
            Part::Clock(ends.span.end),
            Part::Own(Mark::FromPoint),
            Part::Number(ends.from.nr as u64),
            Part::Own(Mark::OfType),
            Part::Number(ends.from.typ as u64),
            Part::Own(Mark::ToPoint),
            Part::Number(ends.to.nr as u64),
            Part::Own(Mark::OfType),
            Part::Number(ends.to.typ as u64),
        ],
    )
}

/// The room of a label within a bar.
pub(crate) fn push_label_open(
    out: &mut Vec<u8>,
    table: &Table,
    span: Span,
    lane: usize,
) -> Result<(), Memory>
    ensures { OnOk result (out.new.items ≡ out.old.items ++ written table.now (spec.label_open span lane)) }
{
    push_parts(
        out,
        table,
        &[
            Part::Own(Mark::LabelOpen),
            Part::Number(span.begin as u64),
            Part::Own(Mark::WidthIs),
            Part::Number(length_of(span) as u64),
            Part::Own(Mark::LabelTop),
            Part::Number(lane as u64),
            Part::Own(Mark::LabelBegin),
        ],
    )
}

/// The line and the number of a pool or a group, at its first lane: `name` is the constant with the word for it.
pub(crate) fn push_share(
    out: &mut Vec<u8>,
    table: &Table,
    name: Mark,
    number: u32,
    lane: Lane,
) -> Result<(), Memory>
    ensures { OnOk result (out.new.items ≡ out.old.items ++ written table.now (spec.share_parts name number lane)) }
{
    if lane.is_first {
        push_parts(
            out,
            table,
            &[
                Part::Own(Mark::ShareOpen),
                Part::Number(lane.place as u64),
                Part::Own(Mark::PoolOpen),
                Part::Number(lane.place as u64),
                Part::Own(name),
                Part::Number(number as u64),
                Part::Own(Mark::TextClose),
            ],
        )
    } else {
        push_parts(out, table, &[])
    }
}

/// The frame of a chart before its bars.
pub(crate) fn push_frame(
    out: &mut Vec<u8>,
    table: &Table,
    hours: Hours,
    starts: &[u32],
    rows: usize,
) -> Result<(), Memory>
    ensures { OnOk result (out.new.items ≡ out.old.items ++ written table.now (spec.frame_parts hours starts.now rows)) }
{
    push_open(out, table, hours, rows)?;
    push_lanes(out, table, hours, rows)?;
    push_grid(out, table, starts, rows)
}

/// What stands between the bars of a chart and the names of its lanes.
pub(crate) fn push_scale(
    out: &mut Vec<u8>,
    table: &Table,
    hours: Hours,
    starts: &[u32],
    rows: usize,
) -> Result<(), Memory>
    ensures { OnOk result (out.new.items ≡ out.old.items ++ written table.now (spec.scale_parts hours starts.now rows)) }
{
    push_hours_open(out, table, hours)?;
    push_hours(out, table, starts, hours.first)?;
    push_names_open(out, table, rows)
}
