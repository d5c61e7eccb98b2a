//! The marks of all open lists of three pieces, made list by list as the rules of driving and breaks say, and the best among them.

use cover_core::{Mark, Prices};
use duty_network::DutyNet;
use plan_core::{Memory, Sec};
use std::alloc::Global;

/// A mark of the class 0.
pub(crate) fn mark(
    piece: u32,
    start: i64,
    driving: u32,
    quarter: bool,
    total: u32,
    three: bool,
    value: i64,
) -> Mark {
    Mark {
        class: 0,
        piece,
        start: Sec(start),
        driving,
        quarter,
        total,
        three,
        value,
    }
}

/// The seven lists of three pieces.
fn list_at(place: usize) -> &'static [u32] {
    match place {
        0 => &[0],
        1 => &[1],
        2 => &[0, 1],
        3 => &[2],
        4 => &[0, 2],
        5 => &[1, 2],
        _ => &[0, 1, 2],
    }
}

fn price_of(prices: &Prices, item: u32) -> i64 {
    match prices.items.as_slice().get(item as usize) {
        Some(price) => price.0,
        None => 0,
    }
}

fn if_open(mark: Mark, end: i64) -> Option<Mark> {
    let latest = mark.start.0.saturating_add(54_000);
    if mark.driving <= 16_200 && mark.total <= 32_400 && end <= latest {
        Some(mark)
    } else {
        None
    }
}

fn first_mark(net: &DutyNet<'_>, prices: &Prices, item: u32) -> Option<Mark> {
    if item as usize >= net.pieces().len() || net.groups().len() != 1 {
        return None;
    }
    let way = net.from_home(0, item)?;
    let piece = net.piece(item);
    let start = piece.begin.0.saturating_sub(way as i64).saturating_sub(600);
    let cost = if net.counts() {
        1_000
    } else {
        500_000i64.saturating_sub(start.saturating_mul(1_000))
    };
    let value = cost.saturating_sub(price_of(prices, item));
    if_open(
        mark(
            item,
            start,
            piece.driving,
            false,
            piece.driving,
            false,
            value,
        ),
        piece.end.0,
    )
}

fn gone_on(net: &DutyNet<'_>, prices: &Prices, mark: Mark, item: u32) -> Option<Mark> {
    if mark.piece >= item || item as usize >= net.pieces().len() {
        return None;
    }
    let time = net.pause(mark.piece, item)?;
    let piece = net.piece(item);
    let full = time >= 2_700 || (time >= 1_800 && mark.quarter);
    let before = if full { 0 } else { mark.driving };
    let longer = Mark {
        piece: item,
        driving: before.saturating_add(piece.driving),
        quarter: !full && (time >= 900 || mark.quarter),
        total: mark.total.saturating_add(piece.driving),
        three: mark.three || time >= 10_800,
        value: mark.value.saturating_sub(price_of(prices, item)),
        ..mark
    };
    if_open(longer, piece.end.0)
}

/// The mark of a list, where it is open.
fn mark_of(net: &DutyNet<'_>, prices: &Prices, list: &[u32]) -> Option<Mark> {
    let mut found = None;
    for place in 0..list.len() {
        found = match found {
            None if place == 0 => first_mark(net, prices, list[place]),
            None => None,
            Some(mark) => gone_on(net, prices, mark, list[place]),
        };
    }
    found
}

pub(crate) fn all_marks(
    alloc: Global,
    net: &DutyNet<'_>,
    prices: &Prices,
) -> Result<Vec<Mark>, Memory> {
    let mut marks = Vec::new(alloc);
    for place in 0..7 {
        if let Some(mark) = mark_of(net, prices, list_at(place)) {
            marks.push(mark)?;
        }
    }
    Ok(marks)
}

fn is_as_good(a: &Mark, b: &Mark) -> bool {
    a.class == b.class
        && a.piece == b.piece
        && a.quarter == b.quarter
        && a.start >= b.start
        && a.driving <= b.driving
        && a.total <= b.total
        && (a.three || !b.three)
        && a.value <= b.value
}

/// The marks to which no other one is at least as good, each once and in order.
pub(crate) fn best_marks(alloc: Global, all: &[Mark]) -> Result<Vec<Mark>, Memory> {
    let mut best = Vec::new(alloc);
    for place in 0..all.len() {
        let mark = all[place];
        if !all
            .iter()
            .any(|other| *other != mark && is_as_good(other, &mark))
        {
            best.push(mark)?;
        }
    }
    best.sort_unstable();
    best.dedup();
    Ok(best)
}
