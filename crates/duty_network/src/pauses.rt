//! The pauses between pieces, worked out once: a search asks for each of them again and again.

ghost use Rattle.std.specs.Prelude.{◌≡◌, ◌<◌, ◌≤◌, length, All, IfOk, IfSome};
ghost use Rattle.plan_core.specs.Limits.{most_items};
ghost use Rattle.plan_params.specs.Limits.{HaveRanges};
ghost use Rattle.duty_network.specs.Duties.{pause_at};
ghost use Rattle.duty_network.specs.Followers.{facts};
ghost use Rattle.duty_network.specs.Layout.{AreLaidOut};
ghost use Rattle.duty_network.specs.Pauses.{ArePauses, IsPauseRow, told};
ghost use Rattle.duty_network.specs.Ranges.{IsShift};

use crate::layout::Layout;
use crate::net::pause_in;
use plan_core::{Memory, Piece, Seq};
use plan_params::Params;
use std::alloc::Global;

/// What tells of no pause: none is so long.
const NONE: u32 = 4_294_967_295;

/// The cell of a pause.
fn cell_of_pause(time: Option<u32>) -> u32
    requires { IfSome time (λ seconds. seconds < 4294967295) }
    ensures { told result ≡ time }
{
    match time {
        Some(seconds) => seconds,
        None => NONE,
    }
}

/// The pause of a cell.
#[inline]
fn pause_of_cell(cell: u32) -> Option<u32>
    ensures { result ≡ told cell }
{
    if cell == NONE { None } else { Some(cell) }
}

/// The pauses before a piece, of each earlier one.
fn row_of(
    alloc: Global,
    pieces: &[Piece],
    params: &Params,
    layout: &Layout,
    q: u32,
) -> Result<Seq<u32>, Memory>
    requires shifts { All IsShift pieces.now }
    requires params { HaveRanges params.now }
    requires laid { AreLaidOut pieces.now params.now layout.now }
    requires q { q < length pieces.now }
    ensures { IfOk result (IsPauseRow (facts pieces.now params.now) q) }
{
    let mut row = Seq::new(alloc);
    for p in 0..q {
        row.push(cell_of_pause(pause_in(pieces, params, layout, p, q)))?;
    }
    Ok(row)
}

/// The pauses before each of these pieces, of the earlier ones, by the ways and the handover time of these settings. It takes memory and
/// time with the product of the pieces with themselves: 18 MB for 3,000, and up to twice that, since rows grow by doubling. `Memory` is the
/// only error.
pub(crate) fn pauses_of(
    alloc: Global,
    pieces: &[Piece],
    params: &Params,
    layout: &Layout,
) -> Result<Vec<Seq<u32>>, Memory>
    requires few { length pieces.now ≤ most_items }
    requires shifts { All IsShift pieces.now }
    requires params { HaveRanges params.now }
    requires laid { AreLaidOut pieces.now params.now layout.now }
    ensures { IfOk result (λ rows. ArePauses (facts pieces.now params.now) rows.items) }
{
    let mut rows = Vec::new(alloc);
    rows.reserve(pieces.len())?;
    for q in 0..pieces.len() as u32 {
        rows.push(row_of(alloc, pieces, params, layout, q)?)?;
    }
    Ok(rows)
}

/// The pause between two of these pieces, in seconds. That of a later piece before an earlier one is not among the rows, and is worked out.
#[inline]
pub(crate) fn pause_among(
    rows: &[Seq<u32>],
    pieces: &[Piece],
    params: &Params,
    layout: &Layout,
    p: u32,
    q: u32,
) -> Option<u32>
    requires rows { ArePauses (facts pieces.now params.now) rows.now }
    requires shifts { All IsShift pieces.now }
    requires params { HaveRanges params.now }
    requires laid { AreLaidOut pieces.now params.now layout.now }
    requires p { p < length pieces.now }
    requires q { q < length pieces.now }
    ensures { result ≡ pause_at (facts pieces.now params.now) p q }
{
    if p < q {
        let row: &Seq<u32> = &rows[q as usize];
        pause_of_cell(row.as_slice()[p as usize])
    } else {
        pause_in(pieces, params, layout, p, q)
    }
}
