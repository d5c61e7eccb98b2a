//! What is asked of pieces and groups of drivers, laid out flat.

ghost use Rattle.std.specs.Prelude.{◌≡◌, ◌≤◌, IfOk, length, map};
ghost use Rattle.plan_core.specs.Limits.{most_items};
ghost use Rattle.duty_network.specs.Layout.{AreLaidOut};

use crate::way_times::WayTimes;
use plan_core::{Memory, Piece, Point, Seq};
use plan_params::{Group, Params};
use point_grid::{Grid, grid_of, numbering_of};
use std::alloc::Global;

/// The ways of drivers by the numbers of pieces and groups.
#[derive(Drop)]
pub struct Layout {
    /// For each piece the number of its first point.
    pub begins: Seq<u32>,
    /// For each piece the number of its last point.
    pub ends: Seq<u32>,
    /// From last points to first points.
    pub between: Grid,
    /// From homes to first points.
    pub outward: Grid,
    /// From last points to homes.
    pub inward: Grid,
}

/// The first points of pieces, in their order.
fn first_points(alloc: Global, pieces: &[Piece]) -> Result<Vec<Point>, Memory>
    ensures { IfOk result (λ points. points.items ≡ map (λ piece. piece.from) pieces.now) }
{
    Ok(pieces.iter().map(|piece| piece.from).collect(alloc)?)
}

/// The last points of pieces, in their order.
fn last_points(alloc: Global, pieces: &[Piece]) -> Result<Vec<Point>, Memory>
    ensures { IfOk result (λ points. points.items ≡ map (λ piece. piece.to) pieces.now) }
{
    Ok(pieces.iter().map(|piece| piece.to).collect(alloc)?)
}

/// The homes of groups, in their order.
fn homes_of(alloc: Global, groups: &[Group]) -> Result<Vec<Point>, Memory>
    ensures { IfOk result (λ homes. homes.items ≡ map (λ group. group.home) groups.now) }
{
    Ok(groups.iter().map(|group| group.home).collect(alloc)?)
}

/// What is asked of these pieces and of the groups of these settings.
pub(crate) fn layout_of(alloc: Global, pieces: &[Piece], params: &Params) -> Result<Layout, Memory>
    requires { length pieces.now ≤ most_items }
    ensures { IfOk result (AreLaidOut pieces.now params.now) }
{
    let firsts = first_points(alloc, pieces)?;
    let lasts = last_points(alloc, pieces)?;
    let places = homes_of(alloc, params.groups())?;
    let begins = numbering_of(alloc, firsts.as_slice())?;
    let ends = numbering_of(alloc, lasts.as_slice())?;
    let from = begins.points.as_slice();
    let to = ends.points.as_slice();
    let homes = places.as_slice();
    let times = WayTimes { params };
    let between = grid_of(alloc, &times, to, from)?;
    let outward = grid_of(alloc, &times, homes, from)?;
    let inward = grid_of(alloc, &times, to, homes)?;
    Ok(Layout {
        begins: begins.numbers,
        ends: ends.numbers,
        between,
        outward,
        inward,
    })
}
