//! The times between points by their numbers.

ghost use Rattle.std.specs.Prelude.{◌≡◌, ◌+◌, ◌*◌, ◌<◌, ◌++◌, ℕ, Option, IfOk, IfSome, OnOk, length, map, slice_index};
ghost use Rattle.plan_core.specs.declared.types.Point.{Point as AnyPoint};
ghost use Rattle.vdv452_tables.specs.Ranges.{IsTime};
ghost use Rattle.point_grid.specs.Grid.{IsGrid, told};

use plan_core::{Memory, Point, Seq};
use std::alloc::Global;
use vdv452_tables::GREATEST_SECONDS;

/// How long it takes from one point to another.
pub trait PointTimes {
    /// The seconds from a point to another; none where there is no way.
    ghost times: { Self → AnyPoint → AnyPoint → Option ℕ };

    /// The seconds from a point to another, 0 to 172,800; none where there is no way.
    fn time(&self, from: Point, to: Point) -> Option<u32>
        ensures value { result ≡ times self.now from to }
        ensures range { IfSome result IsTime };
}

/// The times from each of some points to each of others.
#[derive(Drop)]
pub struct Grid {
    /// How many points there are to go to.
    pub columns: usize,
    /// The times, row by row; a number above all times where there is no way.
    pub cells: Seq<u32>,
}

/// What tells of no way.
const NONE: u32 = 4_294_967_295;

fn cell_of_time(time: Option<u32>) -> u32
    requires { IfSome time IsTime }
    ensures { told result ≡ time }
{
    match time {
        Some(seconds) => seconds,
        None => NONE,
    }
}

/// Puts the times from a point behind those that are there.
fn add_row<T: PointTimes>(
    cells: &mut Seq<u32>,
    times: &T,
    from: Point,
    columns: &[Point],
) -> Result<(), Memory>
    ensures { OnOk result (map told cells.new ≡ map told cells.old ++ map (λ to. T.times times.now from to) columns.now) }
{
    for to in columns {
        cells.push(cell_of_time(times.time(from, *to)))?;
    }
    Ok(())
}

/// The times from each of the points of the rows to each of those of the columns. It asks for each time once. `Memory` is the only error.
pub fn grid_of<T: PointTimes>(
    alloc: Global,
    times: &T,
    rows: &[Point],
    columns: &[Point],
) -> Result<Grid, Memory>
    ensures { IfOk result (IsGrid (T.times times.now) rows.now columns.now) }
{
    let mut cells = Seq::new(alloc);
    for from in rows {
        add_row(&mut cells, times, *from, columns)?;
    }
    Ok(Grid {
        columns: columns.len(),
        cells,
    })
}

/// The time of a row and a column; none where there is no way. It takes no memory.
pub fn time_at(grid: &Grid, row: usize, column: usize) -> Option<u32>
    requires { row * grid.now.columns + column < length grid.now.cells }
    ensures value { result ≡ told (slice_index grid.now.cells (row * grid.now.columns + column)) }
    ensures range { IfSome result IsTime }
{
    let seconds = grid.cells.as_slice()[row * grid.columns + column];
    if seconds <= GREATEST_SECONDS {
        Some(seconds)
    } else {
        None
    }
}
