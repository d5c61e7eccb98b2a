//! Grids of times that depend on the first point alone.

ghost use Rattle.std.specs.Prelude.{Option, ℕ};
ghost use Rattle.point_grid.specs.Grid.{told};

use plan_core::Point;
use point_grid::{PointTimes, grid_of, numbering_of, time_at};
use std::test::Fail;
use vdv452_tables::GREATEST_SECONDS;

/// From each point it takes its number of seconds to any other; from those with greater numbers than a day and a day there is no way.
#[derive(Drop)]
struct OwnNumbers;

impl PointTimes for OwnNumbers {
    ghost times = { λ s from to. told from.nr };

    fn time(&self, from: Point, _to: Point) -> Option<u32> {
        if from.nr <= GREATEST_SECONDS {
            Some(from.nr)
        } else {
            None
        }
    }
}

const fn point(nr: u32) -> Point {
    Point { typ: 1, nr }
}

#[test]
fn equal_points_have_one_number(rt: HostRuntime) -> Result<(), Fail> {
    let given = [point(7), point(9), point(7), point(7), point(8)];
    let numbering = numbering_of(rt.alloc(), given.as_slice())?;
    assert!(rt; numbering.points.as_slice() == [point(7), point(9), point(8)].as_slice());
    assert!(rt; numbering.numbers.as_slice() == [0, 1, 0, 0, 2].as_slice());
    Ok(())
}

#[test]
fn a_grid_tells_its_times_row_by_row(rt: HostRuntime) -> Result<(), Fail> {
    let rows = [
        point(172_800),
        point(0),
        point(172_801),
        point(4_294_967_295),
    ];
    let columns = [point(1), point(2), point(3)];
    let grid = grid_of(rt.alloc(), &OwnNumbers, rows.as_slice(), columns.as_slice())?;
    let want = [Some(172_800), Some(0), None, None];
    for (row, seconds) in want.into_iter().enumerate() {
        for column in 0..3 {
            let place = row * grid.columns + column;
            if place >= grid.cells.len() {
                return Err("no cell".into());
            }
            assert!(rt; time_at(&grid, row, column) == seconds, "{row} {column}");
        }
    }
    Ok(())
}
