//! Points by dense numbers.

ghost use Rattle.std.specs.Prelude.{◌≡◌, ◌<◌, ◌≤◌, ◌+◌, ◌^◌, IfOk, IfSome, OnOk, Some, length, slice_get};
ghost use Rattle.point_grid.specs.Numbering.{AreKept, AreNumbered};

use indexmap::IndexMap;
use plan_core::{Memory, Point, Seq};
use std::alloc::Global;

/// The points of a list, and for each place of the list the number of its point.
#[derive(Drop)]
pub struct Numbering {
    /// The points, by their numbers.
    pub points: Seq<Point>,
    /// For each place of the list the number of its point.
    pub numbers: Seq<u32>,
}

/// The number that is noted for a point, if the point stands there.
fn number_of_point(index: &IndexMap<Point, u32>, points: &[Point], point: Point) -> Option<u32>
    ensures { IfSome result (λ number. slice_get points.now number ≡ Some point) }
{
    match index.get(&point) {
        Some(number) if points.get(*number as usize) == Some(&point) => Some(*number),
        _ => None,
    }
}

/// The number of a point, which is put behind the others if none is noted.
fn number_of(
    index: &mut IndexMap<Point, u32>,
    points: &mut Seq<Point>,
    point: Point,
) -> Result<u32, Memory>
    requires { length points.old < 2 ^ 32 }
    ensures number { IfOk result (λ number. slice_get points.new number ≡ Some point) }
    ensures kept { AreKept points.old points.new }
    ensures few { length points.new ≤ length points.old + 1 }
{
    if let Some(number) = number_of_point(index, points.as_slice(), point) {
        return Ok(number);
    }
    let number = points.len() as u32;
    index.insert(point, number)?;
    points.push(point)?;
    Ok(number)
}

/// The points of a list by their numbers: equal points have one, unless the index loses them, so numbers are few. `Memory` is the only error.
pub fn numbering_of(alloc: Global, given: &[Point]) -> Result<Numbering, Memory>
    requires { length given.now < 2 ^ 32 }
    ensures { IfOk result (AreNumbered given.now) }
{
    let mut index = IndexMap::new(alloc);
    let mut points = Seq::new(alloc);
    let mut numbers = Seq::new(alloc);
    for point in given {
        numbers.push(number_of(&mut index, &mut points, *point)?)?;
    }
    Ok(Numbering { points, numbers })
}
