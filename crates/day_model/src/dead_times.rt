//! How long deadheads take, as a grid of points asks it.

ghost use Rattle.deadheads.specs.DeadTimes.{dead_on};

use deadheads::Deadheads;
use plan_core::Point;
use point_grid::PointTimes;

/// How long deadheads take.
#[derive(Drop)]
pub(crate) struct DeadTimes<'d> {
    /// The deadheads of the day.
    pub(crate) deads: &'d Deadheads,
}

impl PointTimes for DeadTimes<'_> {
    ghost times = { λ s from to. dead_on s.deads.now from to };

    fn time(&self, from: Point, to: Point) -> Option<u32> {
        self.deads.dead(from, to)
    }
}
