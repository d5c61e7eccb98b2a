//! How long drivers are on their ways, as a grid of points asks it.

ghost use Rattle.plan_params.specs.LookUps.{way_in};

use plan_core::Point;
use plan_params::Params;
use point_grid::PointTimes;

/// How long drivers are on their ways.
#[derive(Drop)]
pub(crate) struct WayTimes<'p> {
    /// The settings that tell the ways.
    pub(crate) params: &'p Params,
}

impl PointTimes for WayTimes<'_> {
    ghost times = { λ s from to. way_in s.params.now from to };

    fn time(&self, from: Point, to: Point) -> Option<u32> {
        self.params.way(from, to)
    }
}
