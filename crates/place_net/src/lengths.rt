//! The lengths of stop sequences.

ghost use Rattle.std.specs.Prelude.{◌≡◌, ◌<◌, ◌≤◌, ◌*◌, ◌^◌, IfSome, length};
ghost use Rattle.vdv452_tables.specs.LookUps.{links_from};
ghost use Rattle.place_net.specs.Routes.{length_over, links_of, route_metres, section_length};

use plan_core::Point;
use vdv452_tables::{Network, TripRow};

/// The length of the sections from a point on, in metres; None where one of them has no length.
fn length_from(
    net: &Network,
    version: u32,
    area: u32,
    first: Point,
    points: &[Point],
) -> Option<u64>
    requires { length points.now < 2 ^ 32 }
    ensures value { result ≡ length_over (section_length net.now version area) (links_from first points.now) }
    ensures range { IfSome result (λ metres. metres ≤ 1000000 * 2 ^ 32) }
{
    let mut metres: u64 = 0;
    let mut from = first;
    for to in points {
        match net.length(version, area, from, *to) {
            None => return None,
            Some(length) => {
                metres += u64::from(length);
                from = *to;
            }
        }
    }
    Some(metres)
}

/// The length of a stop sequence in metres; None where a section has no length.
fn course_length(net: &Network, version: u32, area: u32, course: &[Point]) -> Option<u64>
    requires { length course.now < 2 ^ 32 }
    ensures value { result ≡ length_over (section_length net.now version area) (links_of course.now) }
    ensures range { IfSome result (λ metres. metres ≤ 1000000 * 2 ^ 32) }
{
    match course.split_first() {
        None => Some(0),
        Some((first, points)) => length_from(net, version, area, *first, points),
    }
}

/// How far a trip goes, in metres: the sum of the lengths of the sections of its stop sequence (SEL_LAENGE of
/// REC_SEL, in the area of REC_LID). Equal neighbouring points are a section, and a stop sequence of fewer
/// than two points has length 0. None exactly where REC_LID has no row of the trip's line and
/// variant, or a section of its stop sequence has no length. It takes no memory.
pub fn route_length(net: &Network, version: u32, row: &TripRow) -> Option<u64>
    ensures value { result ≡ route_metres net.now version row.now }

    // A stop sequence has fewer than 2^32 sections of at most 1,000,000 metres.
    ensures range { IfSome result (λ metres. metres ≤ 1000000 * 2 ^ 32) }
{
    match net.area(version, row.line, &row.variant) {
        None => None,
        Some(area) => {
            let course = net.course(version, row.line, &row.variant);
            course_length(net, version, area, course)
        }
    }
}
