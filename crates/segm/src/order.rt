//! The order of points: x first, then y.
ghost use Rattle.plane.specs.PointOf.{point_of};
ghost use Rattle.plane.specs.Points.{◌≺◌};
ghost use Rattle.segm.specs.Orders.{point_order, origin};
ghost use Rattle.std.specs.Ordering.{MatchOrdering};
ghost use Rattle.std.specs.Prelude.{◌≡◌};

use plane::int_point::IntPoint;
use std::cmp::Ordering;

pub fn compare_points(p: IntPoint, q: IntPoint) -> Ordering
    ensures answer { result ≡ point_order (point_of p) (point_of q) }
    ensures tells { MatchOrdering result (point_of p ≺ point_of q) (point_of p ≡ point_of q) (point_of q ≺ point_of p) }
{
    p.cmp(&q)
}

/// The point (0, 0), where the ends of a blank place lie.
pub fn zero_point() -> IntPoint
    ensures { result ≡ origin }
{
    IntPoint { x: 0, y: 0 }
}
