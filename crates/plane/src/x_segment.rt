//! An edge, its first end before its second by its type.
ghost use Rattle.std.specs.Prelude.{◌≡◌, true};
ghost use Rattle.plane.specs.Points.{before?};
ghost use Rattle.plane.specs.PointOf.{point_of};

pub mod methods;

use crate::int_point::IntPoint;

#[derive(Clone, Copy, PartialEq, Eq, PartialOrd, Ord)]
pub struct XSegment {
    pub a: IntPoint,
    pub b: IntPoint,
    ghost ordered: { before? (point_of a) (point_of b) ≡ true },
}
