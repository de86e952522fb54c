//! A point as it is handed in: nothing is known of its coordinates yet.
ghost use Rattle.plane.specs.Models.{plain_point};
ghost use Rattle.plane.specs.PointOf.{point_of};
ghost use Rattle.std.specs.Prelude.{◌≡◌};

use crate::int_point::IntPoint;

#[derive(Clone, Copy, PartialEq, Eq, PartialOrd, Ord)]
pub struct PlainPoint {
    pub x: i32,
    pub y: i32,
}

impl From<IntPoint> for PlainPoint {
    ghost from_gives = { λ p q. plain_point q ≡ point_of p };

    fn from(p: IntPoint) -> PlainPoint {
        PlainPoint { x: p.x, y: p.y }
    }
}
