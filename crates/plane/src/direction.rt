//! The direction of three points.
ghost use Rattle.std.specs.Prelude.{◌≡◌};
ghost use Rattle.plane.specs.Points.{cross};
ghost use Rattle.plane.specs.PointOf.{point_of};
ghost use Rattle.plane.specs.Edges.{direction, same?, zero_of};

use crate::int_point::IntPoint;
use crate::offset::Offset;

/// Where the third of three points lies, seen on the way from the first to the second.
#[derive(Clone, Copy, PartialEq, Eq)]
pub enum Direction {
    Left,
    Straight,
    Right,
}

impl Direction {
    /// The direction of a, b and c, by the sign of a cross product.
    pub fn of(a: IntPoint, b: IntPoint, c: IntPoint) -> Direction
        ensures { result ≡ direction (cross (point_of a) (point_of b) (point_of c)) }
    {
        let product = Offset::between(a, b).cross_product(Offset::between(a, c));
        if product > 0 {
            Direction::Left
        } else if product < 0 {
            Direction::Right
        } else {
            Direction::Straight
        }
    }

    /// Whether it is the same as another.
    pub fn is(self, other: Direction) -> bool
        ensures { result ≡ same? self other }
    {
        self == other
    }

    /// 1 where the direction is zero, else 0.
    pub fn zeros(self) -> u8
        ensures { result ≡ zero_of self }
    {
        u8::from(self == Direction::Straight)
    }
}
