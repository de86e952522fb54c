//! Making points, their order and their distance.
ghost use Rattle.std.specs.Prelude.{◌≡◌, ◌^◌, ◌≤◌, ◌+ℤ◌};
ghost use Rattle.plane.specs.Points.{Point, InRange, before?, distance};
ghost use Rattle.plane.specs.PointOf.{point_of};
ghost use Rattle.plane.specs.Models.{plain_point, MadePoint};

use crate::fault::Fault;
use crate::int_point::IntPoint;
use crate::offset::Offset;
use crate::plain_point::PlainPoint;

/// The largest magnitude of a coordinate.
const LIMIT: i32 = 524288;

impl IntPoint {
    /// The point of two coordinates, refused where one is outside.
    pub fn new(x: i32, y: i32) -> Result<IntPoint, Fault>
        ensures { MadePoint (record { x = x; y = y }) result }
    {
        if x < -LIMIT || x > LIMIT || y < -LIMIT || y > LIMIT {
            return Err(Fault::CoordinateOutside);
        }
        Ok(IntPoint { x, y })
    }

    /// Whether this point comes before another: by x, then by y.
    pub fn is_before(self, other: IntPoint) -> bool
        ensures { result ≡ before? (point_of self) (point_of other) }
    {
        self < other
    }

    /// The squared distance to another point.
    pub fn sqr_distance(self, other: IntPoint) -> u64
        ensures value { result ≡ distance (point_of self) (point_of other) }
        ensures bound { result ≤ 2 ^ 41 }
    {
        Offset::between(self, other).sqr_length()
    }

    /// The point that is so far off, within range.
    pub(crate) fn moved(self, x: i64, y: i64) -> IntPoint
        requires x_in_range { InRange (self.x +ℤ x) }
        requires y_in_range { InRange (self.y +ℤ y) }
        ensures { point_of result ≡ record { x = self.x +ℤ x; y = self.y +ℤ y } }
    {
        IntPoint {
            x: (self.x as i64 + x) as i32,
            y: (self.y as i64 + y) as i32,
        }
    }
}

/// The point with the same coordinates, refused where one is outside.
impl TryFrom<PlainPoint> for IntPoint {
    type Error = Fault;

    ghost try_from_gives = { λ p r. MadePoint (plain_point p) r };

    fn try_from(p: PlainPoint) -> Result<IntPoint, Fault> {
        IntPoint::new(p.x, p.y)
    }
}
