//! Products of offsets. None leaves 64 bits, since offsets of points within range stay below 2^21.
ghost use Rattle.std.specs.Prelude.{◌≡◌, ◌+◌, ◌*◌, ◌^◌, ◌≤◌, ◌-ℤ◌, ◌*ℤ◌, unsigned_abs};
ghost use Rattle.plane.specs.Points.{squared};

use crate::int_point::IntPoint;
use crate::offset::Offset;

/// The product of an offset's coordinate and a number of at most 42 bits.
pub(crate) fn times(a: i64, b: i64) -> i64
    requires a_bound { unsigned_abs a ≤ 2 ^ 20 }
    requires b_bound { unsigned_abs b ≤ 2 ^ 42 }
    ensures value { result ≡ a *ℤ b }
    ensures size { unsigned_abs result ≤ 2 ^ 20 * unsigned_abs b }
{
    a * b
}

impl Offset {
    /// From one point to another.
    pub(crate) fn between(from: IntPoint, to: IntPoint) -> Offset
        ensures x { result.x ≡ to.x -ℤ from.x }
        ensures y { result.y ≡ to.y -ℤ from.y }
    {
        Offset {
            x: to.x as i64 - from.x as i64,
            y: to.y as i64 - from.y as i64,
        }
    }

    /// The cross product.
    pub(crate) fn cross_product(self, v: Offset) -> i64
        ensures value { result ≡ self.x *ℤ v.y -ℤ self.y *ℤ v.x }
        ensures size { unsigned_abs result ≤ 2 ^ 41 }
    {
        times(self.x, v.y) - times(self.y, v.x)
    }

    /// The squared length.
    pub(crate) fn sqr_length(self) -> u64
        ensures value { result ≡ squared self.x + squared self.y }
        ensures size { result ≤ 2 ^ 41 }
    {
        let dx = self.x.unsigned_abs();
        let dy = self.y.unsigned_abs();
        dx * dx + dy * dy
    }
}
