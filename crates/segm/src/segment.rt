//! An edge with a count. A blank one has equal ends, so the type promises no order of the ends.
ghost use Rattle.plane.specs.PointOf.{point_of};
ghost use Rattle.plane.specs.Points.{Point, ◌≺◌};
ghost use Rattle.segm.specs.Balance.{brings};
ghost use Rattle.segm.specs.Segments.{turned_of, directed};
ghost use Rattle.std.specs.Prelude.{◌≡◌};

use crate::winding::WindingCount;
use plane::int_point::IntPoint;

#[derive(Clone, Copy)]
pub struct Segment<C: WindingCount> {
    pub a: IntPoint,
    pub b: IntPoint,
    pub count: C,
}

impl<C: WindingCount> Segment<C> {
    /// The same edge passed the other way.
    pub fn turned(self) -> Segment<C>
        ensures ends { result ≡ turned_of C.WindingCount.kind self }
        ensures balance { (p : Point) → brings C.WindingCount.kind p result ≡ brings C.WindingCount.kind p self }
    {
        Segment {
            a: self.b,
            b: self.a,
            count: self.count.invert(),
        }
    }

    /// The edge from a to b, turned where b comes before a.
    pub fn create(a: IntPoint, b: IntPoint, count: C) -> Segment<C>
        ensures ends { result ≡ directed C.WindingCount.kind (record { a = a; b = b; count = count }) }
        ensures forward { point_of result.b ≺ point_of result.a → ⊥ }
        ensures balance { (p : Point) → brings C.WindingCount.kind p result ≡ brings C.WindingCount.kind p (record { a = a; b = b; count = count }) }
    {
        let segment = Segment { a, b, count };
        if b < a { segment.turned() } else { segment }
    }
}
