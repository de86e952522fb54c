//! What a record tells of the edge that it is kept for.
ghost use Rattle.std.specs.Prelude.{◌≡◌};
ghost use Rattle.plane.specs.Edges.{Edge};
ghost use Rattle.plane.specs.PointOf.{point_of};
ghost use Rattle.plane.specs.Models.{edge_of};

use plane::int_point::IntPoint;
use plane::x_segment::XSegment;

pub trait EdgeRecord: Copy {
    ghost edge: { Self → Edge };

    fn first_end(self) -> IntPoint
        ensures { point_of result ≡ (edge self).a };

    fn second_end(self) -> IntPoint
        ensures { point_of result ≡ (edge self).b };
}

impl EdgeRecord for XSegment {
    ghost edge = { edge_of };

    fn first_end(self) -> IntPoint {
        self.a
    }

    fn second_end(self) -> IntPoint {
        self.b
    }
}
