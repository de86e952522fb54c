//! A segment tells of its ends.
ghost use Rattle.segm.specs.Segments.{ends_of};

use crate::edge_record::EdgeRecord;
use plane::int_point::IntPoint;
use segm::segment::Segment;
use segm::winding::WindingCount;

impl<C: WindingCount> EdgeRecord for Segment<C> {
    ghost edge = { ends_of };

    fn first_end(self) -> IntPoint {
        self.a
    }

    fn second_end(self) -> IntPoint {
        self.b
    }
}
