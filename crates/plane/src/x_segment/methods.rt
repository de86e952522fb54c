//! Making edges, and their order.
ghost use Rattle.std.specs.Prelude.{◌≡◌};
ghost use Rattle.plane.specs.Edges.{smaller?, equal?, between?};
ghost use Rattle.plane.specs.PointOf.{point_of};
ghost use Rattle.plane.specs.Rounding.{gap, nearer};
ghost use Rattle.plane.specs.Models.{MadeEdge, edge_of};

use crate::fault::Fault;
use crate::int_point::IntPoint;
use crate::x_segment::XSegment;
use std::cmp::Ordering;

impl XSegment {
    /// The edge of two ends in either order, refused where they are equal.
    pub fn new(p: IntPoint, q: IntPoint) -> Result<XSegment, Fault>
        ensures { MadeEdge (point_of p) (point_of q) result }
    {
        match p.cmp(&q) {
            Ordering::Less => Ok(XSegment { a: p, b: q }),
            Ordering::Equal => Err(Fault::EndsEqual),
            Ordering::Greater => Ok(XSegment { a: q, b: p }),
        }
    }

    /// Whether this edge comes before another: by its first end, then by its second.
    pub fn is_smaller(&self, other: &XSegment) -> bool
        ensures { result ≡ smaller? (edge_of self.now) (edge_of other.now) }
    {
        self < other
    }

    /// Whether this edge has the same ends as another.
    pub fn is_equal(&self, other: &XSegment) -> bool
        ensures { result ≡ equal? (edge_of self.now) (edge_of other.now) }
    {
        self == other
    }

    /// Whether a point is strictly between the ends, in the order of points.
    pub fn has_between(&self, p: IntPoint) -> bool
        ensures { result ≡ between? (edge_of self.now) (point_of p) }
    {
        self.a.is_before(p) && p.is_before(self.b)
    }

    /// The end that is nearer to a point, of two as near the second, and its squared distance.
    pub(crate) fn nearer_end(&self, p: IntPoint) -> (IntPoint, u64)
        ensures end { point_of result.0 ≡ nearer (edge_of self.now) (point_of p) }
        ensures far { result.1 ≡ gap (edge_of self.now) (point_of p) }
    {
        let a = p.sqr_distance(self.a);
        let b = p.sqr_distance(self.b);
        if a < b { (self.a, a) } else { (self.b, b) }
    }
}
