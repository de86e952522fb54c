//! A box of points; it may be turned inside out.
ghost use Rattle.std.specs.Prelude.{◌≡◌, ◌&&◌};
ghost use Rattle.plane.specs.PointOf.{point_of};
ghost use Rattle.finder.specs.Finders.{box_of, in_box?};
ghost use Rattle.finder.specs.Boxes.{point_box, with_point};

use plane::int_point::IntPoint;
use plane::x_segment::XSegment;

#[derive(Clone, Copy)]
pub struct IntRect {
    pub min_x: i32,
    pub max_x: i32,
    pub min_y: i32,
    pub max_y: i32,
}

impl IntRect {
    /// The box of a finder never started, and of no edges.
    pub const ZERO: IntRect = IntRect {
        min_x: 0,
        max_x: 0,
        min_y: 0,
        max_y: 0,
    };

    /// The least box that holds a point.
    pub fn at(p: IntPoint) -> IntRect
        ensures { box_of result ≡ point_box (point_of p) }
    {
        IntRect {
            min_x: p.x,
            max_x: p.x,
            min_y: p.y,
            max_y: p.y,
        }
    }

    /// The least box that holds this one and a point.
    pub fn with_point(self, p: IntPoint) -> IntRect
        ensures { box_of result ≡ with_point (box_of self) (point_of p) }
    {
        IntRect {
            min_x: self.min_x.min(p.x),
            max_x: self.max_x.max(p.x),
            min_y: self.min_y.min(p.y),
            max_y: self.max_y.max(p.y),
        }
    }

    /// Whether a point is in the box, borders included.
    pub fn contains(self, p: IntPoint) -> bool
        ensures { result ≡ in_box? (box_of self) (point_of p) }
    {
        (self.min_x <= p.x && p.x <= self.max_x) && (self.min_y <= p.y && p.y <= self.max_y)
    }

    /// Whether both ends of an edge are in the box.
    pub fn contains_edge(self, edge: XSegment) -> bool
        ensures { result ≡ (in_box? (box_of self) (point_of edge.a) && in_box? (box_of self) (point_of edge.b)) }
    {
        self.contains(edge.a) && self.contains(edge.b)
    }
}
