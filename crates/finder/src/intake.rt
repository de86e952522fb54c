//! What a finder is told before it walks, and the checks of `show` before that of the need.
ghost use Rattle.std.specs.Prelude.{◌≡◌, ◌≤◌};
ghost use Rattle.plane.specs.Models.{plain_point};
ghost use Rattle.finder.specs.Finders.{box_of, counted};
ghost use Rattle.finder.specs.Checks.{Checked};

use crate::checking::announced_edges;
use crate::int_rect::IntRect;
use plane::fault::Fault;
use plane::int_point::IntPoint;
use plane::plain_point::PlainPoint;
use plane::x_segment::XSegment;

/// A box, the number of edges announced, and how many were shown so far.
#[derive(Clone, Copy)]
pub struct Intake {
    pub extent: IntRect,
    pub announced: usize,
    pub shown: usize,
}

impl Intake {
    /// Takes a box and the number of edges to be shown; none was shown yet.
    pub fn new(extent: IntRect, number: usize) -> Intake
        ensures extent { result.extent ≡ extent }
        ensures announced { result.announced ≡ counted number }
        ensures few { result.announced ≤ 4096 }
        ensures shown { result.shown ≡ 0 }
    {
        Intake {
            extent,
            announced: announced_edges(number),
            shown: 0,
        }
    }

    /// The edge from `a` to `b`, or its refusal by the first check that it fails.
    pub fn check(self, walking: bool, a: PlainPoint, b: PlainPoint) -> Result<XSegment, Fault>
        ensures { Checked walking self.announced self.shown (box_of self.extent) (record { a = plain_point a; b = plain_point b }) result }
    {
        if walking {
            return Err(Fault::Walking);
        }
        if self.announced <= self.shown {
            return Err(Fault::AnnouncedReached);
        }
        if a >= b {
            return Err(Fault::EndsEqual);
        }
        let edge = XSegment {
            a: IntPoint::try_from(a)?,
            b: IntPoint::try_from(b)?,
        };
        if !self.extent.contains_edge(edge) {
            return Err(Fault::EdgeOutsideBox);
        }
        Ok(edge)
    }
}
