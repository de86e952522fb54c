//! What all finders share: the number announced, and the checks of an edge shown.
ghost use Rattle.std.specs.Prelude.{◌≡◌, ◌≤◌};
ghost use Rattle.plane.specs.Models.{plain_point, MadePoint};
ghost use Rattle.finder.specs.Finders.{box_of, counted};
ghost use Rattle.finder.specs.Checks.{Checked};

use crate::int_rect::IntRect;
use crate::intake::Intake;
use plane::fault::Fault;
use plane::int_point::IntPoint;
use plane::plain_point::PlainPoint;
use plane::x_segment::XSegment;

/// The most edges that a finder takes.
const MOST_EDGES: usize = 4096;

/// The number of edges that is announced by a number: one above the most counts as 0.
pub fn announced_edges(number: usize) -> usize
    ensures value { result ≡ counted number }
    ensures few { result ≤ 4096 }
{
    if number <= MOST_EDGES { number } else { 0 }
}

/// The same point, refused where a coordinate is outside.
pub fn in_range(p: PlainPoint) -> Result<IntPoint, Fault>
    ensures { MadePoint (plain_point p) result }
{
    IntPoint::try_from(p)
}

/// The edge from `a` to `b`, or its refusal by the first check that it fails.
// Stays: a call that was promised, over the one that both finders make.
pub fn checked(
    walking: bool,
    announced: usize,
    shown: usize,
    extent: IntRect,
    a: PlainPoint,
    b: PlainPoint,
) -> Result<XSegment, Fault>
    ensures { Checked walking announced shown (box_of extent) (record { a = plain_point a; b = plain_point b }) result }
{
    Intake {
        extent,
        announced,
        shown,
    }
    .check(walking, a, b)
}
