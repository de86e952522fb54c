//! The edge that a segment is, where its first end comes before its second.
ghost use Rattle.plane.specs.Edges.{Proper};
ghost use Rattle.plane.specs.Models.{edge_of};
ghost use Rattle.segm.specs.Segments.{ends_of};
ghost use Rattle.std.specs.Prelude.{◌≡◌, MatchResult};

use crate::segment::Segment;
use crate::winding::WindingCount;
use plane::x_segment::XSegment;

/// The first end of a segment does not come before its second.
#[derive(Clone, Copy, PartialEq, Eq, Debug)]
pub struct NotForward;

impl<C: WindingCount> TryFrom<Segment<C>> for XSegment {
    type Error = NotForward;

    ghost try_from_gives = { λ s r. MatchResult r (λ e. edge_of e ≡ ends_of s) (λ _. ¬ Proper (ends_of s)) };

    fn try_from(segment: Segment<C>) -> Result<XSegment, NotForward> {
        let Segment { a, b, .. } = segment;
        if a < b {
            Ok(XSegment { a, b })
        } else {
            Err(NotForward)
        }
    }
}
