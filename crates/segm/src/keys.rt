//! Segments and marks as records of an ordered table.
ghost use Rattle.plane.specs.Edges.{◌⊏◌};
ghost use Rattle.segm.specs.MarkKind.{mark_kind};
ghost use Rattle.segm.specs.Orders.{edge_order};
ghost use Rattle.segm.specs.SegmentKind.{segment_kind};
ghost use Rattle.segm.specs.Segments.{ends_of};
ghost use Rattle.std.specs.Ordering.{MatchOrdering};
ghost use Rattle.std.specs.Prelude.{◌≡◌};

use crate::line_mark::LineMark;
use crate::order::zero_point;
use crate::segment::Segment;
use crate::winding::WindingCount;
use std::cmp::Ordering;
use table::keyed::Keyed;

/// By first end, then second; equal edges add their counts.
impl<C: WindingCount> Keyed for Segment<C> {
    ghost kind = { segment_kind C.WindingCount.kind };

    fn compare(self, other: Segment<C>) -> Ordering
        ensures answer { result ≡ edge_order (ends_of self) (ends_of other) }
        ensures tells { MatchOrdering result (ends_of self ⊏ ends_of other) (ends_of self ≡ ends_of other) (ends_of other ⊏ ends_of self) }
    {
        (self.a, self.b).cmp(&(other.a, other.b))
    }

    fn join(self, other: Segment<C>) -> Segment<C> {
        Segment {
            a: self.a,
            b: self.b,
            count: self.count.add(other.count),
        }
    }

    fn is_not_empty(self) -> bool {
        self.count.is_not_empty()
    }

    fn blank() -> Segment<C> {
        Segment {
            a: zero_point(),
            b: zero_point(),
            count: C::empty(),
        }
    }
}

/// By index, then point; equal marks are one.
impl Keyed for LineMark {
    ghost kind = { mark_kind };

    fn compare(self, other: LineMark) -> Ordering {
        self.cmp(&other)
    }

    fn join(self, other: LineMark) -> LineMark {
        self
    }

    fn is_not_empty(self) -> bool {
        true
    }

    fn blank() -> LineMark {
        LineMark {
            index: 0,
            point: zero_point(),
        }
    }
}
