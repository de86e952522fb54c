//! A point with a count, as a record of an ordered table.
ghost use Rattle.segm.specs.CornerKind.{corner_kind};

use crate::order::zero_point;
use crate::winding::WindingCount;
use plane::int_point::IntPoint;
use std::cmp::Ordering;
use table::keyed::Keyed;

#[derive(Clone, Copy)]
pub struct Corner<C: WindingCount> {
    pub point: IntPoint,
    pub count: C,
}

/// By point; the corners of one point add their counts.
impl<C: WindingCount> Keyed for Corner<C> {
    ghost kind = { corner_kind C.WindingCount.kind };

    fn compare(self, other: Corner<C>) -> Ordering {
        self.point.cmp(&other.point)
    }

    fn join(self, other: Corner<C>) -> Corner<C> {
        Corner {
            point: self.point,
            count: self.count.add(other.count),
        }
    }

    fn is_not_empty(self) -> bool {
        self.count.is_not_empty()
    }

    fn blank() -> Corner<C> {
        Corner {
            point: zero_point(),
            count: C::empty(),
        }
    }
}
