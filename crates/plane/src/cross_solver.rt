//! What the crossing of two edges marks on either.
ghost use Rattle.std.specs.Prelude.{◌≡◌, ◌||◌, ◌++◌};
ghost use Rattle.plane.specs.Rules.{marked_on, rounded?};
ghost use Rattle.plane.specs.Laws.{TouchIsMarked, InnerPoint, NearestPoint, RoundedExactly, ExactMarks, Snaps, MarksInside, MarksRanged, TargetSlants};
ghost use Rattle.plane.specs.Worked.{WorkedCrossings};
ghost use Rattle.plane.specs.Models.{edge_of, point_if, points_of};
ghost use Rattle.plane.specs.Answers.{Answers};

use crate::int_point::IntPoint;
use crate::pair::Pair;
use crate::snap_radius::SnapRadius;
use crate::x_segment::XSegment;

#[derive(Clone, Copy)]
pub enum CrossType {
    /// The point is marked on both edges.
    Pure,
    /// The point is an end of the target, marked on the other edge.
    TargetEnd,
    /// The point is an end of the other edge, marked on the target.
    OtherEnd,
    /// Both edges lie on one line.
    Overlay,
}

#[derive(Clone, Copy)]
pub struct CrossResult {
    pub point: IntPoint,
    pub cross_type: CrossType,
    pub is_round: bool,
}

/// Which ends of two edges lie strictly between the ends of their partner, in the order of points.
// Stays: four flags, under the name that they have in i_overlay.
#[derive(Clone, Copy)]
pub struct EndMask {
    pub is_target_a: bool,
    pub is_target_b: bool,
    pub is_other_a: bool,
    pub is_other_b: bool,
}

/// The marks of a crossing on one of its edges.
#[derive(Clone, Copy)]
pub enum EdgeMarks {
    Zero,
    One(IntPoint),
    Two(IntPoint, IntPoint),
}

/// The marks of a crossing, by its edges in the order in which they were given.
#[derive(Clone, Copy)]
pub struct CrossMarks {
    pub first: EdgeMarks,
    pub second: EdgeMarks,
    pub is_round: bool,
}

pub struct CrossSolver;

impl EndMask {
    /// Whether there is one at all.
    pub(crate) fn has_any(self) -> bool
        ensures { result ≡ ((self.is_other_a || self.is_other_b) || (self.is_target_a || self.is_target_b)) }
    {
        (self.is_other_a || self.is_other_b) || (self.is_target_a || self.is_target_b)
    }
}

impl EdgeMarks {
    /// Those of two points that there are, in order.
    pub(crate) fn of(p: Option<IntPoint>, q: Option<IntPoint>) -> EdgeMarks
        ensures { points_of result ≡ point_if p ++ point_if q }
    {
        match (p, q) {
            (Some(p), Some(q)) => EdgeMarks::Two(p, q),
            (Some(p), None) | (None, Some(p)) => EdgeMarks::One(p),
            (None, None) => EdgeMarks::Zero,
        }
    }
}

impl CrossSolver {
    /// What the crossing of two edges marks on each, the smaller one being the target.
    pub fn marks(first: &XSegment, second: &XSegment, radius: SnapRadius) -> CrossMarks
        ensures on_first { points_of result.first ≡ marked_on (edge_of first.now) (edge_of second.now) radius.current }
        ensures on_second { points_of result.second ≡ marked_on (edge_of second.now) (edge_of first.now) radius.current }
        ensures flag { result.is_round ≡ rounded? (edge_of first.now) (edge_of second.now) radius.current }
        ensures touch_is_marked { TouchIsMarked (edge_of first.now) (edge_of second.now) radius.current }
        ensures inner_point { InnerPoint (edge_of first.now) (edge_of second.now) }
        ensures nearest_point { NearestPoint (edge_of first.now) (edge_of second.now) }
        ensures rounded_exactly { RoundedExactly (edge_of first.now) (edge_of second.now) radius.current }
        ensures exact_marks { (ExactMarks (edge_of first.now) (edge_of second.now) radius.current) × (ExactMarks (edge_of second.now) (edge_of first.now) radius.current) }
        ensures snaps { Snaps (edge_of first.now) (edge_of second.now) radius.current }
        ensures marks_inside { (MarksInside (edge_of first.now) (edge_of second.now) radius.current) × (MarksInside (edge_of second.now) (edge_of first.now) radius.current) }
        ensures marks_ranged { (MarksRanged (edge_of first.now) (edge_of second.now) radius.current) × (MarksRanged (edge_of second.now) (edge_of first.now) radius.current) }
        ensures target_slants { TargetSlants (edge_of first.now) (edge_of second.now) }
        ensures worked { WorkedCrossings }
    {
        if second.is_smaller(first) {
            let pair = Pair {
                target: second,
                other: first,
            };
            let turned = pair.marks(radius);
            return CrossMarks {
                first: turned.second,
                second: turned.first,
                ..turned
            };
        }
        let pair = Pair {
            target: first,
            other: second,
        };
        pair.marks(radius)
    }

    /// What the rules answer for a target and another edge, in the roles given.
    pub fn cross(target: &XSegment, other: &XSegment, radius: SnapRadius) -> Option<CrossResult>
        ensures { Answers (edge_of target.now) (edge_of other.now) radius.current result }
    {
        Pair { target, other }.cross(radius)
    }
}
