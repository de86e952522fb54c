//! Two edges in their roles, and what their crossing marks on either.
ghost use Rattle.std.specs.Prelude.{◌≡◌, ◌^◌, ◌≤◌, unsigned_abs};
ghost use Rattle.plane.specs.PointOf.{point_of};
ghost use Rattle.plane.specs.Edges.{between?};
ghost use Rattle.plane.specs.Fractions.{numer, denom};
ghost use Rattle.plane.specs.Rounding.{taken, on_lines?};
ghost use Rattle.plane.specs.Rules.{Inner, marking, inner_marked, snapped};
ghost use Rattle.plane.specs.Models.{edge_of, points_of};
ghost use Rattle.plane.specs.Answers.{Shows, Answers};

use crate::cross_solver::{CrossMarks, CrossResult, CrossType, EdgeMarks, EndMask};
use crate::direction::Direction;
use crate::int_point::IntPoint;
use crate::meeting::Meeting;
use crate::offset::Offset;
use crate::ratio::Ratio;
use crate::snap_radius::SnapRadius;
use crate::x_segment::XSegment;

/// A target and another edge.
#[derive(Clone, Copy)]
pub(crate) struct Pair<'a> {
    pub target: &'a XSegment,
    pub other: &'a XSegment,
}

impl Pair<'_> {
    /// What their crossing marks, the target being the first.
    pub(crate) fn marks(self, radius: SnapRadius) -> CrossMarks
        ensures target { points_of result.first ≡ (marking (edge_of self.entry.target.now) (edge_of self.entry.other.now) radius.current).target }
        ensures other { points_of result.second ≡ (marking (edge_of self.entry.target.now) (edge_of self.entry.other.now) radius.current).other }
        ensures flag { result.is_round ≡ (marking (edge_of self.entry.target.now) (edge_of self.entry.other.now) radius.current).rounded }
    {
        let Some(cross) = self.cross(radius) else {
            return CrossMarks {
                first: EdgeMarks::Zero,
                second: EdgeMarks::Zero,
                is_round: false,
            };
        };
        let is_round = cross.is_round;
        let mark = EdgeMarks::One(cross.point);
        match cross.cross_type {
            CrossType::Pure => CrossMarks {
                first: mark,
                second: mark,
                is_round,
            },
            CrossType::TargetEnd => CrossMarks {
                first: EdgeMarks::Zero,
                second: mark,
                is_round,
            },
            CrossType::OtherEnd => CrossMarks {
                first: mark,
                second: EdgeMarks::Zero,
                is_round,
            },
            CrossType::Overlay => {
                let mask = self.collinear();
                let Pair { target, other } = self;
                CrossMarks {
                    first: EdgeMarks::of(
                        mask.is_other_a.then_some(other.a),
                        mask.is_other_b.then_some(other.b),
                    ),
                    second: EdgeMarks::of(
                        mask.is_target_a.then_some(target.a),
                        mask.is_target_b.then_some(target.b),
                    ),
                    is_round,
                }
            }
        }
    }

    /// What the rules answer.
    pub(crate) fn cross(self, radius: SnapRadius) -> Option<CrossResult>
        ensures { Answers (edge_of self.entry.target.now) (edge_of self.entry.other.now) radius.current result }
    {
        match Meeting::of(self) {
            // Stays: nothing is said of this point; a result has the form that it has in i_overlay.
            Meeting::Aligned => Some(CrossResult {
                point: IntPoint { x: 0, y: 0 },
                cross_type: CrossType::Overlay,
                is_round: false,
            }),
            Meeting::Apart => None,
            Meeting::OtherA => Some(CrossResult {
                point: self.other.a,
                cross_type: CrossType::OtherEnd,
                is_round: false,
            }),
            Meeting::OtherB => Some(CrossResult {
                point: self.other.b,
                cross_type: CrossType::OtherEnd,
                is_round: false,
            }),
            Meeting::TargetA => Some(CrossResult {
                point: self.target.a,
                cross_type: CrossType::TargetEnd,
                is_round: false,
            }),
            Meeting::TargetB => Some(CrossResult {
                point: self.target.b,
                cross_type: CrossType::TargetEnd,
                is_round: false,
            }),
            Meeting::Crossed => Some(self.middle_cross(radius)),
        }
    }

    /// Which ends lie strictly between those of the partner.
    pub(crate) fn collinear(self) -> EndMask
        ensures target_a { result.is_target_a ≡ between? (edge_of self.entry.other.now) (point_of self.entry.target.now.a) }
        ensures target_b { result.is_target_b ≡ between? (edge_of self.entry.other.now) (point_of self.entry.target.now.b) }
        ensures other_a { result.is_other_a ≡ between? (edge_of self.entry.target.now) (point_of self.entry.other.now.a) }
        ensures other_b { result.is_other_b ≡ between? (edge_of self.entry.target.now) (point_of self.entry.other.now.b) }
    {
        let Pair { target, other } = self;
        EndMask {
            is_target_a: other.has_between(target.a),
            is_target_b: other.has_between(target.b),
            is_other_a: target.has_between(other.a),
            is_other_b: target.has_between(other.b),
        }
    }

    /// An inner crossing: the point taken, or the end that it is near to.
    fn middle_cross(self, radius: SnapRadius) -> CrossResult
        requires { Inner (edge_of self.target.now) (edge_of self.other.now) }
        ensures { Shows result (inner_marked (edge_of self.entry.target.now) (edge_of self.entry.other.now) radius.current (taken (edge_of self.entry.target.now) (edge_of self.entry.other.now))) }
    {
        let point = self.cross_point();
        if self.on_lines(point) {
            return CrossResult {
                point,
                cross_type: CrossType::Pure,
                is_round: false,
            };
        }
        self.snap(point, radius.radius_squared())
    }

    /// Whether a point is on the lines of both edges.
    fn on_lines(self, point: IntPoint) -> bool
        ensures { result ≡ on_lines? (edge_of self.entry.target.now) (edge_of self.entry.other.now) (point_of point) }
    {
        let Pair { target, other } = self;
        Direction::of(target.a, target.b, point) == Direction::Straight
            && Direction::of(other.a, other.b, point) == Direction::Straight
    }

    /// A rounded crossing: near an end, the nearest end takes the point's place.
    fn snap(self, point: IntPoint, near: u64) -> CrossResult
        ensures { Shows result (snapped (edge_of self.entry.target.now) (edge_of self.entry.other.now) (point_of point) near) }
    {
        let (target_end, target_gap) = self.target.nearer_end(point);
        let (other_end, other_gap) = self.other.nearer_end(point);
        if target_gap.min(other_gap) > near {
            return CrossResult {
                point,
                cross_type: CrossType::Pure,
                is_round: true,
            };
        }
        if target_gap <= other_gap {
            CrossResult {
                point: target_end,
                cross_type: CrossType::TargetEnd,
                is_round: true,
            }
        } else {
            CrossResult {
                point: other_end,
                cross_type: CrossType::OtherEnd,
                is_round: true,
            }
        }
    }

    /// The whole point taken for an inner crossing, by its part of the way along the target.
    // Stays: that a crossing is inner is asked of three calls, each made by the one before; a type for inner pairs would be made once.
    fn cross_point(self) -> IntPoint
        requires { Inner (edge_of self.target.now) (edge_of self.other.now) }
        ensures { point_of result ≡ taken (edge_of self.entry.target.now) (edge_of self.entry.other.now) }
    {
        let along = Offset::between(self.target.a, self.target.b);
        let part = self.part();
        self.target
            .a
            .moved(part.along_x(along), part.along_y(along))
    }

    /// Which part of the way along the target an inner crossing lies.
    fn part(self) -> Ratio
        requires { Inner (edge_of self.target.now) (edge_of self.other.now) }
        ensures n { result.n ≡ numer (edge_of self.entry.target.now) (edge_of self.entry.other.now) }
        ensures d { result.d ≡ denom (edge_of self.entry.target.now) (edge_of self.entry.other.now) }
    {
        Ratio {
            n: self.numerator(),
            d: self.denominator(),
        }
    }

    /// The cross product of the offsets from the target's first end to the ends of the other edge.
    fn numerator(self) -> i64
        ensures value { result ≡ numer (edge_of self.entry.target.now) (edge_of self.entry.other.now) }
        ensures size { unsigned_abs result ≤ 2 ^ 41 }
    {
        let Pair { target, other } = self;
        Offset::between(target.a, other.a).cross_product(Offset::between(target.a, other.b))
    }

    /// The cross product of the target and the other edge, each from its first end to its second.
    fn denominator(self) -> i64
        ensures value { result ≡ denom (edge_of self.entry.target.now) (edge_of self.entry.other.now) }
        ensures size { unsigned_abs result ≤ 2 ^ 41 }
    {
        let Pair { target, other } = self;
        Offset::between(target.a, target.b).cross_product(Offset::between(other.a, other.b))
    }
}
