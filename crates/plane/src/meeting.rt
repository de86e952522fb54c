//! How two edges meet, by the four directions of their ends.
ghost use Rattle.std.specs.Prelude.{◌≡◌};
ghost use Rattle.plane.specs.Answers.{meeting, meeting_by, end_met};
ghost use Rattle.plane.specs.Models.{edge_of};

use crate::direction::Direction;
use crate::pair::Pair;

#[derive(Clone, Copy)]
pub(crate) enum Meeting {
    /// All directions are zero: both edges lie on one line.
    Aligned,
    /// They share no point but ends of both.
    Apart,
    /// One direction is zero: this end lies on its partner.
    OtherA,
    OtherB,
    TargetA,
    TargetB,
    /// No direction is zero, and each edge has the ends of the other on its two sides.
    Crossed,
}

impl Meeting {
    /// How a target and another edge meet.
    pub(crate) fn of(pair: Pair) -> Meeting
        ensures { result ≡ meeting (edge_of pair.entry.target.now) (edge_of pair.entry.other.now) }
    {
        let Pair { target, other } = pair;
        let other_a = Direction::of(target.a, target.b, other.a);
        let other_b = Direction::of(target.a, target.b, other.b);
        let target_a = Direction::of(other.a, other.b, target.a);
        let target_b = Direction::of(other.a, other.b, target.b);
        Meeting::by_directions(other_a, other_b, target_a, target_b)
    }

    /// The same, by the directions of the other's ends against the target, and of the target's ends against the other.
    fn by_directions(
        other_a: Direction,
        other_b: Direction,
        target_a: Direction,
        target_b: Direction,
    ) -> Meeting
        ensures { result ≡ meeting_by other_a other_b target_a target_b }
    {
        let zeros = (other_a.zeros() + other_b.zeros()) + (target_a.zeros() + target_b.zeros());
        if zeros == 4 {
            return Meeting::Aligned;
        }
        if zeros > 1 || other_a == other_b || target_a == target_b {
            return Meeting::Apart;
        }
        if zeros == 0 {
            return Meeting::Crossed;
        }
        Meeting::at_end(other_a, other_b, target_a)
    }

    /// Which end lies on its partner, by the directions but the last, which is zero if no other is.
    fn at_end(other_a: Direction, other_b: Direction, target_a: Direction) -> Meeting
        ensures { result ≡ end_met other_a other_b target_a }
    {
        match (other_a, other_b, target_a) {
            (Direction::Straight, _, _) => Meeting::OtherA,
            (_, Direction::Straight, _) => Meeting::OtherB,
            (_, _, Direction::Straight) => Meeting::TargetA,
            _ => Meeting::TargetB,
        }
    }
}
