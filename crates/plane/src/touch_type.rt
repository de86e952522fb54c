//! In which way two edges touch.
ghost use Rattle.std.specs.Prelude.{◌≡◌};
ghost use Rattle.plane.specs.Edges.{zeros};
ghost use Rattle.plane.specs.Models.{edge_of, TouchesAs};

use crate::meeting::Meeting;
use crate::pair::Pair;
use crate::x_segment::XSegment;

#[derive(Clone, Copy)]
pub enum TouchType {
    /// They share more than one point.
    Overlay,
    /// They share one point, and it is an end of one.
    End,
    /// They share one point, inside both.
    Inner,
}

impl TouchType {
    /// In which way two edges touch, or none where they do not.
    pub fn of(first: &XSegment, second: &XSegment) -> Option<TouchType>
        ensures { TouchesAs (edge_of first.now) (edge_of second.now) result }
    {
        let pair = Pair {
            target: first,
            other: second,
        };
        match Meeting::of(pair) {
            Meeting::Aligned => TouchType::on_one_line(pair),
            Meeting::Apart => None,
            Meeting::Crossed => Some(TouchType::Inner),
            _ => Some(TouchType::End),
        }
    }

    /// The same for edges on one line: they touch where an end is strictly between those of the partner, or where they are equal.
    fn on_one_line(pair: Pair) -> Option<TouchType>
        requires { zeros (edge_of pair.target.now) (edge_of pair.other.now) ≡ 4 }
        ensures { TouchesAs (edge_of pair.entry.target.now) (edge_of pair.entry.other.now) result }
    {
        if pair.target.is_equal(pair.other) {
            return Some(TouchType::Overlay);
        }
        if pair.collinear().has_any() {
            return Some(TouchType::Overlay);
        }
        None
    }
}
