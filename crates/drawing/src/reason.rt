//! Why a line is refused.
ghost use Rattle.std.specs.Prelude.{Some};
ghost use Rattle.drawing.specs.Reasons.{words};

use std::fmt;

#[derive(Clone, Copy, PartialEq, Eq)]
pub enum Reason {
    /// The first line is of another form.
    HeadForm,
    /// The line of an edge is of another form.
    EdgeForm,
    NumberTooLarge,
    CoordinateOutside,
    EndsEqual,
    TooManyEdges,
}

impl fmt::Display for Reason {
    ghost output = { λ reason. Some (words reason) };

    fn fmt<W: fmt::Write>(&self, f: &mut fmt::Formatter<W>) -> fmt::Result {
        f.write_str(match self {
            Reason::HeadForm => "not an exponent and a finder letter",
            Reason::EdgeForm => "not four numbers parted by tabs",
            Reason::NumberTooLarge => "a number is beyond 32 bits",
            Reason::CoordinateOutside => "a coordinate is outside -524288 to 524288",
            Reason::EndsEqual => "the ends are equal",
            Reason::TooManyEdges => "more than 4096 edges",
        })
    }
}
