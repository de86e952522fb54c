//! A touch: two edges by their numbers, and in which way they touch.
ghost use Rattle.std.specs.Prelude.{◌++◌, Some, codes, decimal};
ghost use Rattle.report.specs.Touches.{letter};

use plane::touch_type::TouchType;
use std::fmt;

#[derive(Clone, Copy)]
pub struct Touch {
    pub first: usize,
    pub second: usize,
    pub kind: TouchType,
}

impl fmt::Display for Touch {
    ghost output = { λ t. Some (decimal t.first ++ (codes "\t" ++ (decimal t.second ++ (codes "\t" ++ letter t.kind)))) };

    fn fmt<W: fmt::Write>(&self, f: &mut fmt::Formatter<W>) -> fmt::Result {
        let letter = match self.kind {
            TouchType::Overlay => "V",
            TouchType::End => "D",
            TouchType::Inner => "I",
        };
        write!(f, "{}\t{}\t{letter}", self.first, self.second)
    }
}
