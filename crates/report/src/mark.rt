//! The line of a mark: the number of its edge, and its point.
ghost use Rattle.std.specs.Prelude.{◌++◌, Some, codes, decimal};
ghost use Rattle.std.specs.Fmt.{signed_decimal};

use segm::line_mark::LineMark;
use std::fmt;

#[derive(Clone, Copy)]
pub struct MarkLine(pub LineMark);

impl fmt::Display for MarkLine {
    ghost output = { λ m. Some (codes "M\t" ++ (decimal m.0.index ++ (codes "\t" ++ (signed_decimal m.0.point.x ++ (codes "\t" ++ signed_decimal m.0.point.y))))) };

    fn fmt<W: fmt::Write>(&self, f: &mut fmt::Formatter<W>) -> fmt::Result {
        let mark = self.0;
        write!(f, "M\t{}\t{}\t{}", mark.index, mark.point.x, mark.point.y)
    }
}
