//! The last line of a report: how many edges, pairs, touches and marks, and whether a crossing was rounded.
ghost use Rattle.std.specs.Prelude.{Some};
ghost use Rattle.report.specs.Summaries.{summed};

use crate::counted::Counted;
use std::fmt;

#[derive(Clone, Copy)]
pub struct Summary {
    pub edges: usize,
    pub pairs: usize,
    pub touches: usize,
    pub marks: usize,
    pub is_rounded: bool,
}

impl fmt::Display for Summary {
    ghost output = { λ s. Some (summed s) };

    fn fmt<W: fmt::Write>(&self, f: &mut fmt::Formatter<W>) -> fmt::Result {
        let edges = Counted(self.edges, "edge", "edges");
        let pairs = Counted(self.pairs, "pair", "pairs");
        let touches = Counted(self.touches, "touch", "touches");
        let marks = Counted(self.marks, "mark", "marks");
        let exactness = if self.is_rounded { "rounded" } else { "exact" };
        write!(f, "{edges}, {pairs}, {touches}, {marks}, {exactness}")
    }
}
