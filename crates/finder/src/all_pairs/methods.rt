//! The calls of the all-pairs finder.
ghost use Rattle.std.specs.Prelude.{◌≡◌, ◌<◌, length};
ghost use Rattle.finder.specs.Finders.{rest, unstarted};
ghost use Rattle.finder.specs.Pairs.{pairs_meaning, pairs_need, pairs_walks, pairs_from};

use crate::all_pairs::AllPairs;
use crate::finding::Finder;
use crate::int_rect::IntRect;
use crate::intake::Intake;
use crate::plain_edge::PlainEdge;
use plane::fault::Fault;
use plane::plain_point::PlainPoint;

impl<'a> AllPairs<'a> {
    /// A finder never started. The length of its table is its capacity.
    pub fn new(table: &'a mut [PlainEdge]) -> AllPairs<'a>
        ensures { pairs_meaning result ≡ unstarted (length table.old) }
    {
        AllPairs {
            table,
            intake: Intake::new(IntRect::ZERO, 0),
            ahead: None,
        }
    }
}

impl<'a> Finder for AllPairs<'a> {
    ghost meaning = { pairs_meaning };

    ghost need = { pairs_need };

    ghost walks = { pairs_walks };

    fn start(&mut self, extent: IntRect, number: usize) {
        self.intake = Intake::new(extent, number);
        self.ahead = None;
    }

    fn show(&mut self, a: PlainPoint, b: PlainPoint) -> Result<(), Fault> {
        self.intake.check(self.ahead.is_some(), a, b)?;
        let place = self.intake.shown;
        if self.table.len() <= place {
            return Err(Fault::FinderFull(place));
        }
        self.table[place] = PlainEdge { a, b };
        self.intake.shown += 1;
        Ok(())
    }

    /// A walk begins with (0, 1).
    fn next(&mut self) -> Option<(usize, usize)> {
        let (i, j) = self.ahead.unwrap_or((0, 1));
        self.ahead = Some(following(i, j, self.intake.shown));
        if j < self.intake.shown {
            Some((i, j))
        } else {
            None
        }
    }
}

/// Where the pairs behind (i, j) begin, among n edges.
#[tactic(auto, using(crate::proofs::Rows::rest_past, crate::proofs::Rows::rest_more, crate::proofs::Rows::rest_last))]
fn following(i: usize, j: usize, n: usize) -> (usize, usize)
    requires { i < j }
    ensures apart { result.0 < result.1 }
    ensures goes_on { pairs_from n result.0 result.1 ≡ rest (pairs_from n i j) }
{
    if j >= n {
        (i, j)
    } else if j + 1 < n {
        (i, j + 1)
    } else {
        (i + 1, i + 2)
    }
}
