//! Taking pairs from a finder until none is left.
ghost use Rattle.finder.specs.Finders.{Pair};
ghost use Rattle.finder.specs.Taking.{Took, Visited};

use crate::finding::Finder;

/// What is done with one pair after another.
pub trait PairVisitor {
    ghost visits: { Self → Pair → Self → Type 0 };

    fn visit(&mut self, i: usize, j: usize)
        ensures { visits self.old (i, j) self.new };
}

/// Takes all pairs, hands each to the visitor, and tells how many there were.
pub fn take_all<F: Finder, V: PairVisitor>(finder: &mut F, visitor: &mut V) -> usize
    ensures { Visited F.Finder.walks (F.Finder.meaning finder.old) (F.Finder.meaning finder.new) result V.PairVisitor.visits visitor.old visitor.new }
{
    let mut taken: usize = 0;
    while let Some((i, j)) = finder.next() {
        visitor.visit(i, j);
        taken = taken.saturating_add(1);
    }
    taken
}

/// Takes all pairs, and tells how many there were.
pub fn count_pairs<F: Finder>(finder: &mut F) -> usize
    ensures { Took F.Finder.walks (F.Finder.meaning finder.old) (F.Finder.meaning finder.new) result }
{
    take_all(finder, &mut Idle)
}

/// Does nothing with a pair.
#[derive(Drop)]
struct Idle;

impl PairVisitor for Idle {
    ghost visits = { λ _ _ _. Unit {0} };

    fn visit(&mut self, _i: usize, _j: usize) {}
}
