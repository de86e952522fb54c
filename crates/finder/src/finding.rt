//! The interface of every finder; its ghost members are what it means.
ghost use Rattle.std.specs.Prelude.{◌≡◌};
ghost use Rattle.plane.specs.Edges.{Edge};
ghost use Rattle.plane.specs.Models.{plain_point};
ghost use Rattle.finder.specs.Finders.{Meaning, Needs, Walks, box_of, started, refusal, show_answer, show_after, Next};

use crate::int_rect::IntRect;
use plane::fault::Fault;
use plane::plain_point::PlainPoint;

pub trait Finder {
    ghost meaning: { Self → Meaning };

    ghost need: { Needs };

    ghost walks: { Walks };

    /// Forgets edges and pairs, and takes a box and the number of edges to be shown.
    fn start(&mut self, extent: IntRect, number: usize)
        ensures { meaning self.new ≡ started (box_of extent) number (meaning self.old) };

    /// Takes one more edge, or refuses it and changes nothing.
    fn show(&mut self, a: PlainPoint, b: PlainPoint) -> Result<(), Fault>
        ensures answers { result ≡ show_answer (refusal need (meaning self.old) (record { a = plain_point a; b = plain_point b })) }
        ensures leaves { meaning self.new ≡ show_after (refusal need (meaning self.old) (record { a = plain_point a; b = plain_point b })) (record { a = plain_point a; b = plain_point b }) (meaning self.old) };

    /// The next pair of numbers, or none where all were given. The first call begins the walk.
    fn next(&mut self) -> Option<(usize, usize)>
        ensures { Next walks (meaning self.old) (meaning self.new) result };
}
