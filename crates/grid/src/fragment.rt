//! A fragment: an edge in a column, with its rectangle there.
ghost use Rattle.std.specs.Prelude.{◌≡◌};

use finder::int_rect::IntRect;
use plane::int_point::IntPoint;
use plane::x_segment::XSegment;

#[derive(Clone, Copy)]
pub struct Fragment {
    /// The number of the edge.
    pub index: usize,
    pub x_segment: XSegment,
    pub column: usize,
    pub rect: IntRect,
    /// The next fragment of the column, once a walk has begun.
    // Stays: a number and no reference, since the table is the caller's slice; sorting it by columns would lose the order shown, in which it tells the edges.
    pub next: Option<u32>,
}

impl Fragment {
    /// A fragment to fill a table with: what it holds does not matter.
    pub fn blank() -> Fragment
        ensures { (result.index ≡ 0) × (result.column ≡ 0) × (result.next ≡ None) }
    {
        Fragment {
            index: 0,
            x_segment: XSegment {
                a: IntPoint { x: 0, y: 0 },
                b: IntPoint { x: 0, y: 1 },
            },
            column: 0,
            rect: IntRect::ZERO,
            next: None,
        }
    }
}
