//! An edge over the columns of a grid.
ghost use Rattle.std.specs.Prelude.{◌≡◌, ◌<◌, ◌≤◌, ◌≤ℤ◌};
ghost use Rattle.plane.specs.Models.{edge_of};
ghost use Rattle.grid.specs.Rectangles.{first_column, last_column};
ghost use Rattle.grid.specs.Models.{layout_of};

use crate::grid_layout::GridLayout;
use plane::x_segment::XSegment;

/// An edge with a fragment in each column from the first to the last.
#[derive(Clone, Copy)]
pub(crate) struct LaidEdge {
    pub(crate) layout: GridLayout,
    pub(crate) s: XSegment,
    pub(crate) first: usize,
    pub(crate) last: usize,
    ghost begins: { (layout_of layout).left ≤ℤ s.a.x },
    ghost starts: { first ≡ first_column (layout_of layout) (edge_of s) },
    ghost ends: { last ≡ last_column (layout_of layout) (edge_of s) },
    ghost few: { last < 128 },
    ghost ordered: { first ≤ last },
}
