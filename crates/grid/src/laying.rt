//! Laying the fragments of an edge into the table.
ghost use Rattle.std.specs.Prelude.{◌≡◌, ◌<◌, ◌≤◌, length, ◌≤ℤ◌};
ghost use Rattle.plane.specs.Models.{edge_of};
ghost use Rattle.grid.specs.Rectangles.{last_column, fragments};
ghost use Rattle.grid.specs.Models.{layout_of};
ghost use Rattle.grid.specs.Tables.{content, contents, laid_in, laid_one};

use crate::fragment::Fragment;
use crate::grid_layout::GridLayout;
use crate::laid_edge::LaidEdge;
use plane::x_segment::XSegment;

impl LaidEdge {
    /// The edge over columns that it begins and ends in.
    pub(crate) fn new(layout: GridLayout, s: XSegment) -> LaidEdge
        requires begins { (layout_of layout).left ≤ℤ s.a.x }
        requires few { last_column (layout_of layout) (edge_of s) < 128 }
        ensures over { result.layout ≡ layout }
        ensures edge { result.s ≡ s }
    {
        let first = layout.index(s.a.x);
        // a vertical stands in the column of its x, and else the second x ends a column
        let last = if s.a.x == s.b.x {
            first
        } else {
            layout.index(s.b.x - 1)
        };
        LaidEdge {
            layout,
            s,
            first,
            last,
        }
    }

    /// How many columns it has.
    pub(crate) fn count(self) -> usize
        ensures { result ≡ fragments (layout_of self.layout) (edge_of self.s) }
    {
        self.last + 1 - self.first
    }

    /// Its fragment in a column.
    fn fragment(self, index: usize, column: usize) -> Fragment
        requires after { self.first ≤ column }
        requires until { column ≤ self.last }
        ensures { content result ≡ laid_in (layout_of self.layout) index (edge_of self.s) column }
    {
        Fragment {
            index,
            x_segment: self.s,
            column,
            rect: self.rectangle(column),
            next: None,
        }
    }

    /// Writes its fragments, one for each column.
    pub(crate) fn lay(self, index: usize, places: &mut [Fragment])
        requires { length places.old ≡ fragments (layout_of self.layout) (edge_of self.s) }
        ensures { contents places.new ≡ laid_one (layout_of self.layout) index (edge_of self.s) }
    {
        for (k, place) in places.iter_mut().enumerate() {
            *place = self.fragment(index, self.first + k);
        }
    }
}
