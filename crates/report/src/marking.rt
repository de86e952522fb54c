//! The marks of a drawing: what the crossings of its edges mark, in order and each once.
ghost use Rattle.std.specs.Prelude.{◌≡◌, IfSome, IfOk, OnOk};
ghost use Rattle.plane.specs.Models.{edge_of};
ghost use Rattle.segm.specs.Spots.{Come};
ghost use Rattle.table.specs.Tables.{records_of};
ghost use Rattle.report.specs.Marks.{Alone, Marked, all_marks, any_rounded?, edges_of, marks_on, rounded_on?};

use drawing::drawing::Drawing;
use drawing::drawn_edge::DrawnEdge;
use plane::cross_solver::CrossSolver;
use plane::snap_radius::SnapRadius;
use plane::x_segment::XSegment;
use segm::joining::join_marks;
use segm::line_mark::LineMark;
use std::alloc::{AllocError, Global};
use table::keyed::Keyed;
use table::ordered_table::{NoRoom, OrderedTable};

/// The least length of a first table.
const FEWEST_PLACES: usize = 1024;

/// More marks than this are as many as find no memory.
const MOST_PLACES: usize = 1 << 25;

#[derive(Drop)]
pub struct Marking {
    pub marks: Vec<LineMark>,
    pub is_rounded: bool,
}

/// Edges that are crossed with one another, and the radius within which a crossing is taken to an end.
#[derive(Clone, Copy)]
struct Crossings<'a> {
    edges: &'a [DrawnEdge],
    radius: SnapRadius,
}

/// The marks of a drawing. Where a table is too short, one twice as long is filled from the start.
pub fn mark_drawing(heap: Global, drawing: &Drawing) -> Result<Marking, AllocError>
    ensures { IfOk result (λ m. Marked drawing.now.exponent (edges_of drawing.now.edges.items) m.marks.items m.is_rounded × Alone) }
{
    let crossings = Crossings {
        edges: drawing.edges.as_slice(),
        radius: SnapRadius::new(drawing.exponent, 0),
    };
    let mut room = FEWEST_PLACES.max(4 * drawing.edges.len());
    // Stays: an iterator of doubled numbers, `successors`, has no end that is proved, and a range of powers begins at no multiple of the edges.
    while room <= MOST_PLACES {
        if let Some(marking) = crossings.mark_within(heap, room)? {
            return Ok(marking);
        }
        room *= 2;
    }
    Err(AllocError)
}

impl Crossings<'_> {
    /// The marks by a table of some places; none where they are too few.
    fn mark_within(&self, heap: Global, room: usize) -> Result<Option<Marking>, AllocError>
        ensures { IfOk result (λ o. IfSome o (λ m. Marked self.now.radius.current (edges_of self.now.edges.now) m.marks.items m.is_rounded)) }
    {
        let mut places = vec![in heap; LineMark::blank(); room]?;
        let mut table = OrderedTable::open(places.as_mut_slice(), room);
        let Ok(is_rounded) = self.mark_all(&mut table) else {
            return Ok(None);
        };
        let marks = Vec::from_slice(heap, table.records())?;
        Ok(Some(Marking { marks, is_rounded }))
    }

    /// Adds all marks, edge after edge, so that a mark comes to the end of the table or not far from it, and tells whether a crossing was rounded.
    fn mark_all(&self, table: &mut OrderedTable<'_, LineMark>) -> Result<bool, NoRoom>
        ensures marks { OnOk result (Come (all_marks self.now.radius.current (edges_of self.now.edges.now) 0 (edges_of self.now.edges.now)) (records_of table.old) (records_of table.new)) }
        ensures rounded { IfOk result (λ told. told ≡ any_rounded? self.now.radius.current (edges_of self.now.edges.now) (edges_of self.now.edges.now)) }
    {
        let mut is_rounded = false;
        for (index, drawn) in self.edges.iter().enumerate() {
            is_rounded |= self.mark_edge(table, index, &drawn.edge)?;
        }
        Ok(is_rounded)
    }

    /// Adds the marks on one edge, and tells whether a crossing of it was rounded.
    fn mark_edge(
        &self,
        table: &mut OrderedTable<'_, LineMark>,
        index: usize,
        edge: &XSegment,
    ) -> Result<bool, NoRoom>
        ensures marks { OnOk result (Come (marks_on self.now.radius.current index (edge_of edge.now) (edges_of self.now.edges.now)) (records_of table.old) (records_of table.new)) }
        ensures rounded { IfOk result (λ told. told ≡ rounded_on? self.now.radius.current (edge_of edge.now) (edges_of self.now.edges.now)) }
    {
        let mut is_rounded = false;
        for other in self.edges {
            let crossed = CrossSolver::marks(edge, &other.edge, self.radius);
            join_marks(table, index, crossed.first)?;
            is_rounded |= crossed.is_round;
        }
        Ok(is_rounded)
    }
}
