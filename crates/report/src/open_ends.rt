//! The open ends of a drawing: the points whose balance is not empty when each edge, as its line directs it, counts one for the subject.
ghost use Rattle.std.specs.Prelude.{◌≡◌, IfOk, Some};
ghost use Rattle.segm.specs.BooleanKind.{boolean_kind};
ghost use Rattle.segm.specs.Open.{Open};
ghost use Rattle.report.specs.Directed.{directed_edge, directed_edges};
ghost use Rattle.report.specs.Summaries.{open_words};

use crate::counted::Counted;
use drawing::drawing::Drawing;
use drawing::drawn_edge::DrawnEdge;
use segm::boolean::ShapeCountBoolean;
use segm::corner::Corner;
use segm::open_ends::open_ends;
use segm::segment::Segment;
use std::alloc::{AllocError, Global};
use std::fmt;
use table::keyed::Keyed;

#[derive(Clone, Copy)]
pub struct OpenEnds {
    pub number: usize,
}

impl fmt::Display for OpenEnds {
    ghost output = { λ ends. Some (open_words ends.number) };

    fn fmt<W: fmt::Write>(&self, f: &mut fmt::Formatter<W>) -> fmt::Result {
        let ends = Counted(self.number, "open end", "open ends");
        write!(f, "{ends}")
    }
}

impl OpenEnds {
    /// How many a drawing has.
    pub fn of(heap: Global, drawing: &Drawing) -> Result<OpenEnds, AllocError>
        ensures { IfOk result (λ ends. Open boolean_kind (directed_edges drawing.now.edges.items) ends.number) }
    {
        let mut places = vec![in heap; Corner::blank(); 2 * drawing.edges.len()]?;
        let segments = direct_edges(heap, drawing)?;
        match open_ends(segments.as_slice(), places.as_mut_slice()) {
            Ok(number) => Ok(OpenEnds { number }),
            // Two places for each segment are enough.
            Err(_) => unreachable(),
        }
    }
}

/// The edges of a drawing as their lines direct them.
fn direct_edges(
    heap: Global,
    drawing: &Drawing,
) -> Result<Vec<Segment<ShapeCountBoolean>>, AllocError>
    ensures { IfOk result (λ segments. segments.items ≡ directed_edges drawing.now.edges.items) }
{
    drawing
        .edges
        .iter()
        .map(|drawn| direct(*drawn))
        .collect(heap)
}

fn direct(drawn: DrawnEdge) -> Segment<ShapeCountBoolean>
    ensures { result ≡ directed_edge drawn }
{
    let subj = if drawn.is_turned { -1 } else { 1 };
    Segment {
        a: drawn.edge.a,
        b: drawn.edge.b,
        count: ShapeCountBoolean { subj, clip: 0 },
    }
}
