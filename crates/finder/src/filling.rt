//! Showing a list of edges to a finder, and the box around them.
ghost use Rattle.std.specs.Prelude.{◌≡◌, map};
ghost use Rattle.plane.specs.PointOf.{point_of};
ghost use Rattle.plane.specs.Models.{plain_point};
ghost use Rattle.finder.specs.Finders.{box_of, refusal, show_answer, show_after};
ghost use Rattle.finder.specs.Boxes.{with_edge, edges_box, LeastBox};
ghost use Rattle.finder.specs.Filling.{Filled, Suitable, ByNeed};

use crate::edge_record::EdgeRecord;
use crate::finding::Finder;
use crate::int_rect::IntRect;
use plane::fault::Fault;

/// The least box around the edges, zeros where there are none.
pub fn extent_of<E: EdgeRecord>(edges: &[E]) -> IntRect
    ensures value { box_of result ≡ edges_box (map E.EdgeRecord.edge edges.now) }
    ensures least { LeastBox (map E.EdgeRecord.edge edges.now) (box_of result) }
{
    let Some(first) = edges.first() else {
        return IntRect::ZERO;
    };
    let around = IntRect::at(first.first_end());
    edges
        .iter()
        .fold(around, |extent, edge| widened(extent, *edge))
}

/// The least box that holds this one and an edge.
fn widened<E: EdgeRecord>(extent: IntRect, edge: E) -> IntRect
    ensures { box_of result ≡ with_edge (box_of extent) (E.EdgeRecord.edge edge) }
{
    extent
        .with_point(edge.first_end())
        .with_point(edge.second_end())
}

/// Starts the finder, and shows it the edges in order; the first refusal ends that.
pub fn fill<E: EdgeRecord, F: Finder>(
    edges: &[E],
    extent: IntRect,
    finder: &mut F,
) -> Result<(), Fault>
    ensures filled { Filled F.Finder.need (F.Finder.meaning finder.old).capacity (box_of extent) (map E.EdgeRecord.edge edges.now) (F.Finder.meaning finder.new) result }
    ensures by_need { Suitable (box_of extent) (map E.EdgeRecord.edge edges.now) → ByNeed F.Finder.need (F.Finder.meaning finder.old).capacity (box_of extent) (map E.EdgeRecord.edge edges.now) result }
{
    finder.start(extent, edges.len());
    for edge in edges {
        show_edge(*edge, finder)?;
    }
    Ok(())
}

/// Shows the edge of a record.
fn show_edge<E: EdgeRecord, F: Finder>(edge: E, finder: &mut F) -> Result<(), Fault>
    ensures answers { result ≡ show_answer (refusal F.Finder.need (F.Finder.meaning finder.old) (E.EdgeRecord.edge edge)) }
    ensures leaves { F.Finder.meaning finder.new ≡ show_after (refusal F.Finder.need (F.Finder.meaning finder.old) (E.EdgeRecord.edge edge)) (E.EdgeRecord.edge edge) (F.Finder.meaning finder.old) }
{
    finder.show(edge.first_end().into(), edge.second_end().into())
}
