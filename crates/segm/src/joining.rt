//! Segments joined into a table of edges, and marks into a table of marks.
ghost use Rattle.plane.specs.Models.{points_of};
ghost use Rattle.segm.specs.Laws.{Adds, CountsDetermine};
ghost use Rattle.segm.specs.MarkKind.{mark_kind};
ghost use Rattle.segm.specs.Marked.{Marked, MarksDetermine, with_mark};
ghost use Rattle.segm.specs.SegmentKind.{segment_kind};
ghost use Rattle.segm.specs.Spots.{Come, Crowded, SameSize, spots};
ghost use Rattle.segm.specs.declared.line_mark.LineMark.{LineMark as Mark};
ghost use Rattle.std.specs.Prelude.{◌≡◌, Bool, OnErr, OnOk};
ghost use Rattle.table.specs.Contents.{Answers};
ghost use Rattle.table.specs.Tables.{content_of, places_name, records_of};

use crate::line_mark::LineMark;
use crate::segment::Segment;
use crate::winding::WindingCount;
use plane::cross_solver::EdgeMarks;
use table::ordered_table::{NoRoom, OrderedTable};

/// Brings a segment to its place: its count is added to that of the edge with its ends, and an empty sum leaves nothing.
pub fn join_segment<C: WindingCount>(
    edges: &mut OrderedTable<'_, Segment<C>>,
    s: Segment<C>,
) -> Result<(), NoRoom>
    ensures answer { Answers (segment_kind C.WindingCount.kind) s (content_of edges.old) (content_of edges.new) result }
    ensures adds { OnOk result (Adds C.WindingCount.kind s (records_of edges.old) (records_of edges.new)) }
    ensures determined { CountsDetermine C.WindingCount.kind }
    ensures same { places_name edges.new ≡ places_name edges.old }
{
    edges.insert(s)
}

/// Brings a mark to its place, where there may be an equal one already.
pub fn join_mark(marks: &mut OrderedTable<'_, LineMark>, m: LineMark) -> Result<(), NoRoom>
    ensures answer { Answers mark_kind m (content_of marks.old) (content_of marks.new) result }
    ensures marked { OnOk result ((P : Mark → Bool) → Marked P (records_of marks.old) → Marked (with_mark m P) (records_of marks.new)) }
    ensures determined { MarksDetermine }
    ensures same { places_name marks.new ≡ places_name marks.old }
{
    marks.insert(m)
}

/// Brings the points that a crossing marks on an edge to their places. It is refused only where there are then more marks than room.
pub fn join_marks(
    marks: &mut OrderedTable<'_, LineMark>,
    index: usize,
    points: EdgeMarks,
) -> Result<(), NoRoom>
    ensures marked { OnOk result (Come (spots index (points_of points)) (records_of marks.old) (records_of marks.new)) }
    ensures refused { OnErr result (Crowded (spots index (points_of points)) (records_of marks.old) marks.old.room) }
    ensures size { SameSize (content_of marks.old) (content_of marks.new) }
    ensures same { places_name marks.new ≡ places_name marks.old }
{
    match points {
        EdgeMarks::Zero => Ok(()),
        EdgeMarks::One(point) => join_mark(marks, LineMark { index, point }),
        EdgeMarks::Two(first, second) => {
            join_mark(
                marks,
                LineMark {
                    index,
                    point: first,
                },
            )?;
            join_mark(
                marks,
                LineMark {
                    index,
                    point: second,
                },
            )
        }
    }
}
