//! Edges cut at their marks, and the pieces joined into a table.
ghost use Rattle.std.specs.Prelude.{◌≡◌, ◌==◌, ◌<◌, ◌≤◌, [], ◌∷◌, ◌++◌, map, length, Err, IfOk};
ghost use Rattle.plane.specs.declared.fault.Fault.TheVariants.{PiecesFull};
ghost use Rattle.std.specs.List.{prefix_len};
ghost use Rattle.table.specs.Listings.{Ordered};
ghost use Rattle.table.specs.Tables.{content_of, places_name};
ghost use Rattle.segm.specs.MarkKind.{mark_kind};
ghost use Rattle.rounds.specs.Pieces.{cut, cut_from, pieces};
ghost use Rattle.cutting.specs.Cutting.{Brings, BringsIn, Joins, Keeps, point_at};

use crate::placing::place_marks;
use plane::fault::Fault;
use segm::line_mark::LineMark;
use segm::segment::Segment;
use segm::winding::WindingCount;
use table::ordered_table::OrderedTable;

/// Cuts every edge at its marks, and joins all pieces into the first places of a slice, which are empty at first: at most `room` are
/// used. The number of edges then; the marks are in order. Refused where there are more pieces than room, or more room than places.
pub fn cut_edges<C: WindingCount>(
    edges: &[Segment<C>],
    marks: &mut [LineMark],
    list: &mut [Segment<C>],
    room: usize,
) -> Result<usize, Fault>
    ensures pieces { Ordered mark_kind marks.old → BringsIn C.WindingCount.kind (cut_from C.WindingCount.kind 0 marks.old edges.now) room list.old 0 list.new result }
    ensures within { IfOk result (λ n. n ≤ room) }
    ensures short { length list.old < room → 0 < length edges.now → result ≡ Err PiecesFull }
{
    // No slice has more room than places; where there is nothing to join, none is asked for.
    if room > list.len() && !edges.is_empty() {
        return Err(Fault::PiecesFull);
    }
    let mut table = OrderedTable::open(list, room);
    cut_into(edges, marks, &mut table)?;
    Ok(table.len())
}

/// Cuts every edge at its marks, and joins all pieces into a table. The marks are in order.
pub fn cut_into<C: WindingCount>(
    edges: &[Segment<C>],
    marks: &mut [LineMark],
    list: &mut OrderedTable<'_, Segment<C>>,
) -> Result<(), Fault>
    ensures pieces { Ordered mark_kind marks.old → Brings C.WindingCount.kind (cut_from C.WindingCount.kind 0 marks.old edges.now) (content_of list.old) (content_of list.new) result }
    ensures kept { Keeps (content_of list.old) (content_of list.new) }
    ensures same { places_name list.new ≡ places_name list.old }
{
    let mut rest = marks;
    for (i, edge) in edges.iter().enumerate() {
        let count = marks_on(rest, i);
        let (row, others) = rest.split_at_mut(count);
        cut_edge(*edge, row, list)?;
        rest = others;
    }
    Ok(())
}

/// How many marks from the first one on are those of edge i.
fn marks_on(marks: &[LineMark], i: usize) -> usize
    ensures { result ≡ prefix_len (λ m. m.index == i) marks.now }
{
    marks.iter().take_while(|mark| mark.index == i).count()
}

/// Cuts one edge at its marks, which stand in the order of points, and joins its pieces into the table.
fn cut_edge<C: WindingCount>(
    edge: Segment<C>,
    marks: &mut [LineMark],
    list: &mut OrderedTable<'_, Segment<C>>,
) -> Result<(), Fault>
    ensures joins { Joins C.WindingCount.kind (cut C.WindingCount.kind edge (map point_at marks.old)) (content_of list.old) (content_of list.new) result }
    ensures same { places_name list.new ≡ places_name list.old }
{
    // One mark alone, or none, is in order.
    if marks.len() > 1 {
        place_marks(marks, edge.a, edge.b);
    }
    join_pieces(edge, marks, list)
}

/// Joins the pieces of an edge between its stops into the table.
fn join_pieces<C: WindingCount>(
    edge: Segment<C>,
    stops: &[LineMark],
    list: &mut OrderedTable<'_, Segment<C>>,
) -> Result<(), Fault>
    ensures joins { Joins C.WindingCount.kind (pieces C.WindingCount.kind edge.count edge.a (map point_at stops.now ++ (edge.b ∷ []))) (content_of list.old) (content_of list.new) result }
    ensures same { places_name list.new ≡ places_name list.old }
{
    let Segment { a, b, count } = edge;
    let mut from = a;
    for stop in stops {
        join_piece(Segment::create(from, stop.point, count), list)?;
        from = stop.point;
    }
    join_piece(Segment::create(from, b, count), list)
}

/// Joins one piece into the table.
fn join_piece<C: WindingCount>(
    piece: Segment<C>,
    list: &mut OrderedTable<'_, Segment<C>>,
) -> Result<(), Fault>
    ensures joins { Joins C.WindingCount.kind (piece ∷ []) (content_of list.old) (content_of list.new) result }
    ensures same { places_name list.new ≡ places_name list.old }
{
    list.insert(piece).map_err(|_| Fault::PiecesFull)
}
