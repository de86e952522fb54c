//! The marks of all pairs that a finder gives.
ghost use Rattle.std.specs.Prelude.{◌≡◌, ◌-◌, ◌<◌, ◌≤◌, false, [], map, length, take, drop, replicate, IfOk, MatchResult};
ghost use Rattle.plane.specs.Rules.{rounded?};
ghost use Rattle.finder.specs.Finders.{edge_at};
ghost use Rattle.segm.specs.Marks.{blank_mark};
ghost use Rattle.segm.specs.Segments.{ends_of};
ghost use Rattle.segm.specs.Spots.{SameSize};
ghost use Rattle.table.specs.Tables.{content_of, places_name, records_of};
ghost use Rattle.rounds.specs.Marks.{MoreMarks};
ghost use Rattle.rounds.specs.Spots.{pair_spots};
ghost use Rattle.history.specs.Sheets.{Page, Sound, mark_places};
ghost use Rattle.marking.specs.Gathering.{use_of};
ghost use Rattle.marking.specs.Gathering.{AllProper, Gathered, Notes, PairsMarked, Unpieced};

use finder::filling::{extent_of, fill};
use finder::finding::Finder;
use history::answers::RoundAnswer;
use plane::cross_solver::CrossSolver;
use plane::fault::Fault;
use plane::snap_radius::SnapRadius;
use plane::x_segment::XSegment;
use segm::joining::join_marks;
use segm::line_mark::LineMark;
use segm::segment::Segment;
use segm::winding::WindingCount;
use table::ordered_table::{NoRoom, OrderedTable};

/// Shows the edges to a finder, and marks the crossings of all pairs that it gives in the first places of a slice. All other places are
/// blank then, and where it is refused all are.
pub fn gather<C: WindingCount, F: Finder>(
    edges: &[Segment<C>],
    finder: &mut F,
    marks: &mut [LineMark],
    radius: SnapRadius,
) -> Result<RoundAnswer, Fault>
    ensures marks { (s : Page C) → Sound C.WindingCount.kind s → s.edges ≡ edges.now → s.exponent ≡ radius.current → length marks.old ≡ mark_places s.lengths → MatchResult result (λ a. Gathered F.Finder.walks (use_of F.Finder.need (F.Finder.meaning finder.old)) s (take a.marks marks.new) a) (λ f. Unpieced (use_of F.Finder.need (F.Finder.meaning finder.old)) s f) }
    ensures within { IfOk result (λ a. a.marks ≤ length marks.old) }
    ensures blank { MatchResult result (λ a. drop a.marks marks.new ≡ replicate (length marks.old - a.marks) blank_mark) (λ _. marks.new ≡ replicate (length marks.old) blank_mark) }
    ensures capacity { (F.Finder.meaning finder.new).capacity ≡ (F.Finder.meaning finder.old).capacity }
{
    let room = marks.len();
    let mut table = OrderedTable::open(marks, room);
    match gather_into(edges, finder, &mut table, radius) {
        Ok(answer) => Ok(answer),
        Err(fault) => {
            table.clear();
            Err(fault)
        }
    }
}

/// Shows the edges to a finder, and marks the crossings of all pairs that it gives in an empty table.
pub fn gather_into<C: WindingCount, F: Finder>(
    edges: &[Segment<C>],
    finder: &mut F,
    marks: &mut OrderedTable<'_, LineMark>,
    radius: SnapRadius,
) -> Result<RoundAnswer, Fault>
    ensures marks { (s : Page C) → Sound C.WindingCount.kind s → s.edges ≡ edges.now → s.exponent ≡ radius.current → records_of marks.old ≡ [] → marks.old.room ≡ mark_places s.lengths → MatchResult result (λ a. Gathered F.Finder.walks (use_of F.Finder.need (F.Finder.meaning finder.old)) s (records_of marks.new) a) (λ f. Unpieced (use_of F.Finder.need (F.Finder.meaning finder.old)) s f) }
    ensures number { IfOk result (λ a. a.marks ≡ length (records_of marks.new)) }
    ensures size { SameSize (content_of marks.old) (content_of marks.new) }
    ensures same { places_name marks.new ≡ places_name marks.old }
    ensures capacity { (F.Finder.meaning finder.new).capacity ≡ (F.Finder.meaning finder.old).capacity }
{
    fill(edges, extent_of(edges), finder)?;
    mark_pairs(edges, finder, marks, radius).map_err(|_| Fault::MarksFull)
}

/// Takes all pairs from a finder that was shown the edges, and marks their crossings.
fn mark_pairs<C: WindingCount, F: Finder>(
    edges: &[Segment<C>],
    finder: &mut F,
    marks: &mut OrderedTable<'_, LineMark>,
    radius: SnapRadius,
) -> Result<RoundAnswer, NoRoom>
    requires shown { (F.Finder.meaning finder.old).shown ≡ map ends_of edges.now }
    requires filling { (F.Finder.meaning finder.old).walking ≡ false }
    ensures marks { AllProper edges.now → records_of marks.old ≡ [] → MatchResult result (λ a. PairsMarked F.Finder.walks (F.Finder.meaning finder.old) (F.Finder.meaning finder.new) radius.current (map ends_of edges.now) (records_of marks.new) a) (λ _. MoreMarks radius.current (map ends_of edges.now) marks.old.room) }
    ensures number { IfOk result (λ a. a.marks ≡ length (records_of marks.new)) }
    ensures size { SameSize (content_of marks.old) (content_of marks.new) }
    ensures same { places_name marks.new ≡ places_name marks.old }
    ensures capacity { (F.Finder.meaning finder.new).capacity ≡ (F.Finder.meaning finder.old).capacity }
{
    let mut is_rounded = false;
    let mut pairs = 0;
    while let Some((i, j)) = finder.next() {
        is_rounded |= mark_pair(edges, i, j, marks, radius)?;
        pairs += 1;
    }
    Ok(RoundAnswer {
        marks: marks.len(),
        is_rounded,
        pairs,
    })
}

/// Marks the crossing of two edges of the list on each, and tells whether it is rounded.
fn mark_pair<C: WindingCount>(
    edges: &[Segment<C>],
    i: usize,
    j: usize,
    marks: &mut OrderedTable<'_, LineMark>,
    radius: SnapRadius,
) -> Result<bool, NoRoom>
    requires first { i < length edges.now }
    requires second { j < length edges.now }
    ensures notes { AllProper edges.now → Notes (pair_spots radius.current (map ends_of edges.now) (i, j)) (content_of marks.old) (content_of marks.new) result }
    ensures flag { AllProper edges.now → IfOk result (λ told. told ≡ rounded? (edge_at (map ends_of edges.now) i) (edge_at (map ends_of edges.now) j) radius.current) }
    ensures size { SameSize (content_of marks.old) (content_of marks.new) }
    ensures same { places_name marks.new ≡ places_name marks.old }
{
    let (Ok(first), Ok(second)) = (XSegment::try_from(edges[i]), XSegment::try_from(edges[j]))
    else {
        // No edge of a sheet is left out here.
        return Ok(false);
    };
    let crossed = CrossSolver::marks(&first, &second, radius);
    join_marks(marks, i, crossed.first)?;
    join_marks(marks, j, crossed.second)?;
    Ok(crossed.is_round)
}
