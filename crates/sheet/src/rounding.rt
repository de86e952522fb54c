//! One round over the tables of a sheet.
ghost use Rattle.std.specs.Prelude.{◌≡◌, ◌≤◌, length, take, drop, replicate, MatchResult};
ghost use Rattle.segm.specs.MarkKind.{mark_kind};
ghost use Rattle.segm.specs.Marks.{blank_mark};
ghost use Rattle.rounds.specs.Pieces.{cut_from};
ghost use Rattle.cutting.specs.Cutting.{Brings, Keeps};
ghost use Rattle.table.specs.Listings.{Ordered};
ghost use Rattle.history.specs.Rounds.{RoundDone, RoundRefused};
ghost use Rattle.history.specs.Sheets.{Page};
ghost use Rattle.marking.specs.Gathering.{use_of};
ghost use Rattle.sheet.specs.Rounding.{Came, Lies, page_after};
ghost use Rattle.table.specs.Tables.{content_of, records_of};

use crate::mark_guard::MarkGuard;
use cutting::pieces::cut_into;
use finder::finding::Finder;
use history::answers::RoundAnswer;
use marking::gathering::gather;
use plane::fault::Fault;
use plane::snap_radius::SnapRadius;
use segm::line_mark::LineMark;
use segm::segment::Segment;
use segm::winding::WindingCount;
use table::ordered_table::OrderedTable;

/// The most marks in a round.
const MOST_MARKS: usize = 4096;

/// Cuts the edges wherever two touch. The marks are blank on every way out, and nothing else changes in a refused round.
pub(crate) fn round_tables<C: WindingCount, F: Finder>(
    edges: &mut OrderedTable<'_, Segment<C>>,
    spare: &mut OrderedTable<'_, Segment<C>>,
    marks: &mut [LineMark],
    radius: SnapRadius,
    finder: &mut F,
) -> Result<RoundAnswer, Fault>
    requires { marks.old ≡ replicate (length marks.old) blank_mark }
    ensures round { (s : Page C) → Lies C.WindingCount.kind s (content_of edges.old) (content_of spare.old) marks.old radius.current → MatchResult result (λ a. RoundDone C.WindingCount.kind (use_of F.Finder.need (F.Finder.meaning finder.old)) s (page_after s (records_of edges.new) a) a × Lies C.WindingCount.kind (page_after s (records_of edges.new) a) (content_of edges.new) (content_of spare.new) marks.old (page_after s (records_of edges.new) a).exponent × Came F.Finder.walks s a) (λ f. RoundRefused (use_of F.Finder.need (F.Finder.meaning finder.old)) s f × (content_of edges.new ≡ content_of edges.old) × (content_of spare.new ≡ content_of spare.old)) }
    ensures marks { marks.new ≡ replicate (length marks.old) blank_mark }
    ensures capacity { (F.Finder.meaning finder.new).capacity ≡ (F.Finder.meaning finder.old).capacity }
{
    let (usable, _) = marks.split_at_mut(marks.len().min(MOST_MARKS));
    let mut guard = MarkGuard {
        marks: usable,
        used: 0,
    };
    let answer = gather(edges.records(), finder, guard.marks, radius)?;
    guard.used = answer.marks;
    if !edges.has_room_for(answer.marks) {
        return Err(Fault::PiecesFull);
    }
    if answer.marks == 0 {
        return Ok(answer);
    }
    cut_at_first(edges.records(), guard.marks, answer.marks, spare)?;
    edges.take_over(spare).map_err(|_| Fault::PiecesFull)?;
    Ok(answer)
}

/// Cuts every edge at its marks, of which the first `used` places hold all, and joins all pieces into a table.
// A function of its own: where a part of the guard's places is lent, no proof knows afterwards what the others hold.
fn cut_at_first<C: WindingCount>(
    edges: &[Segment<C>],
    marks: &mut [LineMark],
    used: usize,
    list: &mut OrderedTable<'_, Segment<C>>,
) -> Result<(), Fault>
    requires { used ≤ length marks.old }
    ensures pieces { Ordered mark_kind (take used marks.old) → Brings C.WindingCount.kind (cut_from C.WindingCount.kind 0 (take used marks.old) edges.now) (content_of list.old) (content_of list.new) result }
    ensures kept { Keeps (content_of list.old) (content_of list.new) }
    ensures rest { drop used marks.new ≡ drop used marks.old }
{
    let (found, _) = marks.split_at_mut(used);
    cut_into(edges, found, list)
}
