//! Opening a sheet, putting edges on it, rounds and runs.
ghost use Rattle.std.specs.Prelude.{◌≡◌, length, IfOk};
ghost use Rattle.plane.specs.Models.{plain_point};
ghost use Rattle.history.specs.Histories.Call.{put, round, run};
ghost use Rattle.history.specs.Laws.{HistoryLaws};
ghost use Rattle.history.specs.Rounds.{Use, exponent_after, state_after};
ghost use Rattle.history.specs.Sheets.{opening};
ghost use Rattle.sheet.specs.Models.{Directed, Does, Held, page_of};
ghost use Rattle.marking.specs.Gathering.{use_of};
ghost use Rattle.sheet.specs.Rounding.{Came};
ghost use Rattle.sheet.specs.Worked.{WorkedSheets};

use crate::rounding::round_tables;
use crate::sheet::Sheet;
use finder::finding::Finder;
use history::answers::{RoundAnswer, RunAnswer, RunFault};
use history::sheet_state::SheetState;
use plane::fault::Fault;
use plane::int_point::IntPoint;
use plane::plain_point::PlainPoint;
use plane::snap_radius::SnapRadius;
use segm::line_mark::LineMark;
use segm::segment::Segment;
use segm::winding::WindingCount;
use table::ordered_table::OrderedTable;
use table::places::blank_all;

/// The most edges on a sheet.
const MOST_EDGES: usize = 4096;

/// The largest budget of a run.
const LARGEST_BUDGET: u32 = 64;

impl<'a, C: WindingCount> Sheet<'a, C> {
    /// An empty sheet over three tables of any length, which are blanked.
    pub fn open(
        edges: &'a mut [Segment<C>],
        spare: &'a mut [Segment<C>],
        marks: &'a mut [LineMark],
        start: u32,
        step: u32,
    ) -> Sheet<'a, C>
        ensures opened { page_of result ≡ opening (record { edges = length edges.old; spare = length spare.old; marks = length marks.old }) start step }
        ensures held { Held C.WindingCount.kind result }
        ensures laws { HistoryLaws C.WindingCount.kind }
        ensures worked { WorkedSheets }
    {
        blank_all(marks);
        let room = edges.len().min(spare.len()).min(MOST_EDGES);
        Sheet {
            edges: OrderedTable::open(edges, room),
            spare: OrderedTable::open(spare, room),
            marks,
            start,
            radius: SnapRadius::new(start, step),
            state: SheetState::Raw,
        }
    }

    /// Opens the sheet anew over the same tables.
    pub fn reopen(&mut self, start: u32, step: u32)
        ensures opened { page_of self.new ≡ opening (page_of self.old).lengths start step }
        ensures held { Held C.WindingCount.kind self.new }
    {
        self.edges.clear();
        self.start = start;
        self.radius = SnapRadius::new(start, step);
        self.state = SheetState::Raw;
    }

    /// Puts an edge between two points on the sheet. Its count is for the way from a to b.
    pub fn put(&mut self, a: PlainPoint, b: PlainPoint, count: C) -> Result<(), Fault>
        ensures { (u : Use) → Does C.WindingCount.kind (put (plain_point a) (plain_point b) count) u self.old self.new result }
    {
        let segment = directed_segment(a, b, count)?;
        self.edges.insert(segment).map_err(|_| Fault::SheetFull)?;
        self.radius.current = self.start;
        self.state = SheetState::Raw;
        Ok(())
    }

    /// Cuts the edges once wherever two touch.
    pub fn round<F: Finder>(&mut self, finder: &mut F) -> Result<RoundAnswer, Fault>
        ensures leaves { Does C.WindingCount.kind round (use_of F.Finder.need (F.Finder.meaning finder.old)) self.old self.new result }
        ensures pairs { IfOk result (λ a. Came F.Finder.walks (page_of self.old) a) }
        ensures capacity { (F.Finder.meaning finder.new).capacity ≡ (F.Finder.meaning finder.old).capacity }
    {
        let answer = round_tables(
            &mut self.edges,
            &mut self.spare,
            self.marks,
            self.radius,
            finder,
        )?;
        self.state = state_after(answer);
        self.radius = radius_after(answer, self.radius);
        Ok(answer)
    }

    /// Rounds, until the sheet is clean or the budget is used.
    pub fn run<F: Finder>(&mut self, finder: &mut F, budget: u32) -> Result<RunAnswer, RunFault>
        ensures leaves { Does C.WindingCount.kind (run budget) (use_of F.Finder.need (F.Finder.meaning finder.old)) self.old self.new result }
        ensures capacity { (F.Finder.meaning finder.new).capacity ≡ (F.Finder.meaning finder.old).capacity }
    {
        if budget == 0 || budget > LARGEST_BUDGET {
            return Err(RunFault {
                fault: Fault::BudgetOutside,
                rounds: 0,
            });
        }
        let mut rounds = 0;
        let mut has_marks = false;
        // Stays: the rounds are counted by hand, since they are answered, also where one is refused.
        while rounds < budget && self.state != SheetState::Clean {
            let answer = self
                .round(finder)
                .map_err(|fault| RunFault { fault, rounds })?;
            has_marks |= answer.marks > 0;
            rounds += 1;
        }
        Ok(RunAnswer {
            rounds,
            has_marks,
            state: self.state,
        })
    }
}

/// The segment of a put, its ends in order, or its refusal by the first check that it fails.
fn directed_segment<C: WindingCount>(
    a: PlainPoint,
    b: PlainPoint,
    count: C,
) -> Result<Segment<C>, Fault>
    ensures { Directed C.WindingCount.kind (plain_point a) (plain_point b) count result }
{
    if a == b {
        return Err(Fault::EndsEqual);
    }
    let first = IntPoint::try_from(a)?;
    let second = IntPoint::try_from(b)?;
    if !count.is_not_empty() {
        return Err(Fault::CountEmpty);
    }
    Ok(Segment::create(first, second, count))
}

/// The state that a round leaves.
fn state_after(answer: RoundAnswer) -> SheetState
    ensures { result ≡ state_after answer.marks answer.is_rounded }
{
    if answer.marks > 0 && answer.is_rounded {
        SheetState::Rounded
    } else {
        SheetState::Clean
    }
}

/// The snap exponent that a round leaves: it grows where there were marks.
fn radius_after(answer: RoundAnswer, mut radius: SnapRadius) -> SnapRadius
    ensures current { result.current ≡ exponent_after answer.marks radius.current radius.step }
    ensures step { result.step ≡ radius.step }
{
    if answer.marks > 0 {
        radius.increment();
    }
    radius
}
