//! The calls of the column grid.
ghost use Rattle.std.specs.Prelude.{◌≡◌, ◌≤◌, min, length, take};
ghost use Rattle.finder.specs.Finders.{unstarted};
ghost use Rattle.grid.specs.Grid.{grid_need};
ghost use Rattle.grid.specs.Models.{layout_of};
ghost use Rattle.grid.specs.Tables.{contents, Narrow, Standing, Walked};
ghost use Rattle.grid.specs.Worked.{WorkedGrids};
ghost use Rattle.grid.specs.Meanings.{grid_meaning, grid_walks};

use crate::cursor::{Step, WalkState};
use crate::fragment::Fragment;
use crate::fragment_buffer::FragmentBuffer;
use crate::grid_layout::GridLayout;
use crate::laid_edge::LaidEdge;
use crate::linked_table::LinkedTable;
use crate::linking::{COLUMNS, MOST_FRAGMENTS, link};
use finder::finding::Finder;
use finder::int_rect::IntRect;
use finder::intake::Intake;
use plane::fault::Fault;
use plane::plain_point::PlainPoint;

impl<'a> FragmentBuffer<'a> {
    /// A grid never started. The length of its table, up to the most fragments that it uses, is its capacity.
    pub fn new(fragments: &'a mut [Fragment]) -> FragmentBuffer<'a>
        ensures unstarted { grid_meaning result ≡ unstarted (min (length fragments.old) 524288) }
        ensures worked { WorkedGrids }
    {
        let intake = Intake::new(IntRect::ZERO, 0);
        let layout = GridLayout::new(intake.extent, intake.announced);
        FragmentBuffer {
            fragments,
            used: 0,
            intake,
            layout,
            heads: [None; COLUMNS],
            state: WalkState::Filling,
        }
    }
}

impl<'a> Finder for FragmentBuffer<'a> {
    ghost meaning = { grid_meaning };

    ghost need = { grid_need };

    ghost walks = { grid_walks };

    fn start(&mut self, extent: IntRect, number: usize) {
        let intake = Intake::new(extent, number);
        self.used = 0;
        self.intake = intake;
        self.layout = GridLayout::new(intake.extent, intake.announced);
        self.state = WalkState::Filling;
    }

    fn show(&mut self, a: PlainPoint, b: PlainPoint) -> Result<(), Fault> {
        let s = self.intake.check(self.state.is_walking(), a, b)?;
        let laid = LaidEdge::new(self.layout, s);
        let count = laid.count();
        let capacity = self.fragments.len().min(MOST_FRAGMENTS);
        if capacity - self.used < count {
            return Err(Fault::FinderFull(self.intake.shown));
        }
        let end = self.used + count;
        laid.lay(self.intake.shown, &mut self.fragments[self.used..end]);
        self.used = end;
        self.intake.shown += 1;
        Ok(())
    }

    fn next(&mut self) -> Option<(usize, usize)> {
        let after = walk(
            self.fragments,
            self.used,
            self.layout,
            &mut self.heads,
            self.state,
        );
        self.state = after.state;
        after.pair
    }
}

/// The next pair; a walk that has not begun links the columns first.
fn walk(
    fragments: &mut [Fragment],
    used: usize,
    layout: GridLayout,
    heads: &mut [Option<u32>; COLUMNS],
    state: WalkState,
) -> Step
    requires room { used ≤ min (length fragments.old) 524288 }
    requires narrow { Narrow (contents (take used fragments.old)) }
    requires stands { Standing (take used fragments.old) heads.old state }
    ensures { Walked used (layout_of layout) state fragments.old fragments.new heads.new result }
{
    if let WalkState::Filling = state {
        *heads = link(&mut fragments[..used]);
        let linked = LinkedTable {
            table: &fragments[..used],
            heads,
            layout,
        };
        return linked.step(linked.first_state());
    }
    let linked = LinkedTable {
        table: &fragments[..used],
        heads,
        layout,
    };
    linked.step(state)
}
