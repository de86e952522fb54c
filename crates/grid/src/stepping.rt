//! A walk from state to state: the columns, then the borders, then nothing more.
ghost use Rattle.std.specs.Prelude.{◌≡◌, true};
ghost use Rattle.grid.specs.Models.{layout_of};
ghost use Rattle.grid.specs.Tables.{contents, Placed, Stands, walking?, Stepped, Started};
ghost use Rattle.grid.specs.declared.cursor.Stage.TheVariants.{Borders};
ghost use Rattle.grid.specs.declared.cursor.WalkState.TheVariants.{Border};

use crate::cursor::{Cursor, Stage, Step, WalkState};
use crate::linked_table::LinkedTable;

impl LinkedTable<'_> {
    /// Where a walk begins: at the first column.
    pub(crate) fn first_state(&self) -> WalkState
        ensures { Started self.now.table.now (layout_of self.now.layout) result }
    {
        WalkState::Column(self.begin(Stage::Columns, 0, self.heads[0]))
    }

    /// The next pair of a border, if there is one more.
    fn at_borders(&self, at: Cursor) -> Step
        requires { Placed Borders (contents self.now.table.now) at }
        ensures { Stepped self.now.table.now (layout_of self.now.layout) (Border at) result }
    {
        match self.find(Stage::Borders, at) {
            Some(found) => Step {
                state: WalkState::Border(found.at),
                pair: Some(found.pair),
            },
            None => Step {
                state: WalkState::Done,
                pair: None,
            },
        }
    }

    /// The next pair, and where the walk stands behind it.
    // In line, since a state that a call hands back goes through memory, in pieces, and is waited for at each pair.
    #[inline(always)]
    pub(crate) fn step(&self, state: WalkState) -> Step
        requires stands { Stands (contents self.now.table.now) state }
        requires walks { walking? state ≡ true }
        ensures { Stepped self.now.table.now (layout_of self.now.layout) state result }
    {
        match state {
            WalkState::Column(at) => match self.find(Stage::Columns, at) {
                Some(found) => Step {
                    state: WalkState::Column(found.at),
                    pair: Some(found.pair),
                },
                None => self.at_borders(self.begin(Stage::Borders, 0, self.heads[1])),
            },
            WalkState::Border(at) => self.at_borders(at),
            WalkState::Filling | WalkState::Done => Step {
                state: WalkState::Done,
                pair: None,
            },
        }
    }
}
