//! What can be read off a sheet.
ghost use Rattle.history.specs.Histories.Call.{read_edge, read_number, read_state};
ghost use Rattle.history.specs.Rounds.{Use};
ghost use Rattle.sheet.specs.Models.{Does};

use crate::sheet::Sheet;
use history::sheet_state::SheetState;
use plane::fault::Fault;
use segm::segment::Segment;
use segm::winding::WindingCount;

impl<C: WindingCount> Sheet<'_, C> {
    /// How many edges there are.
    pub fn number_of_edges(&mut self) -> usize
        ensures { (u : Use) → Does C.WindingCount.kind read_number u self.old self.new result }
    {
        self.edges.len()
    }

    /// The edge of a number, from 0 on.
    pub fn edge(&mut self, i: usize) -> Result<Segment<C>, Fault>
        ensures { (u : Use) → Does C.WindingCount.kind (read_edge i) u self.old self.new result }
    {
        self.edges.get(i).ok_or(Fault::NoSuchEdge)
    }

    /// How far the sheet has come.
    pub fn state(&mut self) -> SheetState
        ensures { (u : Use) → Does C.WindingCount.kind read_state u self.old self.new result }
    {
        self.state
    }
}
