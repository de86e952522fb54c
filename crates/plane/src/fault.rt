//! Every refusal, by its meaning.
ghost use Rattle.std.specs.Prelude.{◌≡◌};
ghost use Rattle.plane.specs.Models.{number};

#[derive(Clone, Copy, PartialEq, Eq)]
pub enum Fault {
    EndsEqual,
    CoordinateOutside,
    CountEmpty,
    BudgetOutside,
    NoSuchEdge,
    LineForm,
    EdgeOutsideBox,
    SheetFull,
    /// The finder's table is too short; the number of the edge that it refused.
    FinderFull(usize),
    MarksFull,
    PiecesFull,
    Walking,
    AnnouncedReached,
}

impl Fault {
    /// The number under which a refusal is told.
    // Stays: numbers are what the rules fix, and a call by this name was promised.
    pub fn number(self) -> u32
        ensures { result ≡ number self }
    {
        match self {
            Fault::EndsEqual => 1,
            Fault::CoordinateOutside => 2,
            Fault::CountEmpty => 3,
            Fault::BudgetOutside => 4,
            Fault::NoSuchEdge => 5,
            Fault::LineForm => 6,
            Fault::EdgeOutsideBox => 7,
            Fault::SheetFull => 11,
            Fault::FinderFull(_) => 12,
            Fault::MarksFull => 13,
            Fault::PiecesFull => 14,
            Fault::Walking => 15,
            Fault::AnnouncedReached => 16,
        }
    }
}
