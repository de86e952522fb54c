//! Where a walk over linked columns stands.
ghost use Rattle.std.specs.Prelude.{◌≡◌};
ghost use Rattle.grid.specs.Tables.{walking?};

/// A column, or the border at its right; a fragment if one is left there, and the one that it is to be compared with next.
#[derive(Clone, Copy)]
pub struct Cursor {
    pub column: usize,
    pub first: Option<u32>,
    pub second: Option<u32>,
}

/// A pair of numbers, and where the walk stands behind it.
#[derive(Clone, Copy)]
pub struct Found {
    pub at: Cursor,
    pub pair: (usize, usize),
}

/// Pairs come from the columns first, then from the borders.
// Stays: a trait and two unit structs would state the clauses of four functions in the trait, and the functions twice, in place of four matches of two lines; the definitions would still go by cases.
#[derive(Clone, Copy)]
pub enum Stage {
    Columns,
    Borders,
}

#[derive(Clone, Copy)]
pub enum WalkState {
    Filling,
    Column(Cursor),
    Border(Cursor),
    Done,
}

impl WalkState {
    /// Whether a walk has begun.
    pub(crate) fn is_walking(self) -> bool
        ensures { result ≡ walking? self }
    {
        !matches!(self, WalkState::Filling)
    }
}

/// The answer of a call, and the state behind it.
#[derive(Clone, Copy)]
pub struct Step {
    pub state: WalkState,
    pub pair: Option<(usize, usize)>,
}
