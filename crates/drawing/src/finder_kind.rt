//! The two finders, each named by a letter.
ghost use Rattle.std.specs.Prelude.{◌≡◌};
ghost use Rattle.drawing.specs.Letters.{kind_of};

#[derive(Clone, Copy)]
pub enum FinderKind {
    /// The column grid, `G`.
    Grid,
    /// Every pair in order, `P`.
    Pairs,
}

impl FinderKind {
    /// The finder that a letter names.
    pub fn of(letter: char) -> Option<FinderKind>
        ensures { result ≡ kind_of letter }
    {
        match letter {
            'G' => Some(FinderKind::Grid),
            'P' => Some(FinderKind::Pairs),
            _ => None,
        }
    }
}
