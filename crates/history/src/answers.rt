//! What rounds and runs answer.
use crate::sheet_state::SheetState;
use plane::fault::Fault;

#[derive(Clone, Copy)]
pub struct RoundAnswer {
    /// How many distinct marks there were.
    pub marks: usize,
    /// Whether a crossing was rounded.
    pub is_rounded: bool,
    /// How many pairs the finder gave.
    pub pairs: usize,
}

#[derive(Clone, Copy)]
pub struct RunAnswer {
    /// How many rounds were done.
    pub rounds: u32,
    /// Whether any of them had marks.
    pub has_marks: bool,
    pub state: SheetState,
}

/// A run that a refusal ended, after some rounds.
#[derive(Clone, Copy)]
pub struct RunFault {
    pub fault: Fault,
    pub rounds: u32,
}
