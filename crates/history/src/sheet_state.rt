//! How far a sheet has come.

#[derive(Clone, Copy, PartialEq, Eq)]
pub enum SheetState {
    /// Edges were put on it since its last round, or it is new.
    Raw,
    /// Its last round rounded a crossing, so its edges may touch.
    Rounded,
    /// No two of its edges touch.
    Clean,
}
