//! A drawing: its edges, of which there are few by its type, each as its line draws it, and its snap exponent.
ghost use Rattle.std.specs.Prelude.{◌≤◌, vec_len};

use crate::drawn_edge::DrawnEdge;

/// More edges than this are refused.
pub const MOST_EDGES: usize = 4096;

#[derive(Drop)]
pub struct Drawing {
    pub exponent: u32,
    pub edges: Vec<DrawnEdge>,
    ghost few: { vec_len edges ≤ 4096 },
}
