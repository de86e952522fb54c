//! An edge as it is handed in: nothing is known of its ends yet.
use plane::plain_point::PlainPoint;

#[derive(Clone, Copy)]
pub struct PlainEdge {
    pub a: PlainPoint,
    pub b: PlainPoint,
}

impl PlainEdge {
    /// What a place of a table may hold before it is used.
    pub const BLANK: PlainEdge = PlainEdge {
        a: PlainPoint { x: 0, y: 0 },
        b: PlainPoint { x: 0, y: 0 },
    };
}
