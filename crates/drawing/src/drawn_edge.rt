//! An edge as its line draws it.
use plane::x_segment::XSegment;

#[derive(Clone, Copy)]
pub struct DrawnEdge {
    pub edge: XSegment,
    /// The line's first point comes after its second, so the edge has them exchanged.
    pub is_turned: bool,
}
