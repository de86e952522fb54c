//! A point marked on an edge, which goes by its number in the list of edges.
use plane::int_point::IntPoint;

#[derive(Clone, Copy, PartialEq, Eq, PartialOrd, Ord)]
pub struct LineMark {
    pub index: usize,
    pub point: IntPoint,
}
