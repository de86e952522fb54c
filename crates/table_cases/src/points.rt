//! Points, and how an answer is told.
use anyhow::anyhow;
use plane::int_point::IntPoint;

pub(crate) fn point(x: i32, y: i32) -> anyhow::Result<IntPoint> {
    IntPoint::new(x, y).map_err(|_| anyhow!("a coordinate is outside"))
}

pub(crate) fn told(is_taken: bool) -> &'static str {
    if is_taken { "taken" } else { "refused" }
}
