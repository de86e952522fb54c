//! A point of the plane, its coordinates within range by its type.
ghost use Rattle.plane.specs.Points.{InRange};
ghost use Rattle.std.specs.Prelude.{◌≤◌, nat_abs};

pub mod methods;

#[derive(Clone, Copy, PartialEq, Eq, PartialOrd, Ord)]
pub struct IntPoint {
    pub x: i32,
    pub y: i32,
    ghost wide: { InRange x },
    ghost high: { InRange y },
}
