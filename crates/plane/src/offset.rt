//! A point less another: how far, and in which direction.
ghost use Rattle.std.specs.Prelude.{◌^◌, ◌≤◌, unsigned_abs};

pub(crate) mod methods;

#[derive(Clone, Copy)]
pub(crate) struct Offset {
    pub x: i64,
    pub y: i64,
    ghost wide: { unsigned_abs x ≤ 2 ^ 20 },
    ghost high: { unsigned_abs y ≤ 2 ^ 20 },
}
