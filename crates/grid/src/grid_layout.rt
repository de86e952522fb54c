//! Columns of one width, a power of two, from the left of a box on.
ghost use Rattle.std.specs.Prelude.{◌≤◌};

pub mod methods;

#[derive(Clone, Copy)]
pub struct GridLayout {
    min_x: i32,
    power: u32,
    ghost narrow: { power ≤ 32 },
}
