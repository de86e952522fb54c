//! How near to an end a rounded crossing is taken for that end.
ghost use Rattle.std.specs.Prelude.{◌≡◌, ◌+◌, ◌-◌, ◌^◌, min};
ghost use Rattle.plane.specs.Rounding.{reach};

/// Beyond this exponent the reach grows no more.
const LARGEST: u32 = 56;

/// The snap exponent, and what it grows by from round to round.
#[derive(Clone, Copy)]
pub struct SnapRadius {
    pub current: u32,
    pub step: u32,
}

impl SnapRadius {
    /// The exponent at its start.
    pub fn new(start: u32, step: u32) -> SnapRadius
        ensures current { result.current ≡ start }
        ensures step { result.step ≡ step }
    {
        SnapRadius {
            current: start,
            step,
        }
    }

    /// The exponent of the next round; it stops at the largest number of 32 bits.
    pub fn increment(&mut self)
        ensures current { self.new.current ≡ min (self.old.current + self.old.step) (2 ^ 32 - 1) }
        ensures step { self.new.step ≡ self.old.step }
    {
        self.current = self.current.saturating_add(self.step);
    }

    /// The largest squared distance that is near.
    pub fn radius_squared(self) -> u64
        ensures { result ≡ reach self.current }
    {
        1u64 << self.current.min(LARGEST)
    }
}
