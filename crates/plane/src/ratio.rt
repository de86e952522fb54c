//! Parts of an offset without a fraction: signs are split off, magnitudes divided, and the sign put back.
ghost use Rattle.std.specs.Prelude.{◌≡◌, ◌^◌, ◌<◌, ◌≤◌, ◌*ℤ◌, if◌then◌else◌, nat_eq, unsigned_abs};
ghost use Rattle.plane.specs.Rounding.{nearest, cut, with_sign};

use crate::offset::Offset;
use crate::offset::methods::times;

/// n / d.
#[derive(Clone, Copy)]
pub(crate) struct Ratio {
    pub n: i64,
    pub d: i64,
    ghost n_small: { unsigned_abs n ≤ 2 ^ 41 },
    ghost d_small: { unsigned_abs d ≤ 2 ^ 41 },
    ghost d_nonzero: { 0 < unsigned_abs d },
}

impl Ratio {
    /// How far x goes on this part of an offset: on a level one cut towards 0, else to the nearest.
    pub(crate) fn along_x(self, offset: Offset) -> i64
        ensures { result ≡ (if nat_eq (unsigned_abs offset.y) 0 then cut (offset.x *ℤ self.n) self.d else nearest (offset.x *ℤ self.n) self.d) }
    {
        let run = times(offset.x, self.n);
        if offset.y == 0 {
            cut_quotient(run, self.d)
        } else {
            nearest_quotient(run, self.d)
        }
    }

    /// How far y goes on this part of an offset, to the nearest.
    // Stays: x alone is cut on a level offset, so the two are no twins.
    pub(crate) fn along_y(self, offset: Offset) -> i64
        ensures { result ≡ nearest (offset.y *ℤ self.n) self.d }
    {
        nearest_quotient(times(offset.y, self.n), self.d)
    }
}

/// The whole number nearest to n / d, halves away from 0.
fn nearest_quotient(n: i64, d: i64) -> i64
    requires n_bound { unsigned_abs n ≤ 2 ^ 61 }
    requires d_bound { unsigned_abs d ≤ 2 ^ 61 }
    requires d_nonzero { 0 < unsigned_abs d }
    ensures { result ≡ nearest n d }
{
    let m = n.unsigned_abs();
    let w = d.unsigned_abs();
    signed(n, d, (2 * m + w) / (2 * w))
}

/// n / d cut towards 0.
// Stays: the two quotients round in different ways and share what they have in common, `signed`.
fn cut_quotient(n: i64, d: i64) -> i64
    requires n_bound { unsigned_abs n ≤ 2 ^ 61 }
    requires d_nonzero { 0 < unsigned_abs d }
    ensures { result ≡ cut n d }
{
    signed(n, d, n.unsigned_abs() / d.unsigned_abs())
}

/// A magnitude with the sign of n / d.
fn signed(n: i64, d: i64, magnitude: u64) -> i64
    requires { magnitude ≤ 2 ^ 62 }
    ensures { result ≡ with_sign n d magnitude }
{
    let m = magnitude as i64;
    if (n < 0) == (d < 0) { m } else { -m }
}
