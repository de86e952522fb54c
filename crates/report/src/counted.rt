//! A number and its noun, for one and for any other number.
ghost use Rattle.std.specs.Prelude.{◌++◌, if◌then◌else◌, Some, codes, decimal, nat_eq};

use std::fmt;

#[derive(Clone, Copy)]
pub struct Counted<'a>(pub usize, pub &'a str, pub &'a str);

impl fmt::Display for Counted<'_> {
    ghost output = { λ c. Some (decimal c.0 ++ (codes " " ++ (if nat_eq c.0 1 then c.1.now else c.2.now))) };

    fn fmt<W: fmt::Write>(&self, f: &mut fmt::Formatter<W>) -> fmt::Result {
        let noun = if self.0 == 1 { self.1 } else { self.2 };
        write!(f, "{} {noun}", self.0)
    }
}
