//! Why a text is no drawing, and that memory may run out.
ghost use Rattle.std.specs.Prelude.{◌≡◌, Some};
ghost use Rattle.drawing.specs.Reasons.{fault_words};
ghost use Rattle.drawing.specs.declared.fault.DrawingFault.TheVariants.{Memory};

use crate::reason::Reason;
use std::alloc::{AllocError, AllocFailed};
use std::fmt;

#[derive(Clone, Copy)]
pub enum DrawingFault {
    /// The number of the first line that is refused, from 1, and why it is.
    Line(usize, Reason),
    Memory,
}

impl From<AllocError> for DrawingFault {
    ghost from_gives = { λ _ r. r ≡ Memory };

    fn from(_e: AllocError) -> DrawingFault {
        DrawingFault::Memory
    }
}

impl<T: Drop> From<AllocFailed<T>> for DrawingFault {
    ghost from_gives = { λ _ r. r ≡ Memory };

    fn from(_e: AllocFailed<T>) -> DrawingFault {
        DrawingFault::Memory
    }
}

impl fmt::Display for DrawingFault {
    ghost output = { λ fault. Some (fault_words fault) };

    fn fmt<W: fmt::Write>(&self, f: &mut fmt::Formatter<W>) -> fmt::Result {
        match self {
            DrawingFault::Line(number, reason) => write!(f, "line {number}: {reason}"),
            DrawingFault::Memory => f.write_str("memory ran out"),
        }
    }
}
