//! A count that tells only whether it is odd.
ghost use Rattle.segm.specs.ParityKind.{parity_kind};

use crate::winding::WindingCount;

#[derive(Clone, Copy)]
pub struct Parity {
    pub odd: bool,
}

impl WindingCount for Parity {
    ghost kind = { parity_kind };

    fn empty() -> Parity {
        Parity { odd: false }
    }

    fn is_not_empty(self) -> bool {
        self.odd
    }

    fn add(self, count: Parity) -> Parity {
        Parity {
            odd: self.odd != count.odd,
        }
    }

    fn invert(self) -> Parity {
        self
    }
}
