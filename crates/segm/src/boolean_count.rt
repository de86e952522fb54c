//! A count for each of two shapes adds up.
ghost use Rattle.segm.specs.BooleanKind.{boolean_kind};

use crate::boolean::ShapeCountBoolean;
use crate::winding::WindingCount;

impl WindingCount for ShapeCountBoolean {
    ghost kind = { boolean_kind };

    fn empty() -> ShapeCountBoolean {
        ShapeCountBoolean { subj: 0, clip: 0 }
    }

    fn is_not_empty(self) -> bool {
        self.subj != 0 || self.clip != 0
    }

    fn add(self, count: ShapeCountBoolean) -> ShapeCountBoolean {
        let subj = self.subj.wrapping_add(count.subj);
        let clip = self.clip.wrapping_add(count.clip);
        ShapeCountBoolean { subj, clip }
    }

    fn invert(self) -> ShapeCountBoolean {
        let subj = self.subj.wrapping_neg();
        let clip = self.clip.wrapping_neg();
        ShapeCountBoolean { subj, clip }
    }
}
