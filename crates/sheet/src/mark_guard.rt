//! The mark table during a round: its end blanks what the round used of it, whatever the round comes to.
ghost use Rattle.std.specs.Prelude.{◌≡◌, ◌≤◌, ◌++◌, length, drop, replicate};
ghost use Rattle.segm.specs.Marks.{blank_mark};

use segm::line_mark::LineMark;
use table::places::blank_all;

pub(crate) struct MarkGuard<'a> {
    pub(crate) marks: &'a mut [LineMark],
    /// How many places may hold a mark, from the first on.
    pub(crate) used: usize,
}

impl Drop for MarkGuard<'_> {
    fn drop(self)
        ensures { self.entry.used ≤ length self.entry.marks.now → self.exit.0.now ≡ replicate self.entry.used blank_mark ++ drop self.entry.used self.entry.marks.now }
    {
        let MarkGuard { marks, used } = self;
        let (marks, _) = marks.split_at_mut(used.min(marks.len()));
        blank_all(marks);
    }
}
