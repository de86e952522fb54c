//! Laying out columns; the column of an x, and the x of a border.
ghost use Rattle.std.specs.Prelude.{◌≡◌, ◌≤◌, ◌≤ℤ◌};
ghost use Rattle.finder.specs.Finders.{box_of};
ghost use Rattle.grid.specs.Layouts.{layout, column, border};
ghost use Rattle.grid.specs.Models.{layout_of};

use crate::grid_layout::GridLayout;
use finder::int_rect::IntRect;

/// The power of a single column, which is wider than any box.
const SINGLE: u32 = 32;

impl GridLayout {
    pub fn new(extent: IntRect, number: usize) -> GridLayout
        ensures { layout_of result ≡ layout (box_of extent) number }
    {
        let width = extent.max_x as i64 - extent.min_x as i64;
        if width < 4 || number == 0 {
            return GridLayout {
                min_x: extent.min_x,
                power: SINGLE,
            };
        }
        let log = (width as u64).ilog2();
        let half = number.ilog2() / 2;
        GridLayout {
            min_x: extent.min_x,
            power: log.saturating_sub(half).max(1),
        }
    }

    /// The column of an x that is not left of the box.
    pub(crate) fn index(self, x: i32) -> usize
        requires { self.min_x ≤ℤ x }
        ensures { result ≡ column (layout_of self) x }
    {
        (u64::from(x.abs_diff(self.min_x)) >> self.power) as usize
    }

    /// The border where a column begins.
    pub(crate) fn pos(self, index: usize) -> i64
        requires { index ≤ 128 }
        ensures { result ≡ border (layout_of self) index }
    {
        self.min_x as i64 + ((index as u64) << self.power) as i64
    }
}
