//! The rectangle of an edge in a column: between ends and borders in x, and in y between heights that are rounded away from the edge.
ghost use Rattle.std.specs.Prelude.{◌≡◌, suc, ◌<◌, ◌≤◌, ◌-ℤ◌, if◌then◌else◌, nat_eq, unsigned_abs};
ghost use Rattle.plane.specs.Models.{edge_of};
ghost use Rattle.finder.specs.Finders.{box_of};
ghost use Rattle.grid.specs.Layouts.{border};
ghost use Rattle.grid.specs.Rectangles.{run, rise, climb, low, high, spanned, rect};
ghost use Rattle.grid.specs.Models.{layout_of};

use crate::laid_edge::LaidEdge;
use finder::int_rect::IntRect;
use plane::x_segment::XSegment;

/// How far two numbers are apart.
fn gap(from: i32, to: i32) -> u64
    ensures { result ≡ unsigned_abs (to -ℤ from) }
{
    u64::from(to.abs_diff(from))
}

/// From x to x and from height to height, counted from the first end towards the second.
fn span(s: XSegment, min_x: i32, max_x: i32, from: u32, to: u32) -> IntRect
    requires from_bound { from ≤ rise (edge_of s) }
    requires to_bound { to ≤ rise (edge_of s) }
    ensures { box_of result ≡ spanned (edge_of s) min_x max_x from to }
{
    let y = s.a.y as i64;
    if s.a.y <= s.b.y {
        return IntRect {
            min_x,
            max_x,
            min_y: (y + from as i64) as i32,
            max_y: (y + to as i64) as i32,
        };
    }
    IntRect {
        min_x,
        max_x,
        min_y: (y - to as i64) as i32,
        max_y: (y - from as i64) as i32,
    }
}

impl LaidEdge {
    /// A border that the edge crosses.
    fn border(self, i: usize) -> i32
        requires after { self.first < i }
        requires until { i ≤ self.last }
        ensures { result ≡ border (layout_of self.layout) i }
    {
        self.layout.pos(i) as i32
    }

    /// The height of the edge at a border, times its width.
    fn climb(self, i: usize) -> u64
        requires after { self.first < i }
        requires until { i ≤ self.last }
        ensures { result ≡ climb (layout_of self.layout) (edge_of self.s) i }
    {
        gap(self.s.a.y, self.s.b.y) * gap(self.s.a.x, self.border(i))
    }

    /// That height, rounded down.
    fn low(self, i: usize) -> u32
        requires after { self.first < i }
        requires until { i ≤ self.last }
        ensures value { result ≡ low (layout_of self.layout) (edge_of self.s) i }
        ensures size { result ≤ rise (edge_of self.s) }
    {
        (self.climb(i) / gap(self.s.a.x, self.s.b.x)) as u32
    }

    /// That height, rounded up.
    fn high(self, i: usize) -> u32
        requires after { self.first < i }
        requires until { i ≤ self.last }
        ensures value { result ≡ high (layout_of self.layout) (edge_of self.s) i }
        ensures size { result ≤ rise (edge_of self.s) }
    {
        self.climb(i).div_ceil(gap(self.s.a.x, self.s.b.x)) as u32
    }

    /// Where the rectangle begins: at the first end, or at a border.
    fn begin(self, column: usize) -> (i32, u32)
        requires after { self.first ≤ column }
        requires until { column ≤ self.last }
        ensures x { result.0 ≡ (if nat_eq column self.first then self.s.a.x else border (layout_of self.layout) column) }
        ensures height { result.1 ≡ (if nat_eq column self.first then 0 else low (layout_of self.layout) (edge_of self.s) column) }
        ensures size { result.1 ≤ rise (edge_of self.s) }
    {
        if column == self.first {
            return (self.s.a.x, 0);
        }
        (self.border(column), self.low(column))
    }

    /// Where it ends: at the second end, or at a border.
    fn end(self, column: usize) -> (i32, u32)
        requires after { self.first ≤ column }
        requires until { column ≤ self.last }
        ensures x { result.0 ≡ (if nat_eq column self.last then self.s.b.x else border (layout_of self.layout) (suc column)) }
        ensures height { result.1 ≡ (if nat_eq column self.last then rise (edge_of self.s) else high (layout_of self.layout) (edge_of self.s) (suc column)) }
        ensures size { result.1 ≤ rise (edge_of self.s) }
    {
        if column == self.last {
            return (self.s.b.x, gap(self.s.a.y, self.s.b.y) as u32);
        }
        (self.border(column + 1), self.high(column + 1))
    }

    /// The rectangle of the edge in a column.
    pub(crate) fn rectangle(self, column: usize) -> IntRect
        requires after { self.first ≤ column }
        requires until { column ≤ self.last }
        ensures { box_of result ≡ rect (layout_of self.layout) column (edge_of self.s) }
    {
        let (min_x, from) = self.begin(column);
        let (max_x, to) = self.end(column);
        span(self.s, min_x, max_x, from, to)
    }
}
