//! Walking through linked columns and borders, from one pair to the next.
ghost use Rattle.std.specs.Prelude.{◌≡◌, ◌<◌, ◌≤◌, ◌&&◌, length, int_le, slice_index_or};
ghost use Rattle.plane.specs.Models.{edge_of};
ghost use Rattle.finder.specs.Finders.{box_of};
ghost use Rattle.grid.specs.Rectangles.{stands_at?};
ghost use Rattle.grid.specs.Grid.{share?, in_order};
ghost use Rattle.grid.specs.Models.{layout_of};
ghost use Rattle.grid.specs.Tables.{content, contents, Names, passes?, first_of, limit, Placed, Partnered, Begun, Advanced, Finds};

use crate::cursor::{Cursor, Found, Stage};
use crate::fragment::Fragment;
use crate::linked_table::LinkedTable;
use crate::linking::COLUMNS;
use finder::int_rect::IntRect;
use plane::x_segment::XSegment;

/// Whether the numbers from a to b and those from c to d have one in common.
fn overlap(a: i32, b: i32, c: i32, d: i32) -> bool
    ensures { result ≡ (int_le a d && int_le c b) }
{
    a <= d && c <= b
}

/// Whether two rectangles share a point, borders included.
fn share(r: IntRect, s: IntRect) -> bool
    ensures { result ≡ share? (box_of r) (box_of s) }
{
    overlap(r.min_x, r.max_x, s.min_x, s.max_x) && overlap(r.min_y, r.max_y, s.min_y, s.max_y)
}

/// Whether an edge is a vertical at x.
fn stands_at(s: XSegment, x: i64) -> bool
    ensures { result ≡ stands_at? x (edge_of s) }
{
    s.a.x == s.b.x && s.a.x as i64 == x
}

/// Whether two fragments make a pair.
fn passes(stage: Stage, p: Fragment, q: Fragment) -> bool
    ensures { result ≡ passes? stage (content p).part (content q).part }
{
    match stage {
        Stage::Columns => share(p.rect, q.rect),
        Stage::Borders => p.x_segment.has_between(q.x_segment.b),
    }
}

/// The smaller number first.
fn in_order(i: usize, j: usize) -> (usize, usize)
    ensures { result ≡ in_order i j }
{
    (i.min(j), i.max(j))
}

/// How many columns or borders there are.
fn limit_of(stage: Stage) -> usize
    ensures { result ≡ limit stage }
{
    match stage {
        Stage::Columns => COLUMNS,
        Stage::Borders => COLUMNS - 1,
    }
}

/// The column of the first fragment of a pair.
fn first_column(stage: Stage, column: usize) -> usize
    requires { column < limit stage }
    ensures { result ≡ first_of stage column }
{
    match stage {
        Stage::Columns => column,
        Stage::Borders => column + 1,
    }
}

impl LinkedTable<'_> {
    /// Where the partners of a first fragment begin: behind it in its own column, or at the head of the column left of its border.
    fn partners(&self, stage: Stage, column: usize, first: u32) -> Option<u32>
        requires few { column < limit stage }
        requires named { Names (contents self.now.table.now) (first_of stage column) (Some first) }
        ensures { Partnered (layout_of self.now.layout) stage (contents self.now.table.now) column first result }
    {
        let fragment = self.table[first as usize];
        match stage {
            Stage::Columns => fragment.next,
            Stage::Borders => {
                if stands_at(fragment.x_segment, self.layout.pos(column + 1)) {
                    self.heads[column]
                } else {
                    None
                }
            }
        }
    }

    /// A cursor at a first fragment, or at none.
    pub(crate) fn begin(&self, stage: Stage, column: usize, first: Option<u32>) -> Cursor
        requires few { column < limit stage }
        requires named { Names (contents self.now.table.now) (first_of stage column) first }
        ensures { Begun (layout_of self.now.layout) stage (contents self.now.table.now) column first result }
    {
        // Stays: tried with `and_then`; the proof did not close, since what its closure answers names no call.
        let second = match first {
            Some(first) => self.partners(stage, column, first),
            None => None,
        };
        Cursor {
            column,
            first,
            second,
        }
    }

    /// The cursor at the next first fragment, once all partners of this one were met.
    fn advance(&self, stage: Stage, at: Cursor) -> Option<Cursor>
        requires placed { Placed stage (contents self.now.table.now) at }
        requires met { at.second ≡ None }
        ensures { Advanced (layout_of self.now.layout) stage (contents self.now.table.now) at result }
    {
        if let Some(first) = at.first {
            let next = self.table[first as usize].next;
            return Some(self.begin(stage, at.column, next));
        }
        let column = at.column + 1;
        if column < limit_of(stage) {
            let head = self.heads[first_column(stage, column)];
            return Some(self.begin(stage, column, head));
        }
        None
    }

    /// The next pair from a cursor on.
    pub(crate) fn find(&self, stage: Stage, from: Cursor) -> Option<Found>
        requires { Placed stage (contents self.now.table.now) from }
        ensures { Finds (layout_of self.now.layout) stage (contents self.now.table.now) from result }
    {
        let mut at = from;
        loop {
            if let Some(first) = at.first {
                let p = self.table[first as usize];
                while let Some(second) = at.second {
                    let q = self.table[second as usize];
                    at.second = q.next;
                    if passes(stage, p, q) {
                        return Some(Found {
                            at,
                            pair: in_order(p.index, q.index),
                        });
                    }
                }
            }
            at = self.advance(stage, at)?;
        }
    }
}
