//! The marks of one edge in cutting order.
ghost use Rattle.std.specs.Prelude.{◌≡◌, ◌+◌, ◌<◌, ◌≤◌, not, map, length, drop, int_lt, slice_index_or};
ghost use Rattle.std.specs.List.{prefix_len};
ghost use Rattle.segm.specs.Marks.{blank_mark};
ghost use Rattle.rounds.specs.Placing.{placed};
ghost use Rattle.cutting.specs.Cutting.{point_at};

use plane::int_point::IntPoint;
use segm::line_mark::LineMark;

/// Puts marks that stand in the order of points into the order in which they cut the edge from a to b: each group of equal x is
/// reversed where the y just before it exceeds the y just after it.
pub fn place_marks(marks: &mut [LineMark], a: IntPoint, b: IntPoint)
    ensures { map point_at marks.new ≡ placed a b (map point_at marks.old) }
{
    // Stays: `chunk_by_mut` compares neighbours, while a group goes by its first mark; and of a rest that a loop hands on no proof knows what was written.
    let mut before = a.y;
    let mut from = 0;
    while from < marks.len() {
        let to = from + group_len(&marks[from..]);
        let after = marks.get(to).map_or(b.y, |mark| mark.point.y);
        if before > after {
            marks[from..to].reverse();
        }
        before = marks[to - 1].point.y;
        from = to;
    }
}

/// How many of the first marks are the group that the first one begins: none of them is to its right.
fn group_len(marks: &[LineMark]) -> usize
    requires { 0 < length marks.now }
    ensures some { 0 < result }
    ensures within { result ≤ length marks.now }
    ensures group { result ≡ prefix_len (λ m. not (int_lt (slice_index_or marks.now 0 blank_mark).point.x m.point.x)) marks.now }
{
    let x = marks[0].point.x;
    marks.iter().take_while(|mark| mark.point.x <= x).count()
}
