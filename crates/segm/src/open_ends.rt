//! How many points are open: those whose balance is not empty.
ghost use Rattle.std.specs.Prelude.{◌≡◌, ◌*◌, ◌<◌, length, replicate, MatchResult};
ghost use Rattle.segm.specs.Balance.{balance, brings};
ghost use Rattle.segm.specs.Corners.{blank_corner, begins_of, ends_at};
ghost use Rattle.segm.specs.Held.{Grows, counts_at};
ghost use Rattle.segm.specs.Open.{Open, OpenDetermines};
ghost use Rattle.table.specs.Tables.{content_of};

use crate::corner::Corner;
use crate::segment::Segment;
use crate::winding::WindingCount;
use table::ordered_table::{NoRoom, OrderedTable};
use table::places::blank_all;

// Where a segment ends, with its count.
// Stays: `first_end` takes the other end and the inverse count, and one function of both would be told both.
fn second_end<C: WindingCount>(s: Segment<C>) -> Corner<C>
    ensures { result ≡ ends_at s }
{
    Corner {
        point: s.b,
        count: s.count,
    }
}

// Where a segment begins, with the inverse of its count.
// Stays: as `second_end`.
fn first_end<C: WindingCount>(s: Segment<C>) -> Corner<C>
    ensures { result ≡ begins_of C.WindingCount.kind s }
{
    Corner {
        point: s.a,
        count: s.count.invert(),
    }
}

// Brings a corner to its place: what is held at its point grows by its count.
fn join_corner<C: WindingCount>(
    corners: &mut OrderedTable<'_, Corner<C>>,
    corner: Corner<C>,
) -> Result<(), NoRoom>
    ensures { Grows C.WindingCount.kind (λ p. counts_at C.WindingCount.kind p corner) 1 (content_of corners.old) (content_of corners.new) result }
{
    corners.insert(corner)
}

// Brings both ends of a segment: what is held at every point grows by what the segment brings there.
fn join_ends<C: WindingCount>(
    corners: &mut OrderedTable<'_, Corner<C>>,
    s: Segment<C>,
) -> Result<(), NoRoom>
    ensures { Grows C.WindingCount.kind (λ p. brings C.WindingCount.kind p s) 2 (content_of corners.old) (content_of corners.new) result }
{
    join_corner(corners, second_end(s))?;
    join_corner(corners, first_end(s))
}

// Brings the ends of all segments: what is held at every point grows by the balance there.
fn join_all<C: WindingCount>(
    corners: &mut OrderedTable<'_, Corner<C>>,
    segments: &[Segment<C>],
) -> Result<(), NoRoom>
    ensures { Grows C.WindingCount.kind (λ p. balance C.WindingCount.kind p segments.now) (2 * length segments.now) (content_of corners.old) (content_of corners.new) result }
{
    for s in segments {
        join_ends(corners, *s)?;
    }
    Ok(())
}

// An empty table over all the places.
fn empty_table<'a, C: WindingCount>(places: &'a mut [Corner<C>]) -> OrderedTable<'a, Corner<C>>
    ensures none { (content_of result).used ≡ 0 }
    ensures all { (content_of result).room ≡ length places.old }
{
    let room = places.len();
    OrderedTable::open(places, room)
}

// Counts the open points by a table over the places.
fn count_open<C: WindingCount>(
    segments: &[Segment<C>],
    places: &mut [Corner<C>],
) -> Result<usize, NoRoom>
    ensures { MatchResult result (λ n. Open C.WindingCount.kind segments.now n) (λ _. length places.old < 2 * length segments.now) }
{
    let mut corners = empty_table(places);
    join_all(&mut corners, segments)?;
    Ok(corners.len())
}

/// How many points are open. Two places for each segment are always enough, and all places are blank afterwards.
pub fn open_ends<C: WindingCount>(
    segments: &[Segment<C>],
    places: &mut [Corner<C>],
) -> Result<usize, NoRoom>
    ensures count { MatchResult result (λ n. Open C.WindingCount.kind segments.now n) (λ _. length places.old < 2 * length segments.now) }
    ensures blank { places.new ≡ replicate (length places.old) (blank_corner C.WindingCount.kind) }
    ensures determined { OpenDetermines C.WindingCount.kind }
{
    let answer = count_open(segments, places);
    blank_all(places);
    answer
}
