//! How records move within the places of a table.
// Stays: a slice and how much of it is used, since no table is sound while its records move.
ghost use Rattle.std.specs.Prelude.{◌≡◌, ℕ, ◌+◌, ◌-◌, ◌<◌, ◌≤◌, ◌∷◌, length, take, drop, replicate, MatchOption, MatchResult};
ghost use Rattle.std.specs.List.{insert, remove};
ghost use Rattle.table.specs.Contents.{Came, Refused, Replaced, content};
ghost use Rattle.table.specs.Search.{Searched};

use crate::keyed::Keyed;
use crate::ordered_table::NoRoom;
use std::cmp::Ordering;

// Where the record with the key of r stands, or where r belongs. The end is tried first, since most records come there.
fn search<R: Keyed>(records: &[R], r: R) -> Result<usize, usize>
    ensures { Searched R.Keyed.kind r records.now result }
{
    let Some(last) = records.last() else {
        return Err(0);
    };
    match last.compare(r) {
        Ordering::Less => Err(records.len()),
        Ordering::Equal => Ok(records.len() - 1),
        Ordering::Greater => records.binary_search_by(|record| record.compare(r)),
    }
}

// r at the place i, and the records from there on one place further.
fn open_at<R: Keyed>(table: &mut [R], used: usize, i: usize, r: R)
    requires fits { used < length table.old }
    requires within { i ≤ used }
    ensures records { take (used + 1) table.new ≡ insert (take used table.old) i r }
    ensures rest { drop (used + 1) table.new ≡ drop (used + 1) table.old }
{
    table.copy_within(i..used, i + 1);
    table[i] = r;
}

// The record at i goes, those behind it move up, and the freed place is blank.
fn close_at<R: Keyed>(table: &mut [R], used: usize, i: usize)
    requires fits { used ≤ length table.old }
    requires within { i < used }
    ensures records { take (used - 1) table.new ≡ remove (take used table.old) i }
    ensures rest { drop (used - 1) table.new ≡ R.Keyed.kind.blank ∷ drop used table.old }
{
    table.copy_within(i + 1..used, i);
    table[used - 1] = R::blank();
}

// Brings r to its place among the first `used` records. How many there are then.
pub(crate) fn bring<R: Keyed>(
    table: &mut [R],
    used: usize,
    room: usize,
    r: R,
) -> Result<usize, NoRoom>
    requires fits { used ≤ room }
    requires roomy { room ≤ length table.old }
    ensures { MatchResult result (λ m. Came R.Keyed.kind r (content table.old used room) (content table.new m room)) (λ _. Refused R.Keyed.kind r (content table.old used room) (content table.new used room)) }
{
    match search(&table[..used], r) {
        Ok(i) => {
            let old = table[i];
            let both = old.join(r);
            if both.is_not_empty() {
                table[i] = both;
                Ok(used)
            } else {
                close_at(table, used, i);
                Ok(used - 1)
            }
        }
        Err(i) => {
            if !r.is_not_empty() {
                Ok(used)
            } else if used < room {
                open_at(table, used, i, r);
                Ok(used + 1)
            } else {
                Err(NoRoom)
            }
        }
    }
}

// Other records in place of the first `used` ones; the places that these leave are blank.
pub(crate) fn replace<R: Keyed>(table: &mut [R], used: usize, records: &[R])
    requires used { used ≤ length table.old }
    requires fits { length records.now ≤ length table.old }
    ensures { Replaced R.Keyed.kind records.now used table.old table.new }
{
    let count = records.len();
    table[..count].copy_from_slice(records);
    if count < used {
        blank_all(&mut table[count..used]);
    }
}

/// Brings r to its place among the first `used` records. The number of records then, or none where a new key finds no room.
pub fn insert<R: Keyed>(table: &mut [R], used: usize, room: usize, r: R) -> Option<usize>
    ensures { MatchOption result (Refused R.Keyed.kind r (content table.old used room) (content table.new used room)) (λ m. Came R.Keyed.kind r (content table.old used room) (content table.new m room)) }
{
    // A sound table never stops here.
    if used > room || room > table.len() {
        return None;
    }
    bring(table, used, room, r).ok()
}

/// Every place blank.
pub fn blank_all<R: Keyed>(table: &mut [R])
    ensures { table.new ≡ replicate (length table.old) R.Keyed.kind.blank }
{
    for place in table.iter_mut() {
        *place = R::blank();
    }
}
