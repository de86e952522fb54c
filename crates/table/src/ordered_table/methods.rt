//! Opening an ordered table, bringing records to it, and reading it.
ghost use Rattle.std.specs.Prelude.{◌≡◌, ◌<◌, ◌≤◌, min, length, MatchOption, MatchResult, nat_le, ◌+◌, slice_index_or};
ghost use Rattle.table.specs.Contents.{Answers, TookOver, unused};
ghost use Rattle.table.specs.Laws.{ListingLaws};
ghost use Rattle.table.specs.Tables.{content_of, places_name, records_of};

use crate::keyed::Keyed;
use crate::ordered_table::{NoRoom, OrderedTable};
use crate::places::{blank_all, bring, replace};

impl<'a, R: Keyed> OrderedTable<'a, R> {
    /// An empty table with blank places, of which at most `room` will be used.
    pub fn open(places: &'a mut [R], room: usize) -> OrderedTable<'a, R>
        ensures content { content_of result ≡ unused R.Keyed.kind (length places.old) (min room (length places.old)) }
        ensures laws { ListingLaws R.Keyed.kind }
        ensures same { places_name result ≡ places.entry.ghost_name }
    {
        blank_all(places);
        let room = room.min(places.len());
        OrderedTable {
            places,
            used: 0,
            room,
        }
    }

    /// How many records there are.
    pub fn len(&self) -> usize
        ensures { result ≡ length (records_of self.now) }
    {
        self.records().len()
    }

    /// The records, in the order of their keys.
    pub fn records(&self) -> &[R]
        ensures { result.now ≡ records_of self.now }
    {
        &self.places[..self.used]
    }

    /// The record at the place i.
    pub fn get(&self, i: usize) -> Option<R>
        ensures { MatchOption result (length (records_of self.now) ≤ i) (λ x. (i < length (records_of self.now)) × (x ≡ slice_index_or (records_of self.now) i x)) }
    {
        self.records().get(i).copied()
    }

    /// Whether so many new keys more find room.
    pub fn has_room_for(&self, more: usize) -> bool
        ensures { result ≡ nat_le (length (records_of self.now) + more) self.now.room }
    {
        more <= self.room - self.used
    }

    /// Brings r to its place: joined with the record that has its key, or at a place of its own.
    pub fn insert(&mut self, r: R) -> Result<(), NoRoom>
        ensures answer { Answers R.Keyed.kind r (content_of self.old) (content_of self.new) result }
        ensures same { places_name self.new ≡ places_name self.old }
    {
        let n = bring(self.places, self.used, self.room, r)?;
        self.used = n;
        Ok(())
    }

    /// No record is left, and every place is blank.
    pub fn clear(&mut self)
        ensures content { content_of self.new ≡ unused R.Keyed.kind (length self.old.places.now) self.old.room }
        ensures same { places_name self.new ≡ places_name self.old }
    {
        blank_all(&mut self.places[..self.used]);
        self.used = 0;
    }

    /// Takes the records of another table in place of its own, and leaves it none. Refused where they are more than there is room for.
    pub fn take_over(&mut self, other: &mut OrderedTable<'_, R>) -> Result<(), NoRoom>
        ensures { MatchResult result (λ _. TookOver R.Keyed.kind (content_of self.old) (content_of other.old) (content_of self.new) (content_of other.new)) (λ _. (self.old.room < length (records_of other.old)) × (content_of self.new ≡ content_of self.old) × (content_of other.new ≡ content_of other.old)) }
    {
        let count = other.len();
        if count > self.room {
            return Err(NoRoom);
        }
        replace(self.places, self.used, other.records());
        self.used = count;
        other.clear();
        Ok(())
    }

    /// The records, given back to be changed in place: what becomes of them is no table any more.
    pub fn into_records(self) -> &'a mut [R]
        ensures { result.now ≡ records_of self.entry }
    {
        let OrderedTable { places, used, .. } = self;
        &mut places[..used]
    }
}
