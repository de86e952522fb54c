//! A table over a caller's slice: records in its first places, in the order of their keys, and blank places behind them.
ghost use Rattle.table.specs.Contents.{Sound, content};
ghost use Rattle.table.specs.Soundness.{sound_once};

use crate::keyed::Keyed;

pub mod methods;

// Stays: the places are the caller's slice, and how many are used stands beside it, since these crates use no heap.
#[derive(Drop)]
pub struct OrderedTable<'a, R: Keyed> {
    places: &'a mut [R],
    used: usize,
    room: usize,
    ghost sound: { Sound R.Keyed.kind (content places.now used room) } by { sound_once R.Keyed.kind R.code (content places.now used room) },
}

/// A new key came, and all the room is used.
#[derive(Clone, Copy, PartialEq, Eq, Debug)]
pub struct NoRoom;
