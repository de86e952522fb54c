//! One ordered table over a caller's slice, for every kind of record that has a key.
#![tactic(auto)]

pub mod keyed;
pub mod ordered_table;
pub mod places;
