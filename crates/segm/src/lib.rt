//! Edges with counts: kinds of counts, segments and marks, and their places in an ordered table.
#![tactic(auto)]

pub mod boolean;
pub mod boolean_count;
pub mod corner;
pub mod joining;
pub mod keys;
pub mod line_mark;
pub mod open_ends;
pub mod order;
pub mod parity;
pub mod segment;
pub mod segment_edge;
pub mod winding;
