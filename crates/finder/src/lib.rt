//! Finders: which pairs of edges are worth a look.
#![tactic(auto)]

pub mod all_pairs;
pub mod checking;
pub mod edge_record;
pub mod filling;
pub mod finding;
pub mod int_rect;
pub mod intake;
pub mod plain_edge;
pub mod segment_record;
pub mod taking;
