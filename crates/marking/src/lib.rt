//! The marks of a list of edges, gathered by a finder.
#![tactic(auto)]

pub mod gathering;
