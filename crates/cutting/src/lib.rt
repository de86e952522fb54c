//! Edges cut at their marks: cutting order, pieces, and the list that they make.
#![tactic(auto)]

pub mod pieces;
pub mod placing;
