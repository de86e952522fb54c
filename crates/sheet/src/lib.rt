//! A sheet: edges are put on it and cut in rounds wherever two touch, until none do.
#![tactic(auto)]

mod mark_guard;
mod rounding;
pub mod sheet;
