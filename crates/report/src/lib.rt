//! From the text of a drawing to its report: the pairs that touch, the marks, the open ends, and a line that sums them up.
#![tactic(auto)]

mod counted;
pub mod mark;
pub mod marking;
pub mod open_ends;
pub mod summary;
pub mod teller;
pub mod touch;
