//! Drawings as text: numbers, lines and whole drawings, read exactly or refused with a reason.
#![tactic(auto)]

pub mod drawing;
pub mod drawn_edge;
pub mod fault;
pub mod field;
pub mod finder_kind;
pub mod line;
pub mod number;
pub mod reader;
pub mod reason;
