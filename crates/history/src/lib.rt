//! What calls on a sheet leave and answer, and the laws over every history of calls.
#![tactic(auto)]

pub mod answers;
pub mod sheet_state;
