//! Points, edges and what their crossings mark, proved from exact geometry.
#![tactic(auto)]

pub mod cross_solver;
pub mod direction;
pub mod fault;
pub mod int_point;
mod meeting;
mod offset;
mod pair;
pub mod plain_point;
mod ratio;
pub mod snap_radius;
pub mod touch_type;
pub mod x_segment;
