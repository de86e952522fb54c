//! The column grid, a finder that looks at edges column by column.
#![tactic(auto)]

pub mod cursor;
pub mod fragment;
pub mod fragment_buffer;
pub mod grid_layout;
mod laid_edge;
mod laying;
mod linked_table;
mod linking;
mod rectangle;
mod stepping;
mod walking;
