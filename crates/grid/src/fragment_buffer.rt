//! The column grid over a table of the caller's.
ghost use Rattle.finder.specs.Finders.{box_of};
ghost use Rattle.grid.specs.Models.{layout_of};
ghost use Rattle.grid.specs.Tables.{Sound};

use crate::cursor::WalkState;
use crate::fragment::Fragment;
use crate::grid_layout::GridLayout;
use crate::linking::COLUMNS;
use finder::intake::Intake;

pub mod methods;

// Stays: how many places are used stands beside them, since the table is the caller's slice.
#[derive(Drop)]
pub struct FragmentBuffer<'a> {
    fragments: &'a mut [Fragment],
    used: usize,
    intake: Intake,
    layout: GridLayout,
    heads: [Option<u32>; COLUMNS],
    state: WalkState,
    ghost sound: { ∥ Sound fragments.now used intake.shown intake.announced (box_of intake.extent) (layout_of layout) heads state ∥₁ },
}
