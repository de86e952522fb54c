//! A table whose columns are linked, ready to be walked.
ghost use Rattle.grid.specs.Tables.{Linked};
ghost use Rattle.grid.specs.Facts.{linked_prop};

use crate::fragment::Fragment;
use crate::grid_layout::GridLayout;
use crate::linking::COLUMNS;

/// The fragments in use, the first of each column, and how the columns lie.
#[derive(Clone, Copy)]
pub(crate) struct LinkedTable<'a> {
    pub(crate) table: &'a [Fragment],
    pub(crate) heads: &'a [Option<u32>; COLUMNS],
    pub(crate) layout: GridLayout,
    ghost linked: { Linked table.now heads.now } by { linked_prop table.now heads.now },
}
