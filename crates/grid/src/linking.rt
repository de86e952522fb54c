//! Linking the fragments of each column, in the order of the table.
ghost use Rattle.std.specs.Prelude.{◌≡◌, ◌≤◌, length};
ghost use Rattle.grid.specs.Tables.{contents, Narrow, Linked};

use crate::fragment::Fragment;

/// The most columns that a grid has.
pub(crate) const COLUMNS: usize = 128;

/// The most fragments that a grid uses.
pub(crate) const MOST_FRAGMENTS: usize = 524_288;

/// Links the fragments of each column, and tells the first of each.
pub(crate) fn link(fragments: &mut [Fragment]) -> [Option<u32>; COLUMNS]
    requires short { length fragments.old ≤ 524288 }
    requires narrow { Narrow (contents fragments.old) }
    ensures same { contents fragments.new ≡ contents fragments.old }
    ensures linked { Linked fragments.new result }
{
    let mut heads = [None; COLUMNS];
    for k in (0..fragments.len()).rev() {
        let column = fragments[k].column;
        fragments[k].next = heads[column].replace(k as u32);
    }
    heads
}
