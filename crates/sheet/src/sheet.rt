//! The sheet: edges in order over tables of the caller's.
ghost use Rattle.std.specs.Prelude.{◌≡◌, min, length, replicate};
ghost use Rattle.segm.specs.Marks.{blank_mark};
ghost use Rattle.table.specs.Tables.{content_of, records_of};
ghost use Rattle.sheet.specs.Fields.{AllProper, all_proper_once};

use history::sheet_state::SheetState;
use plane::snap_radius::SnapRadius;
use segm::line_mark::LineMark;
use segm::segment::Segment;
use segm::winding::WindingCount;
use table::keyed::Keyed;
use table::ordered_table::OrderedTable;

pub mod calls;
pub mod readings;

#[derive(Drop)]
pub struct Sheet<'a, C: WindingCount>
where
    Segment<C>: Keyed,
{
    edges: OrderedTable<'a, Segment<C>>,
    /// Where a round joins its pieces; between calls it has none.
    spare: OrderedTable<'a, Segment<C>>,
    /// Where a round keeps its marks; between calls all places are blank.
    marks: &'a mut [LineMark],
    start: u32,
    radius: SnapRadius,
    state: SheetState,
    ghost proper: { AllProper (records_of edges) } by { all_proper_once (records_of edges) },
    ghost emptied: { (content_of spare).used ≡ 0 },
    ghost edge_room: { (content_of edges).room ≡ min (min (length (content_of edges).places) (length (content_of spare).places)) 4096 },
    ghost spare_room: { (content_of spare).room ≡ (content_of edges).room },
    ghost unmarked: { marks.now ≡ replicate (length marks.now) blank_mark },
}
