//! Edges: equal ones add their counts, an empty sum leaves nothing, and the freed place is used again.
use crate::points::{point, told};
use segm::boolean::ShapeCountBoolean;
use segm::joining::join_segment;
use segm::parity::Parity;
use segm::segment::Segment;
use segm::winding::WindingCount;
use table::keyed::Keyed;
use table::ordered_table::OrderedTable;

pub(crate) fn edge_cases(rt: &HostRuntime) -> anyhow::Result<()> {
    println!(rt; "edges of subject and clip, two places")?;
    let mut places = [Segment::blank(), Segment::blank()];
    let mut table = OrderedTable::open(&mut places, 2);
    both(rt, &mut table, (0, 0), (8, 8), (1, 0))?;
    both(rt, &mut table, (0, 0), (8, 8), (2, -1))?;
    both(rt, &mut table, (8, 0), (0, 8), (1, 1))?;
    both(rt, &mut table, (3, 3), (4, 4), (1, 0))?;
    both(rt, &mut table, (8, 8), (0, 0), (3, -1))?;
    both(rt, &mut table, (3, 3), (4, 4), (1, 0))?;
    both(rt, &mut table, (3, 3), (4, 4), (2147483647, 0))?;
    for s in table.records() {
        let (x0, y0, x1, y1) = (s.a.x, s.a.y, s.b.x, s.b.y);
        let (subject, clip) = (s.count.subj, s.count.clip);
        println!(rt; "  {x0} {y0} {x1} {y1} counts {subject} {clip}")?;
    }
    println!(rt; "edges of even-odd parity, one place")?;
    let mut places = [Segment::blank()];
    let mut table = OrderedTable::open(&mut places, 1);
    for turn in [0, 1, 2] {
        let s = Segment::create(point(0, 0)?, point(turn, 5)?, Parity { odd: true });
        odd(rt, &mut table, s)?;
        odd(rt, &mut table, s)?;
    }
    Ok(())
}

fn both(
    rt: &HostRuntime,
    table: &mut OrderedTable<'_, Segment<ShapeCountBoolean>>,
    (ax, ay): (i32, i32),
    (bx, by): (i32, i32),
    (subj, clip): (i32, i32),
) -> anyhow::Result<()> {
    let s = Segment::create(
        point(ax, ay)?,
        point(bx, by)?,
        ShapeCountBoolean { subj, clip },
    );
    let answer = told(join_segment(table, s).is_ok());
    let held = table.len();
    println!(rt; "{ax} {ay} {bx} {by} counts {subj} {clip}: {answer}, {held} held")?;
    Ok(())
}

fn odd(
    rt: &HostRuntime,
    table: &mut OrderedTable<'_, Segment<Parity>>,
    s: Segment<Parity>,
) -> anyhow::Result<()> {
    let answer = told(join_segment(table, s).is_ok());
    let (x, y, held) = (s.b.x, s.b.y, table.len());
    println!(rt; "0 0 {x} {y}: {answer}, {held} held")?;
    Ok(())
}
