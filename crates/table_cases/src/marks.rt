//! Marks: equal ones join to one, and a new one that finds all places used is refused.
use crate::points::{point, told};
use segm::joining::join_mark;
use segm::line_mark::LineMark;
use table::keyed::Keyed;
use table::ordered_table::OrderedTable;

pub(crate) fn mark_cases(rt: &HostRuntime) -> anyhow::Result<()> {
    println!(rt; "marks, no place")?;
    few(rt, &mut [])?;
    println!(rt; "marks, one place")?;
    few(rt, &mut [LineMark::blank()])?;
    println!(rt; "marks, three places")?;
    few(
        rt,
        &mut [LineMark::blank(), LineMark::blank(), LineMark::blank()],
    )?;
    println!(rt; "marks, 4096 places")?;
    many(rt)
}

fn mark(index: usize, x: i32, y: i32) -> anyhow::Result<LineMark> {
    let point = point(x, y)?;
    Ok(LineMark { index, point })
}

/// Five marks, of which two are equal, into a few places.
fn few(rt: &HostRuntime, places: &mut [LineMark]) -> anyhow::Result<()> {
    let room = places.len();
    let mut table = OrderedTable::open(places, room);
    for m in [
        mark(2, 5, 5)?,
        mark(0, 1, 9)?,
        mark(2, 5, 5)?,
        mark(2, 5, -5)?,
        mark(1, 0, 0)?,
    ] {
        tell(rt, &mut table, m)?;
    }
    for m in table.records() {
        let (index, x, y) = (m.index, m.point.x, m.point.y);
        println!(rt; "  {index} at {x} {y}")?;
    }
    Ok(())
}

fn tell(
    rt: &HostRuntime,
    table: &mut OrderedTable<'_, LineMark>,
    m: LineMark,
) -> anyhow::Result<()> {
    let answer = told(join_mark(table, m).is_ok());
    let (index, x, y, held) = (m.index, m.point.x, m.point.y, table.len());
    println!(rt; "{index} at {x} {y}: {answer}, {held} held")?;
    Ok(())
}

/// 4096 marks into as many places, from the last to the first; then an equal one and a new one.
fn many(rt: &HostRuntime) -> anyhow::Result<()> {
    let mut places = vec![in rt.alloc(); LineMark::blank(); 4096]?;
    let room = places.len();
    let mut table = OrderedTable::open(places.as_mut_slice(), room);
    for index in (0..4096).rev() {
        let _ = join_mark(&mut table, mark(index, 0, 0)?);
    }
    let held = table.len();
    println!(rt; "{held} held")?;
    tell(rt, &mut table, mark(7, 0, 0)?)?;
    tell(rt, &mut table, mark(7, 0, 1)?)
}
