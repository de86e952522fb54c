//! `marks ascending|descending|shuffled N`: inserts N marks into a table.
use anyhow::anyhow;
use plane::int_point::IntPoint;
use segm::joining::join_mark;
use segm::line_mark::LineMark;
use std::env::Args;
use std::time::Instant;
use table::keyed::Keyed;
use table::ordered_table::OrderedTable;

/// In which order the marks come.
#[derive(Clone, Copy)]
enum Course {
    Ascending,
    Descending,
    Shuffled,
}

/// A prime, so that its multiples up to a count go through all places unless the count is a multiple of it.
const STRIDE: usize = 7919;

/// How many marks one edge has.
const ON_ONE_EDGE: usize = 64;

/// More would not be measured in a moment.
const MOST: usize = 1_000_000;

pub(crate) fn marks_job(rt: &HostRuntime, mut words: Args) -> anyhow::Result<()> {
    let (Some(course), Some(count)) = (words.next(), words.next()) else {
        return Err(anyhow!("marks takes ascending, descending or shuffled, and a number"));
    };
    let course = match course.as_str() {
        "ascending" => Course::Ascending,
        "descending" => Course::Descending,
        "shuffled" => Course::Shuffled,
        _ => return Err(anyhow!("marks takes ascending, descending or shuffled")),
    };
    let count = count.as_str().parse::<usize>()?;
    if count > MOST {
        return Err(anyhow!("at most 1000000 marks"));
    }
    let mut places = vec![in rt.alloc(); LineMark::blank(); count]?;
    let start = Instant::now(rt)?;
    let held = match course {
        Course::Ascending => filled(places.as_mut_slice(), |i| i),
        Course::Descending => filled(
            places.as_mut_slice(),
            |i| count.saturating_sub(i).saturating_sub(1),
        ),
        Course::Shuffled => filled(
            places.as_mut_slice(),
            |i| i.wrapping_mul(STRIDE) % count.max(1),
        ),
    };
    let micros = start.elapsed(rt)?.as_micros();
    println!(rt; "{held} marks")?;
    eprintln!(rt; "{micros} microseconds")?;
    Ok(())
}

/// Inserts as many marks as there are places, each at its place in the order, and tells how many the table holds.
fn filled<P: Fn(usize) -> usize>(places: &mut [LineMark], place: P) -> usize
    requires { P.IsAlwaysCallable place }
{
    let count = places.len();
    let mut table = OrderedTable::open(places, count);
    for at in (0..count).map(place) {
        let _ = join_mark(&mut table, mark(at));
    }
    table.len()
}

/// The mark of a place in the order.
fn mark(place: usize) -> LineMark {
    LineMark {
        index: place / ON_ONE_EDGE,
        point: IntPoint {
            x: (place % ON_ONE_EDGE) as i32,
            y: 0,
        },
    }
}
