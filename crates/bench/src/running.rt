//! `run G|P REPEATS START STEP`: reads a drawing, puts it on a sheet of 4,096 places and runs it, that many times anew.
use crate::drawing_input::{DrawnCount, read_input};
use anyhow::anyhow;
use drawing::finder_kind::FinderKind;
use finder::all_pairs::AllPairs;
use finder::finding::Finder;
use finder::plain_edge::PlainEdge;
use grid::fragment::Fragment;
use grid::fragment_buffer::FragmentBuffer;
use history::answers::RunAnswer;
use history::sheet_state::SheetState;
use segm::boolean::ShapeCountBoolean;
use segm::line_mark::LineMark;
use segm::segment::Segment;
use sheet::sheet::Sheet;
use std::env::Args;
use std::time::Instant;
use table::keyed::Keyed;

/// The places of each table of the sheet.
const PLACES: usize = 4096;

/// The most fragments that a grid uses.
const FRAGMENTS: usize = 524_288;

/// How many rounds a run may take.
const BUDGET: u32 = 64;

/// The snap exponent at its start, and what it grows by.
#[derive(Clone, Copy)]
struct Snap {
    start: u32,
    step: u32,
}

pub(crate) fn run_job(rt: &HostRuntime, mut words: Args) -> anyhow::Result<()> {
    let (Some(letter), Some(repeats)) = (words.next(), words.next()) else {
        return Err(anyhow!("run takes G or P, a number, a snap start and a step"));
    };
    let (Some(start), Some(step)) = (words.next(), words.next()) else {
        return Err(anyhow!("run takes G or P, a number, a snap start and a step"));
    };
    let kind = FinderKind::of(letter.as_str().parse::<char>()?).ok_or_else(|| anyhow!(
        "run takes G or P"
    ))?;
    let repeats = repeats.as_str().parse::<u32>()?;
    let snap = Snap {
        start: start.as_str().parse::<u32>()?,
        step: step.as_str().parse::<u32>()?,
    };
    let drawn = read_input(rt)?;
    // Stays: each finder is of a type of its own, over a table of its own.
    match kind {
        FinderKind::Grid => {
            let mut places = vec![in rt.alloc(); Fragment::blank(); FRAGMENTS]?;
            let mut finder = FragmentBuffer::new(places.as_mut_slice());
            measure(rt, drawn.as_slice(), &mut finder, repeats, snap)
        }
        FinderKind::Pairs => {
            let mut places = vec![in rt.alloc(); PlainEdge::BLANK; PLACES]?;
            let mut finder = AllPairs::new(places.as_mut_slice());
            measure(rt, drawn.as_slice(), &mut finder, repeats, snap)
        }
    }
}

/// Puts and runs as often as asked, and tells what the last run left and how long each takes.
fn measure<F: Finder>(
    rt: &HostRuntime,
    drawn: &[DrawnCount],
    finder: &mut F,
    repeats: u32,
    snap: Snap,
) -> anyhow::Result<()> {
    let heap = rt.alloc();
    let mut edges = vec![in heap; Segment::<ShapeCountBoolean>::blank(); PLACES]?;
    let mut spare = vec![in heap; Segment::<ShapeCountBoolean>::blank(); PLACES]?;
    let mut marks = vec![in heap; LineMark::blank(); PLACES]?;
    let (e, s, m) = (
        edges.as_mut_slice(),
        spare.as_mut_slice(),
        marks.as_mut_slice(),
    );
    let mut sheet = Sheet::open(e, s, m, snap.start, snap.step);
    let mut putting: u128 = 0;
    let mut running: u128 = 0;
    let mut last = None;
    for _ in 0..repeats {
        sheet.reopen(snap.start, snap.step);
        let begun = Instant::now(rt)?;
        put_all(&mut sheet, drawn)?;
        putting = putting.saturating_add(begun.elapsed(rt)?.as_micros());
        let begun = Instant::now(rt)?;
        last = Some(run_once(&mut sheet, finder)?);
        running = running.saturating_add(begun.elapsed(rt)?.as_micros());
    }
    let answer = last.ok_or_else(|| anyhow!("at least one run"))?;
    tell(rt, drawn.len(), answer, sheet.number_of_edges())?;
    let times = u128::from(repeats.max(1));
    eprintln!(rt;
        "{} microseconds for the puts, {} for the run",
        putting / times,
        running / times
    )?;
    Ok(())
}

fn tell(rt: &HostRuntime, put: usize, answer: RunAnswer, left: usize) -> anyhow::Result<()> {
    let rounds = answer.rounds;
    let state = if answer.state == SheetState::Clean {
        "clean"
    } else {
        "spent"
    };
    println!(rt; "{put} edges put, {rounds} rounds, {state}, {left} edges left")?;
    Ok(())
}

fn put_all(sheet: &mut Sheet<'_, ShapeCountBoolean>, drawn: &[DrawnCount]) -> anyhow::Result<()> {
    for line in drawn {
        sheet
            .put(line.a.into(), line.b.into(), line.count)
            .map_err(|_| anyhow!("the sheet refuses an edge"))?;
    }
    Ok(())
}

fn run_once<F: Finder>(
    sheet: &mut Sheet<'_, ShapeCountBoolean>,
    finder: &mut F,
) -> anyhow::Result<RunAnswer> {
    sheet
        .run(finder, BUDGET)
        .map_err(|_| anyhow!("a round is refused"))
}
