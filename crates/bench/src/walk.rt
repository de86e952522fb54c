//! `walk G|P REPEATS`: reads a drawing, and has a finder walk over it that many times anew.
use crate::drawing_input::read_input;
use anyhow::anyhow;
use drawing::finder_kind::FinderKind;
use finder::all_pairs::AllPairs;
use finder::filling::{extent_of, fill};
use finder::finding::Finder;
use finder::plain_edge::PlainEdge;
use finder::taking::{PairVisitor, take_all};
use grid::fragment::Fragment;
use grid::fragment_buffer::FragmentBuffer;
use plane::touch_type::TouchType;
use plane::x_segment::XSegment;
use std::env::Args;
use std::time::Instant;

/// The most edges that a finder takes.
const MOST_EDGES: usize = 4096;

/// The most fragments that an edge has in a grid: one for each column.
const COLUMNS: usize = 128;

pub(crate) fn walk_job(rt: &HostRuntime, mut words: Args) -> anyhow::Result<()> {
    let (Some(letter), Some(repeats)) = (words.next(), words.next()) else {
        return Err(anyhow!("walk takes G or P, and a number"));
    };
    let kind = FinderKind::of(letter.as_str().parse::<char>()?).ok_or_else(|| anyhow!(
        "walk takes G or P"
    ))?;
    let repeats = repeats.as_str().parse::<u32>()?;
    if repeats == 0 {
        return Err(anyhow!("at least one walk"));
    }
    let edges = read_edges(rt)?;
    let edges = edges.as_slice();
    if edges.len() > MOST_EDGES {
        return Err(anyhow!("at most 4096 edges"));
    }
    // Stays: each finder is of a type of its own, over a table of its own.
    match kind {
        FinderKind::Grid => {
            let mut places = vec![in rt.alloc(); Fragment::blank(); COLUMNS * edges.len()]?;
            let mut finder = FragmentBuffer::new(places.as_mut_slice());
            measure(rt, edges, &mut finder, repeats)
        }
        FinderKind::Pairs => {
            let mut places = vec![in rt.alloc(); PlainEdge::BLANK; edges.len()]?;
            let mut finder = AllPairs::new(places.as_mut_slice());
            measure(rt, edges, &mut finder, repeats)
        }
    }
}

/// The edges of a drawing, the ends of each put in order.
fn read_edges(rt: &HostRuntime) -> anyhow::Result<Vec<XSegment>> {
    let drawn = read_input(rt)?;
    let mut edges = Vec::new(rt.alloc());
    for line in drawn.iter() {
        let edge = XSegment::new(line.a, line.b).map_err(|_| anyhow!(
            "the ends of a line are equal"
        ))?;
        edges.push(edge)?;
    }
    Ok(edges)
}

/// Walks as often as asked, and tells what the last walk found and how long one takes.
fn measure<F: Finder>(
    rt: &HostRuntime,
    edges: &[XSegment],
    finder: &mut F,
    repeats: u32,
) -> anyhow::Result<()> {
    let mut seen = vec![in rt.alloc(); false; MOST_EDGES.saturating_mul(edges.len())]?;
    let mut found = Found {
        pairs: 0,
        touches: 0,
    };
    let mut micros: u128 = 0;
    for _ in 0..repeats {
        seen.as_mut_slice().fill(false);
        let start = Instant::now(rt)?;
        found = walk(edges, finder, seen.as_mut_slice())?;
        micros = micros.saturating_add(start.elapsed(rt)?.as_micros());
    }
    let (pairs, touches) = (found.pairs, found.touches);
    println!(rt; "{} edges, {pairs} pairs, {touches} touches", edges.len())?;
    let once = micros / u128::from(repeats.max(1));
    eprintln!(rt; "{once} microseconds")?;
    Ok(())
}

#[derive(Clone, Copy)]
struct Found {
    pairs: usize,
    touches: usize,
}

/// Shows the edges to the finder, and looks at every pair that it gives.
fn walk<F: Finder>(edges: &[XSegment], finder: &mut F, seen: &mut [bool]) -> anyhow::Result<Found> {
    fill(edges, extent_of(edges), finder).map_err(|_| anyhow!("the finder refuses an edge"))?;
    let mut touching = Touching {
        edges,
        seen,
        touches: 0,
    };
    let pairs = take_all(finder, &mut touching);
    Ok(Found {
        pairs,
        touches: touching.touches,
    })
}

/// Counts the pairs that touch, each once, however often it comes.
#[derive(Drop)]
struct Touching<'a> {
    edges: &'a [XSegment],
    /// For each pair whether it was met, and touches.
    seen: &'a mut [bool],
    touches: usize,
}

impl PairVisitor for Touching<'_> {
    ghost visits = { λ _ _ _. Unit {0} };

    fn visit(&mut self, i: usize, j: usize) {
        let (Some(first), Some(second)) = (self.edges.get(i), self.edges.get(j)) else {
            return;
        };
        let place = i.saturating_mul(MOST_EDGES).saturating_add(j);
        if TouchType::of(first, second).is_some() && place < self.seen.len() && !self.seen[place] {
            self.seen[place] = true;
            self.touches = self.touches.saturating_add(1);
        }
    }
}
