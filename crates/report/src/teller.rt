//! The report of a drawing.
ghost use Rattle.std.specs.Prelude.{◌≡◌, ◌-◌, ◌*◌, ◌/◌, ◌<◌, ◌≤◌, length, vec_len, IfOk};
ghost use Rattle.drawing.specs.Drawings.{drawing_of};
ghost use Rattle.report.specs.Verdicts.{verdict_of};

use crate::mark::MarkLine;
use crate::marking::mark_drawing;
use crate::open_ends::OpenEnds;
use crate::summary::Summary;
use crate::touch::Touch;
use drawing::drawing::Drawing;
use drawing::drawn_edge::DrawnEdge;
use drawing::fault::DrawingFault;
use drawing::reader::read_drawing;
use plane::touch_type::TouchType;
use plane::x_segment::XSegment;
use std::alloc::Global;
use std::io;
use std::io::Write;

/// Whether a text was a drawing.
#[derive(Clone, Copy, PartialEq, Eq)]
pub enum Verdict {
    Told,
    Refused,
}

/// Writes the report of a text: that of a drawing, or the one line of a refusal.
pub fn report<W: Write>(heap: Global, text: &[u8], out: &mut W) -> io::Result<Verdict>
    ensures { IfOk result (λ verdict. verdict ≡ verdict_of (drawing_of text.now)) }
{
    match read_drawing(heap, text) {
        Ok(drawing) => {
            tell(heap, &drawing, out)?;
            Ok(Verdict::Told)
        }
        Err(DrawingFault::Memory) => Err(io::ErrorKind::OutOfMemory.into()),
        Err(fault) => {
            writeln!(out, "{fault}")?;
            Ok(Verdict::Refused)
        }
    }
}

fn tell<W: Write>(heap: Global, drawing: &Drawing, out: &mut W) -> io::Result<()> {
    let touches = tell_touches(drawing, out)?;
    let marking = mark_drawing(heap, drawing)?;
    for mark in &marking.marks {
        let line = MarkLine(*mark);
        writeln!(out, "{line}")?;
    }
    let ends = OpenEnds::of(heap, drawing)?;
    writeln!(out, "{ends}")?;
    let summary = Summary {
        edges: drawing.edges.len(),
        pairs: count_pairs(drawing),
        touches,
        marks: marking.marks.len(),
        is_rounded: marking.is_rounded,
    };
    writeln!(out, "{summary}")
}

/// How many pairs the edges of a drawing have.
fn count_pairs(drawing: &Drawing) -> usize
    ensures { result ≡ vec_len drawing.now.edges * (vec_len drawing.now.edges - 1) / 2 }
{
    let edges = drawing.edges.len();
    edges * edges.saturating_sub(1) / 2
}

/// Tells the pairs that touch, a line to each, and how many they are.
fn tell_touches<W: Write>(drawing: &Drawing, out: &mut W) -> io::Result<usize> {
    let edges = drawing.edges.as_slice();
    let mut touches = 0;
    for (first, drawn) in edges.iter().enumerate() {
        touches += tell_row(first, &drawn.edge, edges, out)?;
    }
    Ok(touches)
}

/// Those of an edge with the edges after it.
fn tell_row<W: Write>(
    first: usize,
    edge: &XSegment,
    edges: &[DrawnEdge],
    out: &mut W,
) -> io::Result<usize>
    requires { first < length edges.now }
    ensures { IfOk result (λ touches. touches ≤ length edges.now) }
{
    let mut touches = 0;
    for (place, other) in edges[first + 1..].iter().enumerate() {
        if let Some(kind) = TouchType::of(edge, &other.edge) {
            let touch = Touch {
                first,
                second: first + 1 + place,
                kind,
            };
            writeln!(out, "{touch}")?;
            touches += 1;
        }
    }
    Ok(touches)
}
