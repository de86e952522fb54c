//! A whole drawing: a first line with the snap exponent, then one edge to a line.
ghost use Rattle.std.specs.Prelude.{Ok};
ghost use Rattle.drawing.specs.Drawings.{Tells, drawing_of, edges_from, lines, with_edges};
ghost use Rattle.drawing.specs.Texts.{OnlyDrawing};

use crate::drawing::{Drawing, MOST_EDGES};
use crate::fault::DrawingFault;
use crate::field::cut_at;
use crate::line::{read_edge, read_head};
use crate::reason::Reason;
use std::alloc::Global;

/// What ends a line. A last line without it is of another form: a text that was cut off is the commonest damage.
const LF: u8 = b'\n';

/// The drawing of a text, or the first line that is refused.
pub fn read_drawing(heap: Global, text: &[u8]) -> Result<Drawing, DrawingFault>
    ensures said { Tells result (drawing_of text.now) }
    ensures written { OnlyDrawing text.now result }
{
    let (head, rest) = cut_at(text, LF).ok_or(DrawingFault::Line(1, Reason::HeadForm))?;
    let exponent = read_head(head).map_err(|reason| DrawingFault::Line(1, reason))?;
    read_edges(heap, exponent, rest)
}

/// The drawing of an exponent and of the lines after the first.
fn read_edges(heap: Global, exponent: u32, text: &[u8]) -> Result<Drawing, DrawingFault>
    ensures { Tells result (with_edges (Ok exponent) (edges_from 2 (lines text.now))) }
{
    let mut edges = Vec::new(heap);
    let mut rest = text;
    while let Some((line, after)) = cut_at(rest, LF) {
        let number = edges.len() + 2;
        let drawn = read_edge(line).map_err(|reason| DrawingFault::Line(number, reason))?;
        if edges.len() >= MOST_EDGES {
            return Err(DrawingFault::Line(number, Reason::TooManyEdges));
        }
        edges.push(drawn)?;
        rest = after;
    }
    if !rest.is_empty() {
        return Err(DrawingFault::Line(edges.len() + 2, Reason::EdgeForm));
    }
    Ok(Drawing { exponent, edges })
}
