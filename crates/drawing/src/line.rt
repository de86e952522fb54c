//! One line of a drawing: the first, or that of an edge.
ghost use Rattle.std.specs.Prelude.{◌≡◌, MatchResult};
ghost use Rattle.plane.specs.PointOf.{point_of};
ghost use Rattle.plane.specs.Points.{Ranged};
ghost use Rattle.drawing.specs.declared.reason.Reason.TheVariants.{CoordinateOutside};
ghost use Rattle.drawing.specs.Texts.{OnlyEdge, OnlyHead};
ghost use Rattle.drawing.specs.Lines.{edge_line, head_line, parts, point, read_as, reason_of, together, two_points};

use crate::drawn_edge::DrawnEdge;
use crate::field::cut_at;
use crate::number::{NumberFault, read_signed, read_unsigned};
use crate::reason::Reason;
use plane::int_point::IntPoint;
use plane::x_segment::XSegment;

/// What parts the fields of a line.
const TAB: u8 = b'\t';

/// The snap exponent of a drawing's first line. The letter of its finder stands for every pair in order.
pub fn read_head(line: &[u8]) -> Result<u32, Reason>
    ensures said { result ≡ head_line line.now }
    ensures written { OnlyHead line.now result }
{
    let (exponent, letter) = cut_at(line, TAB).ok_or(Reason::HeadForm)?;
    if letter != b"P".as_slice() {
        return Err(Reason::HeadForm);
    }
    read_unsigned(exponent).map_err(|fault| reason(fault, Reason::HeadForm))
}

/// The edge of a line, its ends in either order, and whether they are exchanged.
pub fn read_edge(line: &[u8]) -> Result<DrawnEdge, Reason>
    ensures said { read_as result ≡ edge_line line.now }
    ensures written { OnlyEdge line.now result }
{
    let (p, q) = read_points(line).map_err(|fault| reason(fault, Reason::EdgeForm))?;
    let p = ranged(p)?;
    let q = ranged(q)?;
    let edge = XSegment::new(p, q).map_err(|_| Reason::EndsEqual)?;
    Ok(DrawnEdge {
        edge,
        is_turned: q.is_before(p),
    })
}

/// The point of two coordinates.
fn ranged(at: (i32, i32)) -> Result<IntPoint, Reason>
    ensures { MatchResult result (λ p. point_of p ≡ point at) (λ why. (why ≡ CoordinateOutside) × ¬ (Ranged (point at))) }
{
    IntPoint::new(at.0, at.1).map_err(|_| Reason::CoordinateOutside)
}

/// The coordinates of two points.
fn read_points(line: &[u8]) -> Result<((i32, i32), (i32, i32)), NumberFault>
    ensures { result ≡ two_points (parts line.now) }
{
    let (px, rest) = cut_at(line, TAB).ok_or(NumberFault::Form)?;
    let (py, rest) = cut_at(rest, TAB).ok_or(NumberFault::Form)?;
    let (qx, qy) = cut_at(rest, TAB).ok_or(NumberFault::Form)?;
    if cut_at(qy, TAB).is_some() {
        return Err(NumberFault::Form);
    }
    let p = both(read_signed(px), read_signed(py));
    let q = both(read_signed(qx), read_signed(qy));
    both(p, q)
}

/// Two readings as one. A wrong form is told before a number that is too large.
fn both<A: Copy, B: Copy>(
    a: Result<A, NumberFault>,
    b: Result<B, NumberFault>,
) -> Result<(A, B), NumberFault>
    ensures { result ≡ together a b }
{
    match (a, b) {
        (Ok(a), Ok(b)) => Ok((a, b)),
        (Err(NumberFault::Form), _) | (_, Err(NumberFault::Form)) => Err(NumberFault::Form),
        _ => Err(NumberFault::TooLarge),
    }
}

// Stays: no `From`, since which form is wrong depends on the line.
fn reason(fault: NumberFault, form: Reason) -> Reason
    ensures { result ≡ reason_of fault form }
{
    match fault {
        NumberFault::Form => form,
        NumberFault::TooLarge => Reason::NumberTooLarge,
    }
}
