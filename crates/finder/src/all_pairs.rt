//! The all-pairs finder, over a table of the caller's: any two edges are worth a look.
ghost use Rattle.std.specs.Prelude.{◌<◌, ◌≤◌, length};
ghost use Rattle.std.specs.Option.{unwrap_or};

use crate::int_rect::IntRect;
use crate::intake::Intake;
use crate::plain_edge::PlainEdge;

pub mod methods;

/// While it walks, `ahead` is the next pair, unless its second number is past the edges shown.
#[derive(Drop)]
pub struct AllPairs<'a> {
    table: &'a mut [PlainEdge],
    intake: Intake,
    ahead: Option<(usize, usize)>,
    ghost within: { intake.shown ≤ length table.now },
    ghost few: { intake.announced ≤ 4096 },
    ghost below: { intake.shown ≤ intake.announced },
    ghost apart: { (unwrap_or ahead (0, 1)).0 < (unwrap_or ahead (0, 1)).1 },
}
