//! Drawings for measuring, from the standard input: a line for each edge, x0 y0 x1 y1 subject clip, parted by blanks or tabs.
use anyhow::anyhow;
use plane::int_point::IntPoint;
use segm::boolean::ShapeCountBoolean;
use std::io;

/// Two points as their line has them, and what the way from the first to the second counts.
#[derive(Clone, Copy)]
pub(crate) struct DrawnCount {
    pub(crate) a: IntPoint,
    pub(crate) b: IntPoint,
    pub(crate) count: ShapeCountBoolean,
}

/// All lines, in order.
pub(crate) fn read_input(rt: &HostRuntime) -> anyhow::Result<Vec<DrawnCount>> {
    let text = io::read_to_string(rt.alloc(), rt.stdin())?;
    let mut edges = Vec::new(rt.alloc());
    for line in text.as_str().lines() {
        edges.push(read_line(line)?)?;
    }
    Ok(edges)
}

fn read_line(line: &str) -> anyhow::Result<DrawnCount> {
    let mut fields = line.split_whitespace();
    let a = point(number(fields.next())?, number(fields.next())?)?;
    let b = point(number(fields.next())?, number(fields.next())?)?;
    let subj = number(fields.next())?;
    let clip = number(fields.next())?;
    if fields.next().is_some() {
        return Err(anyhow!("a line has more than six numbers"));
    }
    Ok(DrawnCount {
        a,
        b,
        count: ShapeCountBoolean { subj, clip },
    })
}

fn number(field: Option<&str>) -> anyhow::Result<i32> {
    let text = field.ok_or_else(|| anyhow!("a line has fewer than six numbers"))?;
    Ok(text.parse::<i32>()?)
}

fn point(x: i32, y: i32) -> anyhow::Result<IntPoint> {
    IntPoint::new(x, y).map_err(|_| anyhow!("a coordinate is outside -524288 to 524288"))
}
