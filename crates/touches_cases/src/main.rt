//! Reads many drawings, each after a line `--- name`, and prints that line and the report of each.
#![tactic(auto)]

use report::teller::report;
use std::alloc::Global;
use std::io;
use std::io::{BufWriter, Write};

fn main(rt: HostRuntime) -> io::Result<()> {
    let text = io::read_to_string(rt.alloc(), rt.stdin())?;
    let mut out = BufWriter::new(rt.alloc(), rt.stdout())?;
    for case in text.as_str().split("--- ").skip(1) {
        tell_case(rt.alloc(), case, &mut out)?;
    }
    out.flush()
}

/// A case is its name, and after that line its drawing, up to the next case.
fn tell_case<W: Write>(heap: Global, case: &str, out: &mut W) -> io::Result<()> {
    if let Some((name, drawing)) = case.split_once('\n') {
        writeln!(out, "--- {name}")?;
        report(heap, drawing.as_bytes(), out)?;
    }
    Ok(())
}
