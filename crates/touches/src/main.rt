//! Reads a drawing from the standard input, and prints the pairs that touch, the marks, the open ends and a line that sums them up.
#![tactic(auto)]

use report::teller::{Verdict, report};
use std::io;
use std::io::{BufWriter, Read, Write};

fn main(rt: HostRuntime) -> io::Result<()> {
    let mut text = Vec::new(rt.alloc());
    rt.stdin().read_to_end(&mut text)?;
    let mut out = BufWriter::new(rt.alloc(), rt.stdout())?;
    let verdict = report(rt.alloc(), text.as_slice(), &mut out)?;
    out.flush()?;
    match verdict {
        Verdict::Told => Ok(()),
        Verdict::Refused => Err(io::ErrorKind::InvalidData.into()),
    }
}
