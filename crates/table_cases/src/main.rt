//! The ordered table at work on marks and on edges, with tables of length 0, 1, exactly full, and 4096.
#![tactic(auto)]

mod edges;
mod marks;
mod points;

use edges::edge_cases;
use marks::mark_cases;

fn main(rt: HostRuntime) -> anyhow::Result<()> {
    run(&rt)
}

fn run(rt: &HostRuntime) -> anyhow::Result<()> {
    mark_cases(rt)?;
    edge_cases(rt)
}
