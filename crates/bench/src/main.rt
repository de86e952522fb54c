//! Measures. The first word names the job; counts go to the standard output, times to the standard error.
#![tactic(auto)]

mod drawing_input;
mod marks;
mod running;
mod walk;

use anyhow::anyhow;
use marks::marks_job;
use running::run_job;
use std::env;
use walk::walk_job;

fn main(rt: HostRuntime) -> anyhow::Result<()> {
    run(&rt)
}

fn run(rt: &HostRuntime) -> anyhow::Result<()> {
    let mut words = env::args(rt)?;
    let _ = words.next();
    let job = words.next().ok_or_else(|| anyhow!(
        "the first word names the job: marks, walk or run"
    ))?;
    // Stays: the words of the command line name the jobs.
    match job.as_str() {
        "marks" => marks_job(rt, words),
        "walk" => walk_job(rt, words),
        "run" => run_job(rt, words),
        _ => Err(anyhow!("no such job: marks, walk or run")),
    }
}
