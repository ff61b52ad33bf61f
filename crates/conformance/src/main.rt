//! Plays the rows of the conformance suite: `conformance FILE..`, or those of standard input.
#![tactic(auto)]

mod play;
mod program;
mod proofs;
mod tally;

use std::env;
use std::process::ExitCode;
use tally::Tally;

fn main(rt: HostRuntime) -> anyhow::Result<ExitCode> {
    let mut tally = Tally::new();
    let mut has_files = false;
    for file in env::args(&rt)?.skip(1) {
        has_files = true;
        tally.play_file(&rt, file.as_str())?;
    }
    if !has_files {
        tally.play_input(&rt)?;
    }
    println!(&rt; "{} rows, {} failed", tally.rows, tally.failed)?;
    Ok(ExitCode::from(tally.status()))
}
