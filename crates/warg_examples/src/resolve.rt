//! Resolves requirements: `resolve FILE..`, where the files hold the envelopes of a package's log in order, prints for each
//! line of standard input, as `^1`, the release that meets it best.

use crate::words::read_log;
use std::alloc::Global;
use warg_protocol::package::LogState;
use warg_protocol::toy::ToyVerifier;
use warg_protocol::{VersionReq, run};

// What the log's envelopes add up to.
fn state_of(alloc: Global, log: &[Vec<u8>]) -> anyhow::Result<LogState> {
    match run(alloc, &ToyVerifier, log) {
        Ok(state) => Ok(state),
        Err(error) => anyhow::bail!("record {} is refused", error.index),
    }
}

// The release that meets the requirement best, and the digest that it is fetched by.
fn resolve(alloc: Global, state: &LogState, wanted: &str) -> anyhow::Result<String> {
    let wanted = VersionReq::parse(alloc, wanted)?;
    let Some(release) = state.find_latest_release(&wanted) else {
        return Ok(String::from_str(alloc, "no release meets it")?);
    };
    match release.content() {
        Some(digest) => Ok(format!(in alloc; "{} {digest}", release.version)?),
        None => anyhow::bail!("a yanked release was found"),
    }
}

/// Prints the release that meets each line of standard input.
pub(crate) fn main(rt: &HostRuntime) -> anyhow::Result<()> {
    let state = state_of(rt.alloc(), read_log(rt)?.as_slice())?;
    for line in rt.lines(rt.alloc()) {
        println!(rt; "{}", resolve(rt.alloc(), &state, line?.as_str())?)?;
    }
    Ok(())
}
