//! Says what to fetch: `contract FILE..`, where the files hold the envelopes of a package's log in order, prints for each line
//! of standard input, as `^1`, the digest of the content of the release that meets it best.

ghost use Rattle.std.specs.Prelude.{IfOk, map};
ghost use Rattle.std.specs.Option.{IfSome};
ghost use Rattle.std.specs.Vec.{vec_items};
ghost use Rattle.warg_protocol.specs.Logs.{IsAccepted, envelope_of, read_all};
ghost use Rattle.warg_protocol.specs.Package.{TellsHistory, kind, package_record_of};
ghost use Rattle.warg_examples.specs.Offers.{IsOffered};

use crate::words::read_log;
use std::alloc::Global;
use warg_protocol::hash::AnyHash;
use warg_protocol::package::{LogState, ValidationError};
use warg_protocol::signing::Verifier;
use warg_protocol::toy::ToyVerifier;
use warg_protocol::{RunError, VersionReq, laws, run};

/// The state that the log's envelopes add up to. Each is an envelope whose record is lawful after those before it, and
/// the state says what their history says.
fn audited<V: Verifier>(
    alloc: Global,
    verifier: &V,
    inputs: &[Vec<u8>],
) -> Result<LogState, RunError<ValidationError>>
    ensures { let log = read_all (envelope_of package_record_of) (map vec_items inputs.now) in
        IfOk result (λ state. IsAccepted kind (V.belongs verifier.now) log ×
        TellsHistory state log) }
{
    laws::package::states_tell_history();
    run(alloc, verifier, inputs)
}

/// The content to fetch for a requirement: that of a release of the log's history that is not yanked.
fn content_for<V: Verifier>(
    alloc: Global,
    verifier: &V,
    inputs: &[Vec<u8>],
    wanted: &VersionReq,
) -> Result<Option<AnyHash>, RunError<ValidationError>>
    ensures { let log = read_all (envelope_of package_record_of) (map vec_items inputs.now) in
        IfOk result (λ found. IfSome found
        (λ content. IsOffered log wanted.now.comparators.items content)) }
{
    let state = audited(alloc, verifier, inputs)?;
    Ok(match state.find_latest_release(wanted) {
        Some(release) => release.content().copied(),
        None => None,
    })
}

// What to print for a requirement.
fn answer(alloc: Global, log: &[Vec<u8>], wanted: &str) -> anyhow::Result<String> {
    let wanted = VersionReq::parse(alloc, wanted)?;
    match content_for(alloc, &ToyVerifier, log, &wanted) {
        Ok(Some(content)) => Ok(format!(in alloc; "{content}")?),
        Ok(None) => Ok(String::from_str(alloc, "nothing meets it")?),
        Err(error) => anyhow::bail!("record {} is refused", error.index),
    }
}

/// Prints what to fetch for each line of standard input.
pub(crate) fn main(rt: &HostRuntime) -> anyhow::Result<()> {
    let log = read_log(rt)?;
    for line in rt.lines(rt.alloc()) {
        println!(rt; "{}", answer(rt.alloc(), log.as_slice(), line?.as_str())?)?;
    }
    Ok(())
}
