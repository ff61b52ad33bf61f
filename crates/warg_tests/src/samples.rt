//! Logs in few words, as the scripts of the conformance suite have them.
use conformance_logs::scripts::{ScriptLog, envelope_of, inputs_of};
use std::alloc::Global;
use std::test::Fail;
use warg_protocol::toy::ToyVerifier;
use warg_protocol::{ProtoEnvelope, run};

/// The value, or why there is none.
pub(crate) fn told<T>(outcome: Result<T, conformance_rows::RowError>) -> Result<T, Fail> {
    match outcome {
        Ok(value) => Ok(value),
        Err(fail) => Err(Fail::new(fail.as_str())),
    }
}

/// The inputs of these lines.
pub(crate) fn inputs<L: ScriptLog>(alloc: Global, lines: &str) -> Result<Vec<Vec<u8>>, Fail> {
    told(inputs_of::<L>(alloc, lines))
}

/// The envelope of a line that begins a log.
pub(crate) fn envelope<L: ScriptLog>(
    alloc: Global,
    line: &str,
) -> Result<ProtoEnvelope<L::Record>, Fail> {
    told(envelope_of::<L>(alloc, line))
}

/// The state of these lines.
pub(crate) fn state<L: ScriptLog>(alloc: Global, lines: &str) -> Result<L, Fail> {
    let inputs = inputs::<L>(alloc, lines)?;
    match run::<L, ToyVerifier>(alloc, &ToyVerifier, inputs.as_slice()) {
        Ok(state) => Ok(state),
        Err(_) => Err(Fail::new("a record is refused")),
    }
}
