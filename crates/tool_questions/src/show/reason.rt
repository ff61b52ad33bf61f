//! Why a record is refused, in words.

ghost use Rattle.std.specs.Prelude.{◌≡◌, Some, IfOk, string_bytes};
ghost use Rattle.tool_answers.specs.Explanations.{IsEntryOfInput};
ghost use Rattle.tool_answers.specs.ToolWords.{Explains};
ghost use Rattle.warg_protocol.specs.Logs.{Cause, EnvelopeFault};
ghost use Rattle.warg_replay.specs.LogWords.{named_cause};

use std::alloc::{AllocError, Global};
use tool_answers::kind::ToolLog;
use tool_answers::unread::unless_out_of_memory;
use warg_protocol::{ProtoEnvelope, RunCause};

/// Why a record is refused.
#[derive(Debug, Drop)]
pub(crate) struct Reason {
    /// The error's sentence.
    pub(crate) sentence: String,
    /// The place of the entry at fault, if the offence is of one.
    pub(crate) entry: Option<usize>,
}

// The place of the entry that the offence of an input is of, if it is of one.
fn entry_in<L: ToolLog>(
    alloc: Global,
    state: &L,
    input: &[u8],
    offence: &L::Error,
) -> Result<Option<usize>, AllocError>
    ensures { (o : L.Offence) → L.offence_of offence.now ≡ Some o → IfOk result (λ found.
        IsEntryOfInput L.Record.read L.Record.meaning L.tells_entry
        (L.view state.now) input.now o found) }
{
    match ProtoEnvelope::<L::Record>::from_protobuf(alloc, input) {
        Ok(envelope) => state.entry_at_fault(&envelope, offence),
        Err(error) => {
            unless_out_of_memory(&error)?;
            Ok(None)
        }
    }
}

/// Why the input can't come next after the state, whose error has this cause.
pub(crate) fn reason_of<L: ToolLog>(
    alloc: Global,
    state: &L,
    input: &[u8],
    cause: &RunCause<L::Error>,
) -> Result<Reason, AllocError>
    ensures { (named : Cause (EnvelopeFault L.Record.Fault) L.Offence) →
        named_cause L.log L.Record.reading cause.now ≡ Some named →
        IfOk result (λ it. Explains L.log L.Record.reading L.tool L.tells_entry
        (L.view state.now) input.now named (string_bytes it.sentence) it.entry) }
{
    match cause {
        RunCause::Parse(fault) => Ok(Reason {
            sentence: fault.to_string(alloc)?,
            entry: None,
        }),
        RunCause::Validation(offence) => Ok(Reason {
            sentence: L::error_sentence(alloc, offence)?,
            entry: entry_in(alloc, state, input, offence)?,
        }),
    }
}
