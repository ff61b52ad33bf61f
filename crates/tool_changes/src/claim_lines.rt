//! `claims`: what a host has to verify of a log, a line a record.

ghost use Rattle.std.specs.Prelude.{◌≡◌, ◌++◌, false, IfOk, OnOk, is_none, map, string_bytes};
ghost use Rattle.warg_envelope.specs.ReadingWords.{envelope_in};
ghost use Rattle.warg_protocol.specs.Logs.{envelope_fault_of};
ghost use Rattle.warg_replay.specs.LogWords.{named_cause};
ghost use Rattle.std.specs.Vec.{vec_items};
ghost use Rattle.warg_claims.specs.Verified.Claims.{claim_text};
ghost use Rattle.warg_audit.specs.Files.Answers.{Answers};
ghost use Rattle.tool_changes.specs.ClaimTexts.{IsClaimList, IsClaimsAnswer};
ghost use Rattle.warg_audit.specs.Files.RecordLines.{record_lines};
ghost use Rattle.warg_audit.specs.Files.Texts.{all_lines, line, no};

use std::alloc::{AllocError, Global};
use tool_answers::kind::ToolLog;
use tool_answers::limit::within;
use tool_answers::loading::{file_inputs, run_error_sentence};
use warg_audit::files::command_error::CommandError;
use warg_audit::files::command_output::CommandOutput;
use warg_audit::files::input::Input;
use warg_audit::run_error_reply;
use warg_claims::verified::Claim;
use warg_claims::{LogClaims, claims};
use warg_protocol::{ParseEnvelopeError, RunCause, RunError};
use warg_replay::external::ExternallyVerified;

// Appends the line of a claim.
fn append_claim(alloc: Global, claim: &Claim, text: &mut String) -> Result<(), AllocError>
    ensures { OnOk result (string_bytes text.new ≡ string_bytes text.old ++
        line (claim_text claim.now)) }
{
    let said = claim.to_string(alloc)?;
    text.push_str(said.as_str())?;
    text.push('\n')
}

// The claims, a line each.
fn claim_lines(alloc: Global, claims: &[Claim]) -> Result<String, AllocError>
    ensures { IfOk result (λ text. string_bytes text ≡ all_lines (map claim_text claims.now)) }
{
    let mut text = String::new(alloc);
    for claim in claims {
        append_claim(alloc, claim, &mut text)?;
    }
    Ok(text)
}

// Whether memory was refused, so that the cause names nothing.
fn is_out_of_memory<L: ExternallyVerified>(cause: &RunCause<L::Error>) -> bool
    ensures { result ≡ is_none (named_cause L.log L.Record.reading cause.now) }
{
    match cause {
        RunCause::Parse(error) => is_memory_fault::<L>(error),
        RunCause::Validation(error) => L::is_out_of_memory(error),
    }
}

// Whether memory was refused while an envelope was read.
fn is_memory_fault<L: ExternallyVerified>(error: &ParseEnvelopeError) -> bool
    ensures { result ≡ is_none (envelope_fault_of L.Record.fault_of error.now) }
{
    match error {
        ParseEnvelopeError::OutOfMemory => true,
        ParseEnvelopeError::ProtobufEnvelope(_)
        | ParseEnvelopeError::Contents(_)
        | ParseEnvelopeError::KeyID(_)
        | ParseEnvelopeError::Signature(_) => false,
    }
}

// The audit's line on a refused record, and the error's sentence.
fn told_run_error<L: ToolLog>(
    alloc: Global,
    path: &str,
    error: &RunError<L::Error>,
) -> Result<String, AllocError> {
    let reply = run_error_reply::<L>(alloc, error)?;
    let sentence = run_error_sentence::<L>(alloc, path, error)?;
    let line = reply.text();
    format!(in alloc; "{line}{sentence}")
}

// The claims before a record that can't come next whatever its signature, as an answer; why, on standard error.
fn cut_answer<L: ToolLog + ExternallyVerified>(
    alloc: Global,
    path: &str,
    text: String,
    count: usize,
    cause: RunCause<L::Error>,
) -> Result<CommandOutput, CommandError>
    ensures { Answers (λ printed. (printed ≡ no (string_bytes text)) ×
        (is_none (named_cause L.log L.Record.reading cause) ≡ false)) result }
{
    if is_out_of_memory::<L>(&cause) {
        return Err(CommandError::OutOfMemory);
    }
    let error = RunError {
        index: count,
        cause,
    };
    let told = told_run_error::<L>(alloc, path, &error)?;
    Ok(CommandOutput::new(alloc, text, 1).with_sentence(told))
}

// The claims of inputs, up to the first record that can't come next whatever its signature.
fn list_answer<L: ToolLog + ExternallyVerified>(
    alloc: Global,
    path: &str,
    inputs: &[Vec<u8>],
) -> Result<CommandOutput, CommandError>
    ensures { Answers (IsClaimList L.kind (envelope_in L.Record.reading)
        (map vec_items inputs.now)) result }
{
    let LogClaims { claims, cause } = claims::<L>(alloc, inputs);
    let text = claim_lines(alloc, claims.as_slice())?;
    match cause {
        None => Ok(CommandOutput::new(alloc, text, 0)),
        Some(cause) => cut_answer::<L>(alloc, path, text, claims.len(), cause),
    }
}

/// The claims of the log in a file, up to the first record that can't come next whatever its signature, unless they have
/// more bytes than the limit.
pub fn claims_answer<L: ToolLog + ExternallyVerified>(
    alloc: Global,
    limit: u64,
    input: Input<'_>,
) -> Result<CommandOutput, CommandError>
    ensures { Answers (IsClaimsAnswer limit L.kind (envelope_in L.Record.reading)
        (record_lines input.entry.bytes.items)) result }
{
    match file_inputs(alloc, input.path, input.bytes) {
        Ok(inputs) => match list_answer::<L>(alloc, input.path, inputs.as_slice()) {
            Ok(answer) => Ok(within(alloc, limit, answer)?),
            // Out of memory, which is the only way in which the list fails.
            Err(_) => Err(CommandError::OutOfMemory),
        },
        Err(error) => Err(error),
    }
}
